//! The signals to which the symbols of a circuit give names.

ghost use Rattle.std.specs.Prelude.{◌≡◌, ℕ, ◌<◌, List, [], Some, map, length, slice_index_or, unwrap_or, IfOk};
ghost use Rattle.pg_aiger_reader.specs.Views.{kind_in, symbol_in, circuit_in, symbols_in};
ghost use Rattle.pg_satisfies_texts.specs.Names.{literal_of};
ghost use Rattle.pg_satisfies_texts.specs.declared.signals.NamedSignals.{NamedSignals};
ghost use Rattle.pg_satisfies_texts.specs.Mirrors.Signals.{also, noted, noted_at, meaning, nothing, signals_for, AreKept};

use indexmap::IndexMap;
use pg_aiger_reader::{Parts, Symbol, SymbolKind};
use std::alloc::{AllocError, Global};

/// The literal to which symbols give a name.
#[derive(Clone, Copy, Debug)]
pub(crate) enum NamedLiteral {
    Nowhere,
    Only(u32),
    Twice,
}

/// What symbols give a name to: the literal of inputs and outputs, and the literal of latches.
#[derive(Clone, Copy, Debug)]
pub(crate) struct NamedSignals {
    pub ports: NamedLiteral,
    pub latches: NamedLiteral,
}

/// What symbols give each name to.
pub(crate) type SignalTable<'a> = IndexMap<&'a [u8], NamedSignals>;

/// Returns the literal to which symbols give a name, after one more symbol gives it to this literal.
fn also(found: NamedLiteral, literal: u32) -> NamedLiteral
    ensures { result ≡ also found literal }
{
    match found {
        NamedLiteral::Nowhere => NamedLiteral::Only(literal),
        NamedLiteral::Only(one) if one == literal => found,
        _ => NamedLiteral::Twice,
    }
}

/// Returns what symbols give a name to, after one more symbol of this kind gives it to this literal.
fn noted(signals: NamedSignals, kind: SymbolKind, literal: u32) -> NamedSignals
    ensures { result ≡ noted signals (kind_in kind) literal }
{
    match kind {
        SymbolKind::Input | SymbolKind::Output => NamedSignals {
            ports: also(signals.ports, literal),
            latches: signals.latches,
        },
        SymbolKind::Latch => NamedSignals {
            ports: signals.ports,
            latches: also(signals.latches, literal),
        },
    }
}

/// Returns the literal of the signal that a symbol names, if the circuit has it.
fn literal_of(parts: &Parts<'_>, symbol: &Symbol<'_>) -> Option<u32>
    ensures { result ≡ literal_of (circuit_in parts.now) (symbol_in symbol.now) }
{
    let position = symbol.position as usize;
    match symbol.kind {
        SymbolKind::Input => parts.inputs.get(position).copied(),
        SymbolKind::Latch => parts.latches.get(position).map(|latch| latch.literal),
        SymbolKind::Output => parts.outputs.get(position).copied(),
    }
}

/// Notes a symbol, if the table has its name.
fn note(parts: &Parts<'_>, table: &mut SignalTable<'_>, symbol: &Symbol<'_>)
    ensures { (name : List ℕ) (signals : NamedSignals) → signals_for table.old name ≡ Some signals
        → signals_for table.new name ≡ Some (noted_at (circuit_in parts.now) name (symbol_in symbol.now) signals) }
{
    let Some(literal) = literal_of(parts, symbol) else {
        return;
    };
    if let Some(signals) = table.get_mut(symbol.name) {
        *signals = noted(*signals, symbol.kind, literal);
    }
}

/// Returns a table with these names, to which no symbol is known yet.
fn names_alone<'a>(alloc: Global, names: &'a [Vec<u8>]) -> Result<SignalTable<'a>, AllocError>
    ensures { IfOk result (λ table. (k : ℕ) → k < length (map (λ v. v.items) names.now)
        → signals_for table (slice_index_or (map (λ v. v.items) names.now) k []) ≡ Some nothing) }
{
    let nothing = NamedSignals {
        ports: NamedLiteral::Nowhere,
        latches: NamedLiteral::Nowhere,
    };
    let mut table = IndexMap::new(alloc);
    for name in names {
        table.insert(name.as_slice(), nothing)?;
    }
    Ok(table)
}

/// Returns what the symbols of a circuit give each of the names to. It goes over the symbols once.
pub(crate) fn signals_of<'a>(
    alloc: Global,
    parts: &Parts<'_>,
    names: &'a [Vec<u8>],
) -> Result<SignalTable<'a>, AllocError>
    ensures { IfOk result (AreKept (circuit_in parts.now) (symbols_in parts.now) (map (λ v. v.items) names.now)) }
{
    let mut table = names_alone(alloc, names)?;
    for symbol in &parts.symbols {
        note(parts, &mut table, symbol);
    }
    Ok(table)
}

/// Returns the literal that a name of the table means.
pub(crate) fn meaning(table: &SignalTable<'_>, name: &[u8]) -> NamedLiteral
    ensures { (signals : NamedSignals) → signals_for table.now name.now ≡ Some signals → result ≡ meaning signals }
{
    match table.get(name) {
        None => NamedLiteral::Nowhere,
        Some(signals) => match signals.ports {
            NamedLiteral::Nowhere => signals.latches,
            literal => literal,
        },
    }
}
