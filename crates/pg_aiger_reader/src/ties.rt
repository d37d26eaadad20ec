//! Matches the inputs and outputs of a circuit to the propositions of an automaton.

ghost use Rattle.std.specs.Prelude.{◌≡◌, ◌<◌, List, ℕ, length, map, get_or, All};
ghost use Rattle.std.specs.Prelude.{IfOk, IfErr, IfSome, IsNone, MatchBool, MatchOption, MatchResult, Contains, true, false};
ghost use Rattle.pg_aiger_reader.specs.Views.{kind_in, symbol_in, circuit_in, symbols_in};
ghost use Rattle.pg_aiger.specs.Mirrors.Layouts.{names_until};
ghost use Rattle.pg_hoa_automaton.specs.Automata.{IsAutomaton};
ghost use Rattle.pg_aiger.specs.CircuitText.{latch};
ghost use Rattle.pg_aiger.specs.CircuitText as text;
ghost use Rattle.pg_aiger_reader.specs.Ties.{AreTied, IsTied, IsTieFault, IsSideFault, IsNameless, IsUnknown, AreKnown, IsFirstUnknown, literals_at};
ghost use Rattle.pg_aiger_reader.specs.Mirrors.Places.{is_kind, noted, IsPlaceOf, AreGiven, texts};

use crate::fault::{SideFault, TieFault};
use crate::name::Name;
use crate::reader::Parts;
use crate::symbol::{Symbol, SymbolKind};
use pg_hoa_automaton::Automaton;
use std::alloc::{AllocError, Global};

/// The place to which symbols give a name.
#[derive(Clone, Copy, Debug)]
pub(crate) enum SymbolPlace {
    Missing,
    At(usize),
    Twice,
}

fn is_kind(one: SymbolKind, other: SymbolKind) -> bool
    ensures { result ≡ is_kind (kind_in one) (kind_in other) }
{
    matches!(
        (one, other),
        (SymbolKind::Input, SymbolKind::Input)
            | (SymbolKind::Latch, SymbolKind::Latch)
            | (SymbolKind::Output, SymbolKind::Output)
    )
}

/// Returns the place of a name, after one more symbol.
fn noted(
    found: SymbolPlace,
    kind: SymbolKind,
    count: usize,
    name: &[u8],
    symbol: &Symbol<'_>,
) -> SymbolPlace
    ensures { result ≡ noted found (kind_in kind) count name.now (symbol_in symbol.now) }
{
    let position = symbol.position as usize;
    if !is_kind(symbol.kind, kind) || position >= count || symbol.name != name {
        return found;
    }
    match found {
        SymbolPlace::Missing => SymbolPlace::At(position),
        SymbolPlace::At(place) if place == position => found,
        _ => SymbolPlace::Twice,
    }
}

/// Returns the place to which the symbols of a kind give a name, among the first `count` positions.
fn place_of(kind: SymbolKind, count: usize, symbols: &[Symbol<'_>], name: &[u8]) -> SymbolPlace
    ensures { IsPlaceOf (kind_in kind) count (map symbol_in symbols.now) name.now result }
{
    let mut found = SymbolPlace::Missing;
    for i in 0..symbols.len() {
        found = noted(found, kind, count, name, &symbols[i]);
    }
    found
}

/// Returns the position of `place` among the places, if it is one of them.
fn position_of(places: &[usize], place: usize) -> Option<usize>
    ensures some { IfSome result (λ j. (j < length places.now) × (get_or places.now j 0 ≡ place)) }
    ensures none { IsNone result → Contains places.now place → ⊥ }
{
    places.iter().position(|p| *p == place)
}

/// Returns the place to which the symbols give each of the names, among the first `count` positions, or the fault of the first name that
/// has no place of its own.
fn places_of(
    alloc: Global,
    kind: SymbolKind,
    count: usize,
    symbols: &[Symbol<'_>],
    names: &[&[u8]],
) -> Result<Result<Vec<usize>, SideFault>, AllocError>
    ensures { IfOk result (λ r. MatchResult r
        (λ x. AreGiven (kind_in kind) count (map symbol_in symbols.now) (texts names.now) (length names.now) x.items)
        (IsSideFault false (kind_in kind) count (map symbol_in symbols.now) (texts names.now))) }
{
    let mut places = Vec::new(alloc);
    for k in 0..names.len() {
        match place_of(kind, count, symbols, names[k]) {
            SymbolPlace::Missing => return Ok(Err(SideFault::Missing(Name::of(alloc, names[k])?))),
            SymbolPlace::Twice => return Ok(Err(SideFault::Twice(Name::of(alloc, names[k])?))),
            SymbolPlace::At(place) => {
                if let Some(j) = position_of(&places, place) {
                    let one = Name::of(alloc, names[j])?;
                    let other = Name::of(alloc, names[k])?;
                    return Ok(Err(SideFault::Shared(place, one, other)));
                }
                places.push(place)?;
            }
        }
    }
    Ok(Ok(places))
}

/// Returns the first of `count` positions that isn't among the places, if there is one.
fn left(places: &[usize], count: usize) -> Option<usize>
    ensures some { IfSome result (λ p. (p < count) × (Contains places.now p → ⊥) × ((q : ℕ) → q < p → Contains places.now q)) }
    ensures none { IsNone result → (p : ℕ) → p < count → Contains places.now p }
{
    for p in 0..count {
        let Some(_) = position_of(places, p) else {
            return Some(p);
        };
    }
    None
}

/// Whether the symbol gives a place of the kind a name that isn't among the names.
fn is_unknown(kind: SymbolKind, count: usize, names: &[&[u8]], symbol: &Symbol<'_>) -> bool
    ensures { MatchBool result (IsUnknown (kind_in kind) count (texts names.now) (symbol_in symbol.now))
        (¬ IsUnknown (kind_in kind) count (texts names.now) (symbol_in symbol.now)) }
{
    if !is_kind(symbol.kind, kind) || symbol.position as usize >= count {
        return false;
    }
    for k in 0..names.len() {
        if names[k] == symbol.name {
            return false;
        }
    }
    true
}

/// Returns the first symbol that gives a place of the kind a name that isn't among the names, if there is one.
fn first_unknown<'a>(
    kind: SymbolKind,
    count: usize,
    names: &[&[u8]],
    symbols: &[Symbol<'a>],
) -> Option<Symbol<'a>>
    ensures { MatchOption result
        (AreKnown (kind_in kind) count (map symbol_in symbols.now) (texts names.now))
        (λ s. IsFirstUnknown (kind_in kind) count (texts names.now) (map symbol_in symbols.now) (symbol_in s)) }
{
    for i in 0..symbols.len() {
        if is_unknown(kind, count, names, &symbols[i]) {
            return Some(symbols[i]);
        }
    }
    None
}

/// Returns the literals at these places.
fn selected(alloc: Global, literals: &[u32], places: &[usize]) -> Result<Vec<u32>, AllocError>
    requires { All (λ p. p < length literals.now) places.now }
    ensures { IfOk result (λ x. x.items ≡ literals_at literals.now places.now) }
{
    let mut found = Vec::new(alloc);
    for place in places {
        found.push(literals[*place])?;
    }
    Ok(found)
}

/// Returns the literals of the names in their order, matched by symbols.
fn by_symbols(
    alloc: Global,
    kind: SymbolKind,
    symbols: &[Symbol<'_>],
    names: &[&[u8]],
    literals: &[u32],
) -> Result<Result<Vec<u32>, SideFault>, AllocError>
    ensures { IfOk result (λ r. MatchResult r
        (λ x. AreTied false (kind_in kind) (map symbol_in symbols.now) (texts names.now) literals.now x.items)
        (IsSideFault false (kind_in kind) (length literals.now) (map symbol_in symbols.now) (texts names.now))) }
{
    let places = match places_of(alloc, kind, literals.len(), symbols, names)? {
        Ok(places) => places,
        Err(fault) => return Ok(Err(fault)),
    };
    if let Some(symbol) = first_unknown(kind, literals.len(), names, symbols) {
        let name = Name::of(alloc, symbol.name)?;
        return Ok(Err(SideFault::Extra(symbol.position as usize, name)));
    }
    match left(&places, literals.len()) {
        Some(place) => Ok(Err(SideFault::Nameless(place))),
        None => Ok(Ok(selected(alloc, literals, &places)?)),
    }
}

/// Returns the literals in their order, if there are as many as names.
fn in_order(
    alloc: Global,
    names: &[&[u8]],
    literals: Vec<u32>,
) -> Result<Result<Vec<u32>, SideFault>, AllocError>
    ensures { (kind : text.Kind) (symbols : List text.Symbol) → IfOk result (λ r. MatchResult r
        (λ x. AreTied true kind symbols (texts names.now) literals.items x.items)
        (IsSideFault true kind (length literals.items) symbols (texts names.now))) }
{
    if literals.len() < names.len() {
        return Ok(Err(SideFault::Short(Name::of(alloc, names[literals.len()])?)));
    }
    if names.len() < literals.len() {
        return Ok(Err(SideFault::Long(names.len())));
    }
    Ok(Ok(literals))
}

/// Returns the literals of one side in the order of its names.
fn side(
    alloc: Global,
    by_place: bool,
    kind: SymbolKind,
    symbols: &[Symbol<'_>],
    names: &[&[u8]],
    literals: Vec<u32>,
) -> Result<Result<Vec<u32>, SideFault>, AllocError>
    ensures { IfOk result (λ r. MatchResult r
        (λ x. AreTied by_place (kind_in kind) (map symbol_in symbols.now) (texts names.now) literals.items x.items)
        (IsSideFault by_place (kind_in kind) (length literals.items) (map symbol_in symbols.now) (texts names.now))) }
{
    if by_place {
        in_order(alloc, names, literals)
    } else {
        by_symbols(alloc, kind, symbols, names, &literals)
    }
}

/// Whether no symbol names an input or an output.
fn has_latches_alone(symbols: &[Symbol<'_>]) -> bool
    ensures { MatchBool result ((s : text.Symbol) → Contains (map symbol_in symbols.now) s → s.kind ≡ latch)
        (((s : text.Symbol) → Contains (map symbol_in symbols.now) s → s.kind ≡ latch) → ⊥) }
{
    for i in 0..symbols.len() {
        if !is_kind(symbols[i].kind, SymbolKind::Latch) {
            return false;
        }
    }
    true
}

/// Whether names are needed, there are inputs or outputs, and none of them has a name.
fn is_nameless(by_place: bool, inputs: &[u32], outputs: &[u32], symbols: &[Symbol<'_>]) -> bool
    ensures { MatchBool result (IsNameless by_place inputs.now outputs.now (map symbol_in symbols.now))
        (IsNameless by_place inputs.now outputs.now (map symbol_in symbols.now) → ⊥) }
{
    if by_place || (inputs.is_empty() && outputs.is_empty()) {
        return false;
    }
    has_latches_alone(symbols)
}

/// Returns the names of the propositions that the controller sets, or of the others.
fn names_of(
    alloc: Global,
    automaton: &Automaton,
    controlled: bool,
) -> Result<Vec<&[u8]>, AllocError>
    requires { IsAutomaton automaton.now }
    ensures { IfOk result (λ x. texts x.items ≡ names_until controlled automaton.now (length automaton.now.propositions)) }
{
    let mut names = Vec::new(alloc);
    for a in 0..automaton.propositions() {
        if automaton.controllable(a) == controlled {
            names.push(automaton.proposition(a))?;
        }
    }
    Ok(names)
}

/// Returns the circuit with its inputs and outputs in the order of the automaton's propositions. It matches them by the names that the
/// symbols give, or, with `by_place`, by their order. Each proposition of the environment has an input of its own and each of the
/// controller an output, and none is left over.
///
/// It fails with `NoSymbols` if it needs names and no input and no output has one, with `Inputs` or `Outputs` at the first of the two
/// sides that doesn't match, and with `OutOfMemory` if memory runs out.
pub fn tie<'a>(
    alloc: Global,
    automaton: &Automaton,
    parts: Parts<'a>,
    by_place: bool,
) -> Result<Parts<'a>, TieFault>
    ensures tied { IfOk result (λ x. IsTied by_place automaton.now (circuit_in parts.entry) (symbols_in parts.entry) (circuit_in x)) }
    ensures refused { IfErr result (IsTieFault by_place automaton.now (circuit_in parts.entry) (symbols_in parts.entry)) }
{
    // called only for what its contract says about the automaton
    let _states = automaton.states();
    let Parts {
        greatest,
        inputs,
        latches,
        outputs,
        gates,
        symbols,
    } = parts;
    if is_nameless(by_place, &inputs, &outputs, &symbols) {
        return Err(TieFault::NoSymbols);
    }
    let names = names_of(alloc, automaton, false)?;
    let inputs = match side(alloc, by_place, SymbolKind::Input, &symbols, &names, inputs)? {
        Ok(inputs) => inputs,
        Err(fault) => return Err(TieFault::Inputs(fault)),
    };
    let names = names_of(alloc, automaton, true)?;
    let outputs = match side(
        alloc,
        by_place,
        SymbolKind::Output,
        &symbols,
        &names,
        outputs,
    )? {
        Ok(outputs) => outputs,
        Err(fault) => return Err(TieFault::Outputs(fault)),
    };
    Ok(Parts {
        greatest,
        inputs,
        latches,
        outputs,
        gates,
        symbols,
    })
}
