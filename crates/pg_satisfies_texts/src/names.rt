//! The literals of a circuit that the names of a formula mean.

ghost use Rattle.std.specs.Prelude.{◌≡◌, map, take, IfOk, MatchResult};
ghost use Rattle.pg_aiger.specs.CircuitText.{Symbol as CircuitSymbol};
ghost use Rattle.pg_aiger_reader.specs.Views.{symbol_in, circuit_in, symbols_in};
ghost use Rattle.pg_satisfies_texts.specs.FaultTexts.{name_bytes};
ghost use Rattle.pg_satisfies_texts.specs.Names.{AreMeant, IsNameFault};

use crate::fault::{MOST_KNOWN, NameFault};
use crate::signals::{NamedLiteral, meaning, signals_of};
use pg_aiger_reader::{Name, Parts, Symbol};
use std::alloc::{AllocError, Global};

/// Returns a copy of a name, as faults have it.
fn name_of(alloc: Global, bytes: &[u8]) -> Result<Name, AllocError>
    ensures { IfOk result (λ name. name_bytes name ≡ bytes.now) }
{
    Ok(Name {
        bytes: Vec::from_slice(alloc, bytes)?,
    })
}

/// Returns the names that the first symbols give.
fn known_names(alloc: Global, symbols: &[Symbol<'_>]) -> Result<Vec<Name>, AllocError>
    ensures { IfOk result (λ names. map name_bytes names.items ≡ take 65 (map (λ s. s.name.now) symbols.now)) }
{
    let mut names = Vec::new(alloc);
    for symbol in &symbols[..MOST_KNOWN.min(symbols.len())] {
        names.push(name_of(alloc, symbol.name)?)?;
    }
    Ok(names)
}

/// Returns the literals that the names mean, by the symbols of the circuit, or the fault of the first name that means none.
pub(crate) fn literals_of(
    alloc: Global,
    parts: &Parts<'_>,
    names: &[Vec<u8>],
) -> Result<Result<Vec<u32>, NameFault>, AllocError>
    ensures { IfOk result (λ r. MatchResult r
        (λ x. AreMeant (circuit_in parts.now) (symbols_in parts.now) (map (λ v. v.items) names.now) x.items)
        (IsNameFault (circuit_in parts.now) (symbols_in parts.now) (map (λ v. v.items) names.now))) }
{
    let table = signals_of(alloc, parts, names)?;
    let mut literals = Vec::new(alloc);
    for name in names {
        match meaning(&table, name) {
            NamedLiteral::Only(literal) => literals.push(literal)?,
            NamedLiteral::Nowhere => {
                let known = known_names(alloc, &parts.symbols)?;
                return Ok(Err(NameFault::Missing(name_of(alloc, name)?, known)));
            }
            NamedLiteral::Twice => {
                return Ok(Err(NameFault::Ambiguous(name_of(alloc, name)?)));
            }
        }
    }
    Ok(Ok(literals))
}
