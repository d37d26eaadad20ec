//! Reading automata.

ghost use Rattle.std.specs.Prelude.{IfOk, IfErr};
ghost use Rattle.pg_hoa.specs.AutomatonText.{Spelt, IsRefused};

use crate::fault::{HoaFault, in_text};
use crate::table::table_of;
use pg_hoa_automaton::Automaton;
use pg_hoa_syntax::read_syntax;
use std::alloc::Global;

/// Reads an automaton in HOA v1: deterministic, with one of the six parity shapes as its acceptance, labels on its
/// edges, one start, at most 65,535 states, 16 propositions and 4,096 sets, and at most 16,777,216 states times
/// letters. The header `controllable-AP` lists the propositions that the controller sets; without it there are none.
///
/// It reads from left to right and returns the first fault. At once it reports `Syntax`, `LeftOut` (except for a
/// missing start), `UnknownHeader`, `BadName`, `TooLarge` for a number or a count over its limit and for nesting deeper
/// than 8,192, and `OutOfRange` for the number of a set, for a proposition in a label, and for a state in the body if
/// the text has `States:`. At `--BODY--` it reports, in this order, a missing `Acceptance:` (as `Syntax` there), a
/// missing `Start:`, a start out of range, numbers of `controllable-AP:` out of range, and `NotParity`. After the end
/// it reports further tokens, `TooLarge` for states times letters, and `NotDeterministic` with the least state and its
/// least letter. `OutOfMemory` can come at any point.
pub fn read_automaton(alloc: Global, bytes: &[u8]) -> Result<Automaton, HoaFault>
    ensures found { IfOk result (Spelt bytes.now) }
    ensures refused { IfErr result (IsRefused bytes.now) }
{
    let syntax = match read_syntax(alloc, bytes) {
        Ok(syntax) => syntax,
        Err(refusal) => return Err(in_text(refusal, bytes.len())),
    };
    let propositions = syntax.names.len() as u32;
    let table = table_of(
        alloc,
        syntax.shape,
        syntax.states,
        propositions,
        &syntax.lines,
    )?;
    Ok(Automaton::from_parts(
        syntax.start,
        syntax.names,
        syntax.controllable,
        syntax.sets,
        syntax.shape,
        table,
    ))
}
