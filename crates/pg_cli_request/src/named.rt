//! Outputs that the command line names.

ghost use Rattle.std.specs.Prelude.{◌≡◌, ◌≤◌, ℕ, List, Some, length, map, IfOk, IfErr};
ghost use Rattle.std.specs.Option.{option_map};
ghost use Rattle.pg_hoa.specs.Outputs.{RefusesOutputs};
ghost use Rattle.pg_cli_request.specs.Inputs.{Whole, names_in, HasNamed, IsNamed};
ghost use Rattle.pg_cli_request.specs.Refusals.{RefusesNames, HasNoNamed, IsUnnamed};
ghost use Rattle.pg_cli_request.specs.Mirrors.Givens.{input_of, IsWithin};

use crate::fault::Fault;
use crate::input::Given;
use crate::pair::PairCommand;
use pg_cli::{CliFault, Command, MOST_BYTES, part_texts};
use pg_hoa::{OutputsFault, with_outputs};
use std::alloc::{AllocError, Global};

/// The character between two names.
const COMMA: char = ',';

/// Returns the names between commas, without the white space around them.
fn names_in(alloc: Global, outs: &str) -> Result<Vec<&[u8]>, AllocError>
    ensures { IfOk result (λ names. map (λ name. name.now) names.items ≡ names_in outs.now) }
{
    let mut names = Vec::new(alloc);
    for name in outs.split(COMMA) {
        names.push(name.trim().as_bytes())?;
    }
    Ok(names)
}

/// Returns the fault for a reason why outputs can't be named.
fn fault_of(fault: OutputsFault, outs: &str) -> Fault<'_>
    ensures { (text : List ℕ) → RefusesOutputs text (names_in outs.now) fault → RefusesNames outs.now text result }
{
    match fault {
        OutputsFault::Text(fault) => Fault::Cli(CliFault::from(fault)),
        OutputsFault::Controlled => Fault::Controlled,
        OutputsFault::NoProposition(place) => Fault::NoProposition(
            outs.split(COMMA).nth(place).unwrap_or(outs).trim(),
        ),
    }
}

/// Returns the text of an automaton. If outputs are named, adds a header which says that the controller sets them. Fails with
/// `InputTooLong` if the text then has more than `MOST_BYTES` bytes.
pub(crate) fn name_outputs<'a>(
    alloc: Global,
    outs: Option<&'a str>,
    text: Vec<u8>,
) -> Result<Vec<u8>, Fault<'a>>
    ensures named { IfOk result (λ named. HasNamed (option_map (λ o. o.now) outs.entry) text.items named.items) }
    ensures limit { length text.items ≤ MOST_BYTES → IfOk result (λ named. length named.items ≤ MOST_BYTES) }
    ensures refused { IfErr result (HasNoNamed (option_map (λ o. o.now) outs.entry) text.items) }
{
    let Some(outs) = outs else {
        return Ok(text);
    };
    let names = names_in(alloc, outs)?;
    match with_outputs(alloc, &text, names.as_slice()) {
        Ok(headed) => {
            if headed.len() > MOST_BYTES {
                return Err(Fault::Cli(CliFault::InputTooLong));
            }
            Ok(headed)
        }
        Err(fault) => Err(fault_of(fault, outs)),
    }
}

/// Separates the two texts of `verify` in one input, and names the outputs in the first text, the automaton.
fn name_parted<'a>(
    alloc: Global,
    by_place: bool,
    environment: bool,
    outs: &'a str,
    text: &[u8],
) -> Result<Given, Fault<'a>>
    ensures limit { IfOk result IsWithin }
    ensures named { IfOk result (λ input. (workers : ℕ)
        → IsNamed (Some outs.now) (Command.Verify workers by_place environment) (Whole text.now) (input_of input)) }
    ensures refused { IfErr result (λ fault. (workers : ℕ)
        → IsUnnamed (Some outs.now) (Command.Verify workers by_place environment) (Whole text.now) fault) }
{
    let (first, second) = part_texts(alloc, text)?;
    let first = name_outputs(alloc, Some(outs), first)?;
    Ok(Given::Apart(
        PairCommand::Verify {
            by_place,
            environment,
        },
        first,
        second,
    ))
}

/// Returns the input in which the controller sets the outputs that are named, if any are. The input of `automaton` is a formula and stays
/// as it is.
pub(crate) fn name_given<'a>(
    alloc: Global,
    command: Command,
    outs: Option<&'a str>,
    given: Given,
) -> Result<Given, Fault<'a>>
    requires limit { IsWithin given }
    ensures named { IfOk result (λ input. IsNamed (option_map (λ o. o.now) outs.entry) command (input_of given) (input_of input)) }
    ensures limit { IfOk result IsWithin }
    ensures refused { IfErr result (IsUnnamed (option_map (λ o. o.now) outs.entry) command (input_of given)) }
{
    match given {
        Given::Apart(pair, first, second) => Ok(Given::Apart(
            pair,
            name_outputs(alloc, outs, first)?,
            second,
        )),
        Given::Whole(text) => match (command, outs) {
            (Command::Automaton, _) => Ok(Given::Whole(text)),
            (
                Command::Verify {
                    by_place,
                    environment,
                    ..
                },
                Some(outs),
            ) => { name_parted(alloc, by_place, environment, outs, &text) }
            _ => Ok(Given::Whole(name_outputs(alloc, outs, text)?)),
        },
    }
}
