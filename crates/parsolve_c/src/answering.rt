//! Commands that read and answer texts in memory.

ghost use Rattle.std.specs.Prelude.{◌≡◌, ◌≢◌, ◌↔◌, ◌⊎◌, ℕ, ◌<◌, ◌≤◌, List, length, None, IfOk, IfErr};
ghost use Rattle.pg_cli_command.specs.FaultTexts.{fault_line};
ghost use Rattle.pg_cli_command.specs.Answers.{Prints, Refuses};
ghost use Rattle.pg_cli_command.specs.declared.fault.CliFault.{CliFault};
ghost use Rattle.parsolve_c.specs.Answers.{IsHanded};
ghost use Rattle.parsolve_c.specs.Commands.{command_of, IsPrinted, IsFaultLine, IsHandedWhole, IsTooLong};
ghost use Rattle.parsolve_c.specs.Mirrors.Replies.{IsReply};

use crate::code::{
    PARSOLVE_COMMAND, PARSOLVE_COMMAND_AUTOMATON, PARSOLVE_COMMAND_CHECK, PARSOLVE_COMMAND_GAME,
    PARSOLVE_COMMAND_MEANS, PARSOLVE_COMMAND_MEASURE, PARSOLVE_COMMAND_REPLAY,
    PARSOLVE_COMMAND_SOLVE, PARSOLVE_COMMAND_SOLVE_ANY, PARSOLVE_COMMAND_SYNTH,
    PARSOLVE_COMMAND_SYNTH_COUNTER, PARSOLVE_COMMAND_SYNTH_SMALL, PARSOLVE_COMMAND_VERIFY,
    PARSOLVE_COMMAND_VERIFY_LTL, PARSOLVE_FAULT, PARSOLVE_OK, PARSOLVE_OUT_OF_MEMORY,
    PARSOLVE_TOO_SHORT,
};
use crate::copying::copy_bytes;
use pg_cli_command::{CliFault, Command, MOST_BYTES, write_answer_by, write_fault};
use pg_cli_in_one_piece::InOnePiece;
use std::alloc::{AllocError, Global};

/// Returns the command with this number, if there is one.
fn command_of(number: u32) -> Option<Command>
    ensures { result ≡ command_of number }
{
    match number {
        PARSOLVE_COMMAND_MEASURE => Some(Command::Measure { workers: 1 }),
        PARSOLVE_COMMAND_SOLVE => Some(Command::Solve { workers: 1 }),
        PARSOLVE_COMMAND_CHECK => Some(Command::Check),
        PARSOLVE_COMMAND_REPLAY => Some(Command::Replay),
        PARSOLVE_COMMAND_GAME => Some(Command::Game),
        PARSOLVE_COMMAND_SYNTH => Some(Command::Synth { workers: 1 }),
        PARSOLVE_COMMAND_SOLVE_ANY => Some(Command::SolveAny { workers: 1 }),
        PARSOLVE_COMMAND_VERIFY => Some(Command::Verify {
            workers: 1,
            by_place: false,
            environment: false,
        }),
        PARSOLVE_COMMAND_SYNTH_SMALL => Some(Command::SynthSmall { workers: 1 }),
        PARSOLVE_COMMAND_AUTOMATON => Some(Command::Automaton),
        PARSOLVE_COMMAND_MEANS => Some(Command::Means),
        PARSOLVE_COMMAND_SYNTH_COUNTER => Some(Command::SynthCounter { workers: 1 }),
        PARSOLVE_COMMAND_VERIFY_LTL => Some(Command::VerifyFormula { environment: false }),
        _ => None,
    }
}

/// Returns the text that a command prints for an input.
fn answered(alloc: Global, command: Command, input: &[u8]) -> Result<Vec<u8>, CliFault>
    ensures answer { IfOk result (λ text. Prints command input.now text.items) }
    ensures fault { IfErr result (Refuses command input.now) }
    ensures unread { IfErr result (λ fault. fault ≢ CliFault.Read) }
{
    if input.len() > MOST_BYTES {
        return Err(CliFault::InputTooLong);
    }
    let Ok(text) = Vec::from_slice(alloc, input) else {
        return Err(CliFault::OutOfMemory);
    };
    let mut output = Vec::new(alloc);
    write_answer_by(alloc, command, text, &mut InOnePiece, &mut output)?;
    Ok(output)
}

/// Returns the line of a fault.
fn line_of(alloc: Global, fault: &CliFault) -> Result<Vec<u8>, AllocError>
    ensures { IfOk result (λ line. line.items ≡ fault_line fault.now) }
{
    let mut line = Vec::new(alloc);
    match write_fault(fault, &mut line) {
        Ok(()) => Ok(line),
        Err(_) => Err(AllocError),
    }
}

/// Copies a text to the start of the output if there is room for it, and writes its length into `written`. Returns `code`, or
/// `PARSOLVE_TOO_SHORT` if there isn't.
fn hand_over(text: &[u8], output: &mut [u8], written: &mut usize, code: u32) -> u32
    requires { code ≢ PARSOLVE_TOO_SHORT }
    ensures told { written.new ≡ length text.now }
    ensures handed { IsHanded text.now output.old output.new }
    ensures room { result ≢ PARSOLVE_TOO_SHORT → (result ≡ code) × (length text.now ≤ length output.old) }
    ensures short { result ≡ PARSOLVE_TOO_SHORT → length output.old < length text.now }
{
    *written = text.len();
    if text.len() > output.len() {
        return PARSOLVE_TOO_SHORT;
    }
    copy_bytes(text, output);
    code
}

/// The reply to a command and its input.
#[derive(Drop)]
enum CommandReply {
    /// What the command prints.
    Answer(Vec<u8>),
    /// The line of the fault for which it prints nothing.
    FaultLine(Vec<u8>),
    /// No command has the number.
    NoCommand,
    /// Memory ran out.
    OutOfMemory,
}

/// Returns the reply to the command with this number and its input.
fn reply_to(alloc: Global, number: u32, input: &[u8]) -> CommandReply
    ensures { IsReply number input.now result }
{
    let Some(command) = command_of(number) else {
        return CommandReply::NoCommand;
    };
    match answered(alloc, command, input) {
        Ok(text) => CommandReply::Answer(text),
        // reading a text in memory can't fail, and a text fails to grow only if memory runs out
        Err(CliFault::OutOfMemory) | Err(CliFault::Read) | Err(CliFault::Write) => {
            CommandReply::OutOfMemory
        }
        Err(fault) => match line_of(alloc, &fault) {
            Ok(line) => CommandReply::FaultLine(line),
            Err(_) => CommandReply::OutOfMemory,
        },
    }
}

/// Answers the command with the number `command`. `PARSOLVE_OK`: the start of the output holds what the command prints for the input.
/// `PARSOLVE_FAULT`: the command prints nothing, and the start of the output holds the line of its fault. `PARSOLVE_TOO_SHORT`: the
/// output is too short for either, and stays as it was. In each of these cases `written` is the length of the text. `PARSOLVE_COMMAND`:
/// there is no such command. `PARSOLVE_OUT_OF_MEMORY`: memory ran out. In both of these cases nothing was written.
#[unsafe(no_mangle)]
pub extern "C" fn parsolve_answer(
    alloc: Global,
    command: u32,
    input: &[u8],
    output: &mut [u8],
    written: &mut usize,
) -> u32
    ensures answer { result ≡ PARSOLVE_OK → (text : List ℕ) × IsPrinted command input.now text
        × IsHandedWhole text output.old output.new written.new }
    ensures fault { result ≡ PARSOLVE_FAULT → (text : List ℕ) × IsFaultLine command input.now text
        × IsHandedWhole text output.old output.new written.new }
    ensures short { result ≡ PARSOLVE_TOO_SHORT
        → (text : List ℕ) × (IsPrinted command input.now text ⊎ IsFaultLine command input.now text)
        × IsTooLong text output.old written.new }
    ensures command { (result ≡ PARSOLVE_COMMAND) ↔ (command_of command ≡ None) }
    ensures memory { result ≢ PARSOLVE_OK → result ≢ PARSOLVE_FAULT → result ≢ PARSOLVE_TOO_SHORT → result ≢ PARSOLVE_COMMAND
        → result ≡ PARSOLVE_OUT_OF_MEMORY }
    ensures kept { result ≢ PARSOLVE_OK → result ≢ PARSOLVE_FAULT → output.new ≡ output.old }
    ensures silent { result ≢ PARSOLVE_OK → result ≢ PARSOLVE_FAULT → result ≢ PARSOLVE_TOO_SHORT → written.new ≡ written.old }
{
    match reply_to(alloc, command, input) {
        CommandReply::Answer(text) => hand_over(&text, output, written, PARSOLVE_OK),
        CommandReply::FaultLine(line) => hand_over(&line, output, written, PARSOLVE_FAULT),
        CommandReply::NoCommand => PARSOLVE_COMMAND,
        CommandReply::OutOfMemory => PARSOLVE_OUT_OF_MEMORY,
    }
}

/// A text in memory that the library allocated.
#[repr(C)]
#[derive(Drop)]
pub struct ParsolveText<'a> {
    /// The bytes of the text.
    pub bytes: &'a mut [u8],
}

/// Answers a command as `parsolve_answer` does, in memory that the library allocates and the caller frees, so a text of any length is
/// made only once. `PARSOLVE_OK`: `text` is what the command prints for the input. `PARSOLVE_FAULT`: the command prints nothing, and
/// `text` is the line of its fault. `PARSOLVE_COMMAND`: there is no such command. `PARSOLVE_OUT_OF_MEMORY`: memory ran out. In both of
/// these cases `text` stays as it was.
#[unsafe(no_mangle)]
pub extern "C" fn parsolve_answer_new<'a>(
    alloc: Global,
    command: u32,
    input: &[u8],
    text: &mut ParsolveText<'a>,
) -> u32
    ensures answer { result ≡ PARSOLVE_OK → IsPrinted command input.now text.new.bytes.now }
    ensures fault { result ≡ PARSOLVE_FAULT → IsFaultLine command input.now text.new.bytes.now }
    ensures command { (result ≡ PARSOLVE_COMMAND) ↔ (command_of command ≡ None) }
    ensures memory { result ≢ PARSOLVE_OK → result ≢ PARSOLVE_FAULT → result ≢ PARSOLVE_COMMAND
        → result ≡ PARSOLVE_OUT_OF_MEMORY }
    ensures kept { result ≢ PARSOLVE_OK → result ≢ PARSOLVE_FAULT → text.new ≡ text.old }
{
    match reply_to(alloc, command, input) {
        CommandReply::Answer(answer) => {
            text.bytes = answer.leak();
            PARSOLVE_OK
        }
        CommandReply::FaultLine(line) => {
            text.bytes = line.leak();
            PARSOLVE_FAULT
        }
        CommandReply::NoCommand => PARSOLVE_COMMAND,
        CommandReply::OutOfMemory => PARSOLVE_OUT_OF_MEMORY,
    }
}
