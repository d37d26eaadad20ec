//! The answer to what a command line asks for.

ghost use Rattle.std.specs.Prelude.{◌≡◌, ◌≢◌, ◌≤◌, ℕ, List, Option, length, map, is_some, IfOk, OnOk, IfErr};
ghost use Rattle.std.specs.Option.{option_map};
ghost use Rattle.std.specs.String.{string_bytes};
ghost use Rattle.std.specs.Io.KnownBytes.{Appends};
ghost use Rattle.pg_cli_words.specs.Words.{AsksFor, HasFewWorkers};
ghost use Rattle.pg_cli_command.specs.Measuring.{IsMeasureOf};
ghost use Rattle.pg_cli_command.specs.Answers.{PrintsBy};
ghost use Rattle.pg_cli_request.specs.Inputs.{kind_of, Whole, PrintsOfPair, IsHeaded, PrintsFor, IsAnswered};
ghost use Rattle.pg_cli_request.specs.Refusals.{HasNoPort, OrLost, RefusesPair, RefusesInput, RefusesFor, IsUnheaded, IsRefused, EndsWork};
ghost use Rattle.pg_cli_request.specs.Mirrors.Givens.{input_of, IsWithin};

use crate::fault::Fault;
use crate::input::{Given, read};
use crate::named::{name_given, name_outputs};
use crate::pair::PairCommand;
use crate::texts::FileTexts;
use pg_cli::{
    CliFault, Command, Invocation, MOST_BYTES, Programs, check_texts, means_texts, replay_texts,
    verify_formula_texts, verify_texts, work, write_answer,
};
use pg_cli_statistics::{CountedTops, Figures, Kept, Notes, Stopwatch};
use pg_cli_words::Request;
use pg_coord::Reach;
use std::alloc::Global;
use std::io::Write;

/// Writes all the bytes, and flushes the output.
fn write_bytes<W: Write>(output: &mut W, bytes: &[u8]) -> Result<(), CliFault>
    ensures written { OnOk result (Appends (W.contents output.old) (W.contents output.new) bytes.now) }
    ensures refused { IfErr result (λ fault. fault ≡ CliFault.Write) }
{
    output.write_all(bytes).map_err(|_| CliFault::Write)?;
    output.flush().map_err(|_| CliFault::Write)
}

/// Writes an answer that was made in memory.
fn write_whole<R: Reach + AllocGlobal, W: Write>(
    rt: &R,
    command: Command,
    answer: &[u8],
    figures: Option<&mut Figures>,
    output: &mut CountedTops<W>,
) -> Result<(), CliFault>
    ensures written { OnOk result (Appends (W.contents output.old.inner) (W.contents output.new.inner) answer.now) }
    ensures refused { IfErr result (λ fault. fault ≡ CliFault.Write) }
{
    let Some(figures) = figures else {
        return write_bytes(output, answer);
    };
    figures.add_answer(rt, command, answer);
    write_bytes(output, answer)?;
    figures.end_writing(rt);
    Ok(())
}

/// Writes the answer to a text as it is made.
fn write_long<R: Reach + AllocGlobal, W: Write>(
    rt: &R,
    command: Command,
    text: Vec<u8>,
    figures: Option<&mut Figures>,
    output: &mut CountedTops<W>,
) -> Result<(), CliFault>
    requires few { HasFewWorkers command }
    requires limit { length text.items ≤ MOST_BYTES }
    ensures written { OnOk result ((answer : List ℕ) × PrintsBy IsMeasureOf command text.items answer
        × Appends (W.contents output.old.inner) (W.contents output.new.inner) answer) }
    ensures refused { IfErr result (λ fault. OrLost (RefusesInput IsMeasureOf command (Whole text.items)) (Fault.Cli fault)) }
    ensures untouched { IfErr result (λ fault. fault ≢ CliFault.Write → output.new.inner ≡ output.old.inner) }
{
    if figures.is_some() {
        output.tops = Some(0);
    }
    write_answer(rt.alloc(), command, text, output)?;
    output.flush().map_err(|_| CliFault::Write)?;
    if let Some(figures) = figures {
        figures.end_measures(rt, output.tops.unwrap_or(0));
    }
    Ok(())
}

/// Makes the answer to a text in memory.
fn answer_in_memory<R: Reach + AllocGlobal>(
    rt: &R,
    command: Command,
    programs: Option<Programs<R>>,
    text: Vec<u8>,
) -> Result<Vec<u8>, CliFault>
    requires few { HasFewWorkers command }
    requires limit { length text.items ≤ MOST_BYTES }
    ensures answer { IfOk result (λ answer. PrintsBy (kind_of (is_some programs)) command text.items answer.items) }
    ensures refused { IfErr result (λ fault.
        OrLost (RefusesInput (kind_of (is_some programs)) command (Whole text.items)) (Fault.Cli fault)) }
{
    match programs {
        Some(programs) => programs.answer(rt.alloc(), command, text),
        None => pg_cli::answer(rt.alloc(), command, text),
    }
}

/// Returns the answer. If it is an automaton, the controller sets the outputs that are named in it.
fn name_answer<'a>(
    alloc: Global,
    command: Command,
    outs: Option<&'a str>,
    answer: Vec<u8>,
) -> Result<Vec<u8>, Fault<'a>>
    ensures named { IfOk result (λ named. IsHeaded (option_map (λ o. o.now) outs.entry) command answer.items named.items) }
    ensures refused { IfErr result (IsUnheaded (option_map (λ o. o.now) outs.entry) command answer.items) }
{
    match command {
        Command::Automaton => name_outputs(alloc, outs, answer),
        _ => Ok(answer),
    }
}

/// Writes the answer to one text. The answers of `measure` and `replay` may be larger than memory, so they are written as they are made.
/// But if the workers are programs, they have ended before what they found is written, however long it takes to be read.
fn write_one<'a, R: Reach + AllocGlobal, W: Write>(
    rt: &R,
    command: Command,
    programs: Option<Programs<R>>,
    outs: Option<&'a str>,
    text: Vec<u8>,
    figures: Option<&mut Figures>,
    output: &mut CountedTops<W>,
) -> Result<(), Fault<'a>>
    requires few { HasFewWorkers command }
    requires limit { length text.items ≤ MOST_BYTES }
    ensures written { OnOk result ((answer : List ℕ)
        × PrintsFor (kind_of (is_some programs)) (option_map (λ o. o.now) outs.entry) command (Whole text.items) answer
        × Appends (W.contents output.old.inner) (W.contents output.new.inner) answer) }
    ensures refused { IfErr result
        (RefusesFor (kind_of (is_some programs)) (option_map (λ o. o.now) outs.entry) command (Whole text.items)) }
    ensures untouched { IfErr result (λ fault. fault ≢ Fault.Cli CliFault.Write → output.new.inner ≡ output.old.inner) }
{
    match command {
        Command::Measure { .. } | Command::Replay if programs.is_none() => {
            Ok(write_long(rt, command, text, figures, output)?)
        }
        _ => {
            let answer = answer_in_memory(rt, command, programs, text)?;
            let answer = name_answer(rt.alloc(), command, outs, answer)?;
            Ok(write_whole(rt, command, &answer, figures, output)?)
        }
    }
}

/// Writes the answer to two texts. The answer of `replay` is written as it is made.
fn write_pair<R: Reach + AllocGlobal, W: Write>(
    rt: &R,
    command: Command,
    pair: PairCommand,
    first: Vec<u8>,
    second: Vec<u8>,
    figures: Option<&mut Figures>,
    output: &mut CountedTops<W>,
) -> Result<(), CliFault>
    ensures written { OnOk result ((answer : List ℕ) × PrintsOfPair pair first.items second.items answer
        × Appends (W.contents output.old.inner) (W.contents output.new.inner) answer) }
    ensures refused { IfErr result (λ fault. OrLost (RefusesPair pair first.items second.items) (Fault.Cli fault)) }
    ensures untouched { IfErr result (λ fault. fault ≢ CliFault.Write → output.new.inner ≡ output.old.inner) }
{
    let alloc = rt.alloc();
    match pair {
        PairCommand::Check => {
            let answer = check_texts(alloc, first, second)?;
            write_whole(rt, command, &answer, figures, output)
        }
        PairCommand::Means => {
            let answer = means_texts(alloc, first, second)?;
            write_whole(rt, command, &answer, figures, output)
        }
        PairCommand::Verify {
            by_place,
            environment,
        } => {
            let answer = verify_texts(alloc, by_place, environment, first, second)?;
            write_whole(rt, command, &answer, figures, output)
        }
        PairCommand::VerifyFormula { environment } => {
            let answer = verify_formula_texts(alloc, environment, first, second)?;
            write_whole(rt, command, &answer, figures, output)
        }
        PairCommand::Replay => {
            replay_texts(alloc, first, second, output)?;
            output.flush().map_err(|_| CliFault::Write)
        }
    }
}

/// Writes the answer to an input.
fn write_input<'a, R: Reach + AllocGlobal, W: Write>(
    rt: &R,
    command: Command,
    programs: Option<Programs<R>>,
    outs: Option<&'a str>,
    input: Given,
    figures: Option<&mut Figures>,
    output: &mut CountedTops<W>,
) -> Result<(), Fault<'a>>
    requires few { HasFewWorkers command }
    requires limit { IsWithin input }
    ensures written { OnOk result ((answer : List ℕ)
        × PrintsFor (kind_of (is_some programs)) (option_map (λ o. o.now) outs.entry) command (input_of input) answer
        × Appends (W.contents output.old.inner) (W.contents output.new.inner) answer) }
    ensures refused { IfErr result
        (RefusesFor (kind_of (is_some programs)) (option_map (λ o. o.now) outs.entry) command (input_of input)) }
    ensures untouched { IfErr result (λ fault. fault ≢ Fault.Cli CliFault.Write → output.new.inner ≡ output.old.inner) }
{
    match input {
        Given::Whole(text) => write_one(rt, command, programs, outs, text, figures, output),
        Given::Apart(pair, first, second) => Ok(write_pair(
            rt, command, pair, first, second, figures, output,
        )?),
    }
}

/// The options of a command.
#[derive(Clone, Copy)]
struct Options<'a> {
    /// The path of the program to start as each worker, if the workers are programs.
    apart: Option<&'a str>,
    /// The names of the outputs, if `--outs` gives them.
    outs: Option<&'a str>,
    /// Whether to print figures.
    stats: bool,
    /// Whether to print them as JSON.
    json: bool,
}

/// Returns the programs that work for a command, if `--apart` names one.
fn programs_of<R: Reach + AllocGlobal>(
    rt: &R,
    command: Command,
    apart: Option<&str>,
) -> Result<Option<Programs<R>>, CliFault>
    ensures listened { IfOk result (λ programs. is_some programs ≡ is_some apart.entry) }
    ensures refused { IfErr result (λ fault. HasNoPort (is_some apart.entry) command (Fault.Cli fault)) }
{
    match apart {
        Some(path) => Ok(Some(Programs::listen(rt, rt.alloc(), command, path)?)),
        None => Ok(None),
    }
}

/// Returns the figures of an input, if they were asked for.
fn figures_of<R: Reach + AllocGlobal>(
    rt: &R,
    command: Command,
    stats: bool,
    input: &Given,
    watch: Stopwatch,
) -> Option<Figures> {
    if !stats {
        return None;
    }
    Some(match input {
        Given::Whole(text) => Figures::of(rt, command, text, watch),
        Given::Apart(_, first, second) => Figures::of_both(rt, command, first, second, watch),
    })
}

/// Keeps what notes on a fault need of a command's input.
fn kept_of<'a>(alloc: Global, command: Command, files: &[&'a str], given: &Given) -> Kept<'a> {
    match given {
        Given::Whole(text) => Kept::of(alloc, command, files, text),
        Given::Apart(_, first, second) => Kept::of_both(alloc, command, files, first, second),
    }
}

/// Prints the figures, if there are any.
fn tell_figures<E: Write>(errors: &mut E, is_json: bool, figures: Option<Figures>) {
    let Some(figures) = figures else {
        return;
    };
    if is_json {
        figures.tell_json(errors);
    } else {
        figures.tell(errors);
    }
}

/// Reads the input of a command, writes the answer, and then the notes and the figures.
fn carry_out<'a, R: Reach + AllocGlobal, T: FileTexts, W: Write, E: Write>(
    rt: &R,
    command: Command,
    options: Options<'a>,
    files: &[&'a str],
    texts: &T,
    kept: &mut Kept<'a>,
    output: &mut CountedTops<W>,
    errors: &mut E,
) -> Result<(), Fault<'a>>
    requires { HasFewWorkers command }
    ensures answered { OnOk result (IsAnswered (T.holds texts.now) (kind_of (is_some options.entry.apart)) command (map (λ f. f.now) files.now)
        (option_map (λ o. o.now) options.entry.outs) (W.contents output.old.inner) (W.contents output.new.inner)) }
    ensures refused { IfErr result (IsRefused (T.holds texts.now) (is_some options.entry.apart) command (map (λ f. f.now) files.now)
        (option_map (λ o. o.now) options.entry.outs)) }
    ensures untouched { IfErr result (λ fault. fault ≢ Fault.Cli CliFault.Write → output.new.inner ≡ output.old.inner) }
{
    let programs = programs_of(rt, command, options.apart)?;
    let watch = Stopwatch::start(rt);
    let given = read(texts, command, files)?;
    *kept = kept_of(rt.alloc(), command, files, &given);
    let input = name_given(rt.alloc(), command, options.outs, given)?;
    let notes = Notes::of(rt.alloc(), command, options.outs.is_some(), input.first());
    let mut figures = figures_of(rt, command, options.stats, &input, watch);
    write_input(
        rt,
        command,
        programs,
        options.outs,
        input,
        figures.as_mut(),
        output,
    )?;
    notes.tell(errors);
    tell_figures(errors, options.json, figures);
    Ok(())
}

/// Does what a command line asks for: reads the files of a command from `texts` and writes the answer to `output`, or serves as a worker.
/// Notes and figures go to `errors`. What is kept of the input is for notes on a fault.
///
/// For a command it returns the first of these faults. `Cli(Listen)`, if its workers are programs and it can't listen on any port. `Open`,
/// `Read`, or for standard input `Cli(Read)`, and `Cli(InputTooLong)`. If outputs are named, `Cli(NoSeparator)`, `Cli(Hoa)`, `Controlled`,
/// `NoProposition` and `Cli(InputTooLong)`; for `automaton` they come after the others, except `Cli(Write)`. `Cli` with a fault of
/// `pg_cli::answer`. `Cli(Write)`. `Cli(OutOfMemory)` can come at any point. For a worker it returns `Cli` with a fault of `pg_cli::work`.
pub fn obey<'a, R: Reach + AllocGlobal, T: FileTexts, W: Write, E: Write>(
    rt: &R,
    request: &'a Request,
    files: &[&'a str],
    texts: &T,
    kept: &mut Kept<'a>,
    output: &mut CountedTops<W>,
    errors: &mut E,
) -> Result<(), Fault<'a>>
    requires { (words : List (List ℕ)) × AsksFor words request.now.line }
    ensures answered { (command : _) (apart : _) → request.now.line ≡ Invocation.Run command apart
        → OnOk result (IsAnswered (T.holds texts.now) (kind_of (is_some apart)) command (map (λ f. f.now) files.now)
        (option_map string_bytes request.now.outs) (W.contents output.old.inner) (W.contents output.new.inner)) }
    ensures refused { (command : _) (apart : _) → request.now.line ≡ Invocation.Run command apart
        → IfErr result (IsRefused (T.holds texts.now) (is_some apart) command (map (λ f. f.now) files.now)
        (option_map string_bytes request.now.outs)) }
    ensures served { (port : _) → request.now.line ≡ Invocation.Work port → IfErr result (EndsWork port) }
    ensures untouched { IfErr result (λ fault. fault ≢ Fault.Cli CliFault.Write → output.new.inner ≡ output.old.inner) }
{
    match &request.line {
        Invocation::Run(command, apart) => {
            let options = Options {
                apart: apart.as_ref().map(|path| path.as_str()),
                outs: request.outs.as_ref().map(|names| names.as_str()),
                stats: request.stats || request.json,
                json: request.json,
            };
            carry_out(rt, *command, options, files, texts, kept, output, errors)
        }
        Invocation::Work(port) => Ok(work(rt, rt.alloc(), *port)?),
    }
}
