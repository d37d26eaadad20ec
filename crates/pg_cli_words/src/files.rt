//! Which words of a command line name the files of its input.

ghost use Rattle.std.specs.Prelude.{◌≡◌, ◌++◌, [], false, map, IfOk, IfSome, IfNone};
ghost use Rattle.std.specs.String.{string_bytes};
ghost use Rattle.pg_cli_words.specs.Files.{files_of, takes_value, is_name, names_in, others_in, HasFiles, TakesFiles};

use crate::command::Command;
use std::alloc::{AllocError, Global};

/// The word that stands for standard input.
pub const STANDARD_INPUT: &str = "-";

impl Command {
    ghost use Rattle.pg_cli_words.specs.Files.{files_of};

    /// Returns the number of files that the command takes: one for a game, a formula or an automaton; two for a game, an automaton or a
    /// formula and the text that belongs to it.
    pub fn files(self) -> usize
        ensures { result ≡ files_of self }
    {
        match self {
            Command::Measure { .. }
            | Command::Solve { .. }
            | Command::SolveAny { .. }
            | Command::Automaton
            | Command::Game
            | Command::Synth { .. }
            | Command::SynthSmall { .. }
            | Command::SynthCounter { .. } => 1,
            Command::Check
            | Command::Replay
            | Command::Means
            | Command::Verify { .. }
            | Command::VerifyFormula { .. } => 2,
        }
    }
}

/// Whether this word is an option whose value is the next word.
fn takes_value(word: &str) -> bool
    ensures { result ≡ takes_value word.now }
{
    matches!(word, "--workers" | "--apart" | "--outs")
}

/// Whether the word isn't an option. `-` isn't one.
fn is_name(word: &str) -> bool
    ensures { result ≡ is_name word.now }
{
    !word.as_bytes().starts_with(b"-") || word == STANDARD_INPUT
}

/// The words of a command line: those that name the files of the command's input, and all others.
#[derive(Drop)]
pub struct Parted<'a> {
    pub files: Vec<&'a str>,
    pub others: Vec<&'a str>,
}

/// Separates the words after the command into names of files and other words, and appends the other words to `others`. The values of
/// options aren't names.
fn part<'a>(
    alloc: Global,
    mut others: Vec<&'a str>,
    words: &'a [String],
) -> Result<Parted<'a>, AllocError>
    ensures files { IfOk result (λ parted. map (λ w. w.now) parted.files.items ≡ names_in false (map string_bytes words.now)) }
    ensures others { IfOk result (λ parted. map (λ w. w.now) parted.others.items
        ≡ map (λ w. w.now) others.entry.items ++ others_in false (map string_bytes words.now)) }
{
    let mut files = Vec::new(alloc);
    let mut is_value = false;
    for word in words {
        let word = word.as_str();
        if !is_value && is_name(word) {
            files.push(word)?;
        } else {
            others.push(word)?;
        }
        is_value = takes_value(word);
    }
    Ok(Parted { files, others })
}

/// Returns all words.
fn texts_of<'a>(alloc: Global, words: &'a [String]) -> Result<Vec<&'a str>, AllocError>
    ensures { IfOk result (λ texts. map (λ w. w.now) texts.items ≡ map string_bytes words.now) }
{
    let mut texts = Vec::new(alloc);
    for word in words {
        texts.push(word.as_str())?;
    }
    Ok(texts)
}

/// Separates the names of the command's files from the other words. Returns None if the second word names no command, or if there aren't as
/// many names as the command takes files.
fn take_files<'a>(alloc: Global, words: &'a [String]) -> Result<Option<Parted<'a>>, AllocError>
    ensures taken { IfOk result (λ o. IfSome o (λ parted. TakesFiles (map string_bytes words.now)
        (map (λ w. w.now) parted.files.items) (map (λ w. w.now) parted.others.items))) }
    ensures none { IfOk result (λ o. IfNone o (HasFiles (map string_bytes words.now) → ⊥)) }
{
    let [_, name, behind @ ..] = words else {
        return Ok(None);
    };
    let Some(command) = Command::named(name.as_str(), 0) else {
        return Ok(None);
    };
    let parted = part(alloc, texts_of(alloc, &words[..2])?, behind)?;
    if parted.files.len() == command.files() {
        return Ok(Some(parted));
    }
    Ok(None)
}

/// Returns the command of a command line that names one file, if the command takes two. Fails only if memory runs out.
pub fn lacks_file(alloc: Global, words: &[String]) -> Result<Option<Command>, AllocError> {
    let [_, name, behind @ ..] = words else {
        return Ok(None);
    };
    let Some(command) = Command::named(name.as_str(), 0) else {
        return Ok(None);
    };
    let command = match command {
        Command::Verify { .. } if behind.iter().any(|word| word.as_str() == "--ltl") => {
            Command::VerifyFormula { environment: false }
        }
        _ => command,
    };
    let parted = part(alloc, Vec::new(alloc), behind)?;
    let is_lacking = command.files() == 2 && parted.files.len() == 1;
    Ok(is_lacking.then_some(command))
}

/// Separates the names of the command's files from the other words. The words are the program's own name, the name of the command, and any
/// others. If there aren't as many names as the command takes files, there are no files, and `others` has all words. Fails only if memory
/// runs out.
pub fn part_words<'a>(alloc: Global, words: &'a [String]) -> Result<Parted<'a>, AllocError>
    ensures taken { IfOk result (λ parted. HasFiles (map string_bytes words.now) → TakesFiles (map string_bytes words.now)
        (map (λ w. w.now) parted.files.items) (map (λ w. w.now) parted.others.items)) }
    ensures none { IfOk result (λ parted. (HasFiles (map string_bytes words.now) → ⊥)
        → (parted.files.items ≡ []) × (map (λ w. w.now) parted.others.items ≡ map string_bytes words.now)) }
{
    match take_files(alloc, words)? {
        Some(parted) => Ok(parted),
        None => Ok(Parted {
            files: Vec::new(alloc),
            others: texts_of(alloc, words)?,
        }),
    }
}
