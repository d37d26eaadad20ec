//! Symbols: the names of inputs, latches and outputs.

ghost use Rattle.std.specs.Prelude.{◌≡◌, ◌+◌, length, map, option_map};
ghost use Rattle.std.specs.List.{prefix_len};
ghost use Rattle.pg_aiger.specs.CircuitText.{is_inner};
ghost use Rattle.pg_aiger_reader.specs.Mirrors.Steps.{Gives};
ghost use Rattle.pg_aiger_reader.specs.Views.{kind_in, symbol_in};
ghost use Rattle.pg_aiger_reader.specs.Mirrors.Symbols.{count_in, kind_at, is_blank, is_end, without_return, name_at, symbol_at, good_at, symbols_at};

use crate::fault::ReaderFault;
use crate::header::Header;
use crate::number::{field, newline};
use std::alloc::Global;

/// What a symbol names.
#[derive(Clone, Copy, Debug, PartialEq, Eq)]
pub enum SymbolKind {
    Input,
    Latch,
    Output,
}

/// The name of an input, a latch or an output. It borrows the text.
#[derive(Clone, Copy, Debug)]
pub struct Symbol<'a> {
    pub kind: SymbolKind,
    /// Its index among its kind, from 0.
    pub position: u32,
    /// Any bytes but a newline. A carriage return before the newline isn't part of it.
    pub name: &'a [u8],
}

/// Returns the kind that a letter stands for, if there is one.
fn kind_of(letter: u8) -> Option<SymbolKind>
    ensures { option_map kind_in result ≡ kind_at letter }
{
    match letter {
        b'i' => Some(SymbolKind::Input),
        b'l' => Some(SymbolKind::Latch),
        b'o' => Some(SymbolKind::Output),
        _ => None,
    }
}

/// Whether there are only empty lines left.
fn is_blank(bytes: &[u8]) -> bool
    ensures { result ≡ is_blank bytes.now }
{
    let mut rest = bytes;
    'lines: while let Some(after) = newline(rest) {
        rest = after;
    }
    rest.is_empty()
}

/// Whether the text ends here, or has only a comment or empty lines left.
#[tactic(auto, unfolding(crate::specs::Mirrors::Symbols::is_end))]
fn is_end(bytes: &[u8]) -> bool
    ensures { result ≡ is_end bytes.now }
{
    matches!(bytes, [b'c', ..]) || is_blank(bytes)
}

/// Returns how many bytes come before the next newline.
fn inner(bytes: &[u8]) -> usize
    ensures { result ≡ prefix_len is_inner bytes.now }
{
    bytes.iter().take_while(|byte| **byte != b'\n').count()
}

/// Returns the line without a carriage return at its end.
#[tactic(auto, unfolding(crate::specs::Mirrors::Symbols::without_return))]
fn without_return(line: &[u8]) -> &[u8]
    ensures { result.now ≡ without_return line.now }
{
    match line.strip_suffix(b"\r") {
        Some(line) => line,
        None => line,
    }
}

/// Returns the bytes before the end of the line, and the rest of the text after it.
#[tactic(auto, using(pg_list_lemmas::proofs::Runs::run_within), unfolding(crate::specs::Mirrors::Symbols::name_at))]
fn name(bytes: &[u8]) -> Result<(&[u8], &[u8]), ReaderFault>
    ensures { Gives (λ x. (x.0.now, x.1.now)) result (name_at bytes.now) }
{
    let len = inner(bytes);
    if len < bytes.len() {
        Ok((without_return(&bytes[..len]), &bytes[len + 1..]))
    } else {
        Err(ReaderFault::Syntax(0))
    }
}

/// Reads a symbol: a letter, a position, a space, and the name up to the end of the line. Returns it and the rest of the text.
#[tactic(auto, unfolding(crate::specs::Mirrors::Symbols::symbol_at))]
fn read_symbol(bytes: &[u8]) -> Result<(Symbol<'_>, &[u8]), ReaderFault>
    ensures { Gives (λ x. (symbol_in x.0, x.1.now)) result (symbol_at bytes.now) }
{
    match bytes {
        [] => Err(ReaderFault::Syntax(0)),
        [letter, digits @ ..] => match kind_of(*letter) {
            None => Err(ReaderFault::Syntax(bytes.len())),
            Some(kind) => {
                let (position, last, text) = field(digits)?;
                if last {
                    return Err(ReaderFault::Syntax(text.len()));
                }
                let (name, rest) = name(text)?;
                Ok((
                    Symbol {
                        kind,
                        position,
                        name,
                    },
                    rest,
                ))
            }
        },
    }
}

/// Returns how many of a kind there are.
fn count_of(header: &Header, kind: SymbolKind) -> u32
    ensures { result ≡ count_in header.now (kind_in kind) }
{
    match kind {
        SymbolKind::Input => header.inputs,
        SymbolKind::Latch => header.latches,
        SymbolKind::Output => header.outputs,
    }
}

/// Reads a symbol, which must name something. Returns it and the rest of the text.
#[tactic(auto, unfolding(crate::specs::Mirrors::Symbols::good_at))]
fn good_symbol<'a>(header: &Header, bytes: &'a [u8]) -> Result<(Symbol<'a>, &'a [u8]), ReaderFault>
    ensures { Gives (λ x. (symbol_in x.0, x.1.now)) result (good_at header.now bytes.now) }
{
    let (symbol, rest) = read_symbol(bytes)?;
    if symbol.position < count_of(header, symbol.kind) {
        Ok((symbol, rest))
    } else {
        Err(ReaderFault::Syntax(bytes.len()))
    }
}

/// Reads the symbols up to a comment, empty lines or the end. Each of them must name something.
pub(crate) fn symbols<'a>(
    alloc: Global,
    header: &Header,
    bytes: &'a [u8],
) -> Result<Vec<Symbol<'a>>, ReaderFault>
    ensures { Gives (λ x. map symbol_in x.items) result (symbols_at header.now (length bytes.now + 1) bytes.now) }
{
    let mut symbols = Vec::new(alloc);
    let mut rest = bytes;
    // a symbol takes at least one byte
    for _ in 0..bytes.len() + 1 {
        if is_end(rest) {
            return Ok(symbols);
        }
        let (symbol, after) = good_symbol(header, rest)?;
        symbols.push(symbol)?;
        rest = after;
    }
    Err(ReaderFault::Syntax(rest.len()))
}
