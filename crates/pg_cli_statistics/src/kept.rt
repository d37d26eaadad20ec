//! The part of a command's input that is kept for notes on its fault.

use memchr::memmem;
use pg_cli_words::{Command, STANDARD_INPUT};
use std::alloc::{AllocError, Global};

/// The most bytes of a file that are kept.
const MOST_KEPT: usize = 1_048_576;

/// The bytes between two texts in one input: the newline that ends the first text, and the line `--`.
const SEPARATOR: &[u8] = b"\n--\n";

/// The first bytes of a file, or of standard input, which has no name.
#[derive(Drop)]
struct Piece<'a> {
    name: Option<&'a str>,
    bytes: Vec<u8>,
    is_whole: bool,
}

/// One input, or the texts of two files.
#[derive(Drop)]
enum Pieces<'a> {
    Nothing,
    One(Piece<'a>),
    Two(Piece<'a>, Piece<'a>),
}

/// The part of a command's input that is kept: nothing before it is read, and nothing if memory runs out.
#[derive(Drop)]
pub struct Kept<'a> {
    pub(crate) command: Option<Command>,
    pieces: Pieces<'a>,
}

/// A text as far as it is kept, and the name of its file; standard input has no name.
#[derive(Clone, Copy)]
pub(crate) struct KeptText<'a> {
    pub(crate) name: Option<&'a str>,
    pub(crate) bytes: &'a [u8],
    pub(crate) is_whole: bool,
}

impl<'a> Piece<'a> {
    /// Keeps the first bytes of a text that came from the file at this place.
    fn of(
        alloc: Global,
        files: &[&'a str],
        place: usize,
        text: &[u8],
    ) -> Result<Piece<'a>, AllocError> {
        let bytes = text.get(..MOST_KEPT).unwrap_or(text);
        Ok(Piece {
            name: name_at(files, place),
            bytes: Vec::from_slice(alloc, bytes)?,
            is_whole: bytes.len() == text.len(),
        })
    }

    /// Returns the file as one text.
    fn text(&self) -> KeptText<'_> {
        KeptText {
            name: self.name,
            bytes: self.bytes.as_slice(),
            is_whole: self.is_whole,
        }
    }
}

/// Returns the name of the file at this place, if it isn't standard input.
fn name_at<'a>(files: &[&'a str], place: usize) -> Option<&'a str> {
    match files.get(place) {
        Some(name) if *name != STANDARD_INPUT => Some(*name),
        _ => None,
    }
}

/// Returns the two texts of one input, if there is a line `--` between them.
pub(crate) fn parted(input: &[u8]) -> Option<(&[u8], &[u8])> {
    let place = memmem::find(input, SEPARATOR)?;
    let first = input.get(..place.saturating_add(1))?;
    Some((first, input.get(place.saturating_add(SEPARATOR.len())..)?))
}

impl<'a> Pieces<'a> {
    fn two(
        alloc: Global,
        files: &[&'a str],
        first: &[u8],
        second: &[u8],
    ) -> Result<Pieces<'a>, AllocError> {
        let first = Piece::of(alloc, files, 0, first)?;
        let second = Piece::of(alloc, files, 1, second)?;
        Ok(Pieces::Two(first, second))
    }
}

impl<'a> Kept<'a> {
    /// Keeps nothing.
    pub fn new() -> Kept<'a> {
        Kept {
            command: None,
            pieces: Pieces::Nothing,
        }
    }

    /// Keeps the first bytes of one input, which came from the first of these files, or from standard input if there is none.
    pub fn of(alloc: Global, command: Command, files: &[&'a str], text: &[u8]) -> Kept<'a> {
        Kept {
            command: Some(command),
            pieces: match Piece::of(alloc, files, 0, text) {
                Ok(piece) => Pieces::One(piece),
                Err(_) => Pieces::Nothing,
            },
        }
    }

    /// Keeps the first bytes of the texts of these two files.
    pub fn of_both(
        alloc: Global,
        command: Command,
        files: &[&'a str],
        first: &[u8],
        second: &[u8],
    ) -> Kept<'a> {
        Kept {
            command: Some(command),
            pieces: Pieces::two(alloc, files, first, second).unwrap_or(Pieces::Nothing),
        }
    }

    fn takes_two(&self) -> bool {
        match self.command {
            Some(command) => command.files() == 2,
            None => false,
        }
    }

    /// Returns the first text that the command reads, and the second text if the command reads two and both are kept. If one input holds
    /// both texts, it counts as standard input.
    pub(crate) fn texts(&self) -> (Option<KeptText<'_>>, Option<KeptText<'_>>) {
        let input = match &self.pieces {
            Pieces::Nothing => return (None, None),
            Pieces::Two(first, second) => return (Some(first.text()), Some(second.text())),
            Pieces::One(piece) => piece.text(),
        };
        match parted(input.bytes) {
            Some((first, second)) if self.takes_two() => (
                Some(KeptText {
                    name: None,
                    bytes: first,
                    is_whole: true,
                }),
                Some(KeptText {
                    name: None,
                    bytes: second,
                    is_whole: input.is_whole,
                }),
            ),
            _ => (Some(input), None),
        }
    }
}
