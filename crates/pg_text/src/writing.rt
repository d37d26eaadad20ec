//! Writers for parts of texts: numbers, and lists of numbers with commas. They make many small writes, so pass a
//! buffered writer.

ghost use Rattle.std.specs.Prelude.{◌≡◌, ◌<◌, ◌≤◌, ◌++◌, All, decimal, length, map, replicate, take, OnOk, OnSome};
ghost use Rattle.std.specs.List.{flat_map};
ghost use Rattle.std.specs.Io.KnownBytes.{Appends};
ghost use Rattle.pg_arena.specs.Games.{identifier};
ghost use Rattle.pg_text.specs.Numbers.{comma_number, numbers_text, identifiers_text};

use arrayvec::ArrayVec;
use itoa::Buffer;
use pg_arena::{Game, Vertex};
use std::io::{self, Write};

/// 32 zeros, each after a comma.
const ZEROS: &[u8] = b",0,0,0,0,0,0,0,0,0,0,0,0,0,0,0,0,0,0,0,0,0,0,0,0,0,0,0,0,0,0,0,0";

/// A short line that is put together before it is written, since a write costs more than the bytes in it.
pub type ShortLine = ArrayVec<u8, 64>;

/// Appends a number in decimal digits. None if it doesn't fit.
#[inline(always)]
pub fn add_number(line: &mut ShortLine, number: u32) -> Option<()>
    ensures { OnSome result (line.new.items ≡ line.old.items ++ decimal number) }
{
    if number < 10 {
        return line.try_push(b'0' + number as u8).ok();
    }
    let mut buffer = Buffer::new();
    line.try_extend_from_slice(buffer.format(number).as_bytes())
        .ok()
}

/// Writes a number in decimal digits.
#[inline(always)]
pub fn write_number<W: Write>(number: u32, out: &mut W) -> io::Result<()>
    ensures { OnOk result (Appends (W.contents out.old) (W.contents out.new) (decimal number)) }
{
    let mut buffer = Buffer::new();
    out.write_all(buffer.format(number).as_bytes())
}

/// Writes a comma and a number of one digit.
fn write_comma_digit<W: Write>(digit: u8, out: &mut W) -> io::Result<()>
    requires { digit < 10 }
    ensures { OnOk result (Appends (W.contents out.old) (W.contents out.new) (comma_number digit)) }
{
    out.write_all(&[b',', b'0' + digit])
}

/// Writes a comma and a number. Most components of measures are small, so a number of one digit and its comma are
/// written at once.
fn write_comma_number<W: Write>(number: u32, out: &mut W) -> io::Result<()>
    ensures { OnOk result (Appends (W.contents out.old) (W.contents out.new) (comma_number number)) }
{
    if number < 10 {
        return write_comma_digit(number as u8, out);
    }
    out.write_all(b",")?;
    write_number(number, out)
}

/// Returns the number of zeros at the start, up to as many as one write takes.
fn zeros(numbers: &[u32]) -> usize
    ensures most { result ≤ 32 }
    ensures within { result ≤ length numbers.now }
    ensures zeros { take result numbers.now ≡ replicate result 0 }
{
    numbers
        .iter()
        .take(32)
        .take_while(|number| **number == 0)
        .count()
}

/// Writes `count` zeros, each after a comma.
fn write_comma_zeros<W: Write>(count: usize, out: &mut W) -> io::Result<()>
    requires { count ≤ 32 }
    ensures { OnOk result (Appends (W.contents out.old) (W.contents out.new)
        (flat_map comma_number (replicate count 0))) }
{
    out.write_all(&ZEROS[..2 * count])
}

/// Writes numbers, each after a comma. Most components of measures are zeros, so zeros in a row are written at once.
fn write_comma_numbers<W: Write>(numbers: &[u32], out: &mut W) -> io::Result<()>
    ensures { OnOk result (Appends (W.contents out.old) (W.contents out.new) (flat_map comma_number numbers.now)) }
{
    let mut rest = numbers;
    'runs: while let [first, after @ ..] = rest {
        let count = zeros(rest);
        if count > 1 {
            write_comma_zeros(count, out)?;
            rest = &rest[count..];
        } else {
            write_comma_number(*first, out)?;
            rest = after;
        }
    }
    Ok(())
}

/// Writes numbers separated by commas, without spaces.
pub fn write_numbers<W: Write>(numbers: &[u32], out: &mut W) -> io::Result<()>
    ensures { OnOk result (Appends (W.contents out.old) (W.contents out.new) (numbers_text numbers.now)) }
{
    match numbers {
        [] => Ok(()),
        [first, rest @ ..] => {
            write_number(*first, out)?;
            write_comma_numbers(rest, out)
        }
    }
}

fn write_comma_identifiers<W: Write>(
    game: &Game,
    vertices: &[Vertex],
    out: &mut W,
) -> io::Result<()>
    requires { All (λ v. v < length game.now) vertices.now }
    ensures { OnOk result (Appends (W.contents out.old) (W.contents out.new)
        (flat_map comma_number (map (identifier game.now) vertices.now))) }
{
    for v in vertices {
        write_comma_number(game.identifier(*v), out)?;
    }
    Ok(())
}

/// Writes the identifiers of vertices separated by commas, without spaces.
pub fn write_identifiers<W: Write>(game: &Game, vertices: &[Vertex], out: &mut W) -> io::Result<()>
    requires { All (λ v. v < length game.now) vertices.now }
    ensures { OnOk result (Appends (W.contents out.old) (W.contents out.new) (identifiers_text game.now vertices.now)) }
{
    match vertices {
        [] => Ok(()),
        [first, rest @ ..] => {
            write_number(game.identifier(*first), out)?;
            write_comma_identifiers(game, rest, out)
        }
    }
}
