//! Worlds as text.

ghost use Rattle.std.specs.Prelude.{◌≡◌, ◌≤◌, ◌<◌, ℕ, List, All, length, decimal, OnOk};
ghost use Rattle.std.specs.List.{flat_map, enumerate_from};
ghost use Rattle.std.specs.Io.KnownBytes.{Appends};
ghost use Rattle.pg_measure.specs.Measures.{MeasureValue};
ghost use Rattle.pg_text.specs.Numbers.{comma_number};
ghost use Rattle.pg_world.specs.Worlds.{IsMapOf};
ghost use Rattle.pg_cli_command.specs.Measuring.{measures_text};
ghost use Rattle.pg_cli_command.specs.Replaying.{update_line, taken_text, replica_text, world_text, AreMapsOf};

use crate::output::write_measure_line;
use itoa::Buffer;
use pg_arena::{Game, Vertex};
use pg_map::Update;
use pg_text::writing::write_number;
use pg_world::World;
use std::io::{self, Write};

/// Writes the number of an update in decimal digits.
fn write_place<W: Write>(place: usize, writer: &mut W) -> io::Result<()>
    ensures { OnOk result (Appends (W.contents writer.old) (W.contents writer.new) (decimal place)) }
{
    let mut buffer = Buffer::new();
    writer.write_all(buffer.format(place).as_bytes())
}

/// Writes a line for each update: its number, the identifier of its vertex, and the measure to which it rose.
fn write_updates<W: Write>(world: &World, writer: &mut W) -> io::Result<()>
    requires { All (λ u. u.vertex < length world.now.game) world.now.updates }
    ensures { OnOk result (Appends (W.contents writer.old) (W.contents writer.new)
        (flat_map (λ x. update_line world.now.game x.0 x.1) (enumerate_from 0 world.now.updates))) }
{
    let game = world.game();
    for (place, update) in world.updates().iter().enumerate() {
        writer.write_all(b"update ")?;
        write_place(place, writer)?;
        writer.write_all(b" ")?;
        write_measure_line(
            writer,
            game.identifier(update.vertex),
            update.measure.view(),
        )?;
    }
    Ok(())
}

/// Writes the numbers of updates, each after a comma.
fn write_comma_places<W: Write>(places: &[usize], writer: &mut W) -> io::Result<()>
    ensures { OnOk result (Appends (W.contents writer.old) (W.contents writer.new)
        (flat_map comma_number places.now)) }
{
    for place in places {
        writer.write_all(b",")?;
        write_place(*place, writer)?;
    }
    Ok(())
}

/// Writes the numbers of the updates that a replica took, separated by commas, or `-` if there are none.
fn write_taken<W: Write>(taken: &[usize], writer: &mut W) -> io::Result<()>
    ensures { OnOk result (Appends (W.contents writer.old) (W.contents writer.new) (taken_text taken.now)) }
{
    match taken {
        [] => writer.write_all(b"-"),
        [first, rest @ ..] => {
            write_place(*first, writer)?;
            write_comma_places(rest, writer)
        }
    }
}

/// Writes a line for each vertex in the map of a replica, in rising order of identifiers.
fn write_map<W: Write>(world: &World, replica: u32, writer: &mut W) -> io::Result<()>
    requires { replica ≤ world.now.cut.workers }
    ensures { OnOk result ((f : List MeasureValue) → IsMapOf world.now replica f
        → Appends (W.contents writer.old) (W.contents writer.new) (measures_text world.now.game f)) }
{
    let game = world.game();
    for number in 0..game.len() {
        let v = Vertex(number as u32);
        write_measure_line(writer, game.identifier(v), world.map_of(replica, v))?;
    }
    Ok(())
}

/// Writes the updates that a replica took, and then its map.
fn write_replica<W: Write>(world: &World, replica: u32, writer: &mut W) -> io::Result<()>
    requires { replica ≤ world.now.cut.workers }
    ensures { OnOk result ((f : List MeasureValue) → IsMapOf world.now replica f
        → Appends (W.contents writer.old) (W.contents writer.new) (replica_text world.now replica f)) }
{
    writer.write_all(b"replica ")?;
    write_number(replica, writer)?;
    writer.write_all(b" taken ")?;
    write_taken(world.taken_of(replica), writer)?;
    writer.write_all(b";\n")?;
    write_map(world, replica, writer)
}

/// Writes the updates of a world, and then, for each replica from 0 on, the updates that it took and its map.
pub(crate) fn write_world<W: Write>(world: &World, writer: &mut W) -> io::Result<()>
    requires { All (λ u. u.vertex < length world.now.game) world.now.updates }
    ensures { OnOk result ((maps : List (List MeasureValue)) → AreMapsOf world.now maps
        → Appends (W.contents writer.old) (W.contents writer.new) (world_text world.now maps)) }
{
    write_updates(world, writer)?;
    for replica in 0..=world.workers() {
        write_replica(world, replica, writer)?;
    }
    Ok(())
}
