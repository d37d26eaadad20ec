//! The meaning of the vertices in the game of an automaton.

ghost use Rattle.std.specs.Prelude.{◌≡◌, ◌<◌, ◌≤◌, ◌++◌, ℕ, Some, All, decimal, OnOk};
ghost use Rattle.pg_hoa_automaton.specs.Automata.{step, deciding};
ghost use Rattle.pg_synth.specs.AutomatonGames.{place_owner, place_priority, place_name, arrival_of, none_priority, set_priority};
ghost use Rattle.pg_synth.specs.Mirrors.GameLines.{place_with, HasSetBelow};

use itoa::Buffer;
use pg_arena::Player;
use pg_hoa_automaton::Shape;
use std::alloc::AllocError;

/// A position in a run that the players build step by step. Odd chooses an input letter at an arrival, and Even an
/// output letter at an answer.
#[derive(Clone, Copy, Debug, PartialEq, Eq)]
pub enum Place {
    /// The run has ended: there was no edge for the last letter.
    Dead,
    /// The run has arrived at the state. The set is the one that decides among those met on the way, or `None` if the step met no set.
    Arrival(u32, Option<u32>),
    /// The run is at the state, and Odd has chosen this input letter.
    Answer(u32, u32),
}

impl Place {
    /// Returns the place with this identifier, given the number of sets and the number of identifiers per state.
    pub(crate) fn with_identifier(identifier: u32, sets: u32, width: u32) -> Place
        requires wide { 0 < width }
        requires few { sets ≤ 4096 }
        ensures { result ≡ place_with sets width identifier }
    {
        if identifier == 0 {
            return Place::Dead;
        }
        let state = (identifier - 1) / width;
        let number = (identifier - 1) % width;
        if number == 0 {
            Place::Arrival(state, None)
        } else if number <= sets {
            Place::Arrival(state, Some(number - 1))
        } else {
            Place::Answer(state, number - 1 - sets)
        }
    }

    /// Returns the player who moves from the place.
    pub(crate) fn owner(self) -> Player
        ensures { result ≡ place_owner self }
    {
        match self {
            Place::Dead | Place::Arrival(_, _) => Player::Odd,
            Place::Answer(_, _) => Player::Even,
        }
    }

    /// Returns the priority of the place, under an acceptance of the shape over `sets` sets.
    pub(crate) fn priority(self, shape: Shape, sets: u32) -> u32
        requires few { sets ≤ 4096 }
        requires below { HasSetBelow sets self }
        ensures { result ≡ place_priority shape sets self }
    {
        match self {
            Place::Dead => 1,
            Place::Arrival(_, None) => none_priority(shape, sets),
            Place::Arrival(_, Some(set)) => set_priority(shape, sets, set),
            Place::Answer(_, _) => 0,
        }
    }

    /// Replaces the text with the name of the place.
    pub(crate) fn put_name(self, name: &mut Vec<u8>) -> Result<(), AllocError>
        ensures { OnOk result (name.new.items ≡ place_name self) }
    {
        name.clear();
        match self {
            Place::Dead => name.extend_from_slice(b"dead"),
            Place::Arrival(state, None) => append(name, b"s", state),
            Place::Arrival(state, Some(set)) => {
                append(name, b"s", state)?;
                append(name, b"/", set)
            }
            Place::Answer(state, input) => {
                append(name, b"s", state)?;
                append(name, b":", input)
            }
        }
    }
}

fn none_priority(shape: Shape, sets: u32) -> u32
    requires { sets ≤ 4096 }
    ensures { result ≡ none_priority shape sets }
{
    match shape {
        Shape::MaxEven => 1,
        Shape::MaxOdd => 0,
        Shape::MinEven => sets % 2,
        Shape::MinOdd => (sets + 1) % 2,
        Shape::Always => 2,
        Shape::Never => 1,
    }
}

fn set_priority(shape: Shape, sets: u32, set: u32) -> u32
    requires few { sets ≤ 4096 }
    requires below { set < sets }
    ensures { result ≡ set_priority shape sets set }
{
    match shape {
        Shape::MaxEven => set + 2,
        Shape::MinEven => 2 * sets + 2 - set,
        Shape::MinOdd => 2 * sets + 3 - set,
        Shape::MaxOdd | Shape::Always | Shape::Never => set + 3,
    }
}

/// Returns the set that decides among those that a step meets, under a shape: the first or the last one.
pub(crate) fn deciding(shape: Shape, sets: &[u32]) -> Option<u32>
    ensures { result ≡ deciding shape sets.now }
{
    match shape {
        Shape::MinEven | Shape::MinOdd => sets.first().copied(),
        _ => sets.last().copied(),
    }
}

/// Returns the priority of a step that meets the sets `met`, in rising order, in an automaton with `sets` sets, at most 4,096.
pub fn priority_of(shape: Shape, sets: u32, met: &[u32]) -> u32
    requires few { sets ≤ 4096 }
    requires below { All (λ s. s < sets) met.now }
    ensures { (target : ℕ) → result ≡ place_priority shape sets (arrival_of shape (Some (step target met.now))) }
{
    match deciding(shape, met) {
        None => none_priority(shape, sets),
        Some(set) => set_priority(shape, sets, set),
    }
}

/// Appends a mark and a number.
fn append(name: &mut Vec<u8>, mark: &[u8], number: u32) -> Result<(), AllocError>
    ensures { OnOk result (name.new.items ≡ name.old.items ++ mark.now ++ decimal number) }
{
    let mut buffer = Buffer::new();
    name.extend_from_slice(mark)?;
    name.extend_from_slice(buffer.format(number).as_bytes())
}
