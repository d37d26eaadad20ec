//! Games.

ghost use Rattle.std.specs.Prelude.{◌^◌, ◌≡◌, ◌≢◌, ℕ, ◌<◌, length, ◌≤◌, All, map, option_copied, IfSome, IfNone, IfOk, IfErr};
ghost use Rattle.pg_arena.specs.Games.{IsGame, IsWithinLimits, HasPrioritiesUpTo, dual, vertex_at, identifier, priority, owner, successors, name};
ghost use Rattle.pg_arena.specs.Mirrors.Entries.{name_in, dual_entry};
ghost use Rattle.pg_arena.specs.declared.fault.ArenaFault.TheVariants.{OutOfMemory};

use crate::entry::Entry;
use crate::fault::ArenaFault;
use crate::limits::MAX_PRIORITY;
use crate::place::{identifier_at, place_of};
use crate::player::Player;
use crate::sorted_lines::{SortedLines, place_at};
use crate::vertex::Vertex;
use std::alloc::{AllocError, Global};
use std::marker::Model;
use std::rc::Rc;

/// A parity game. Contracts see the list of its vertices in rising order of identifiers.
#[derive(Drop)]
pub struct Game {
    entries: Vec<Entry>,
    shared: Rc<Shared>,
}

/// The parts that a game shares with its dual.
#[derive(Drop)]
pub(crate) struct Shared {
    identifiers: Vec<u32>,
    targets: Vec<Vertex>,
    places: Vec<Option<u32>>,
    names: Vec<Vec<u8>>,
}

impl Model for Game {
    ghost use Rattle.std.specs.Prelude.{List};
    ghost use Rattle.pg_arena.specs.Games.{GameVertex};
    ghost use Rattle.pg_arena.specs.Mirrors.Entries.{vertices_in, rows_in, IsBuiltIn};

    ghost Value = { List GameVertex };

    ghost view = { λ g. vertices_in g.shared.value.targets.items g.shared.value.names.items
        (rows_in g.shared.value.identifiers.items g.shared.value.places.items g.entries.items) };

    ghost invariant = { λ g. IsBuiltIn g.shared.value.identifiers.items g.shared.value.targets.items
        g.shared.value.names.items g.shared.value.places.items g.entries.items };
}

impl Game {
    ghost use Rattle.pg_arena.specs.Mirrors.Entries.{vertices_in, rows_in, IsBuiltIn};

    pub(crate) fn from_parts(
        alloc: Global,
        rows: SortedLines,
        targets: Vec<Vertex>,
        names: Vec<Vec<u8>>,
    ) -> Result<Game, ArenaFault>
        requires { IsBuiltIn rows.identifiers.items targets.items names.items rows.places.items rows.entries.items }
        ensures game { IfOk result (λ game. game ≡ vertices_in targets.items names.items
            (rows_in rows.identifiers.items rows.places.items rows.entries.items)) }
        ensures fault { IfErr result (λ e. e ≡ OutOfMemory) }
    {
        let SortedLines {
            identifiers,
            entries,
            places,
        } = rows;
        let shared = Rc::new(
            alloc,
            Shared {
                identifiers,
                targets,
                places,
                names,
            },
        )?;
        Ok(Game { entries, shared })
    }

    /// Returns the number of vertices, from 1 to 1,048,576.
    pub fn len(&self) -> usize
        ensures value { result ≡ length self.now }
        ensures game { IsGame self.now }
        ensures limits { IsWithinLimits self.now }
        ensures priorities { HasPrioritiesUpTo 65536 self.now }
        ensures identifiers { All (λ x. x.identifier < 2 ^ 32) self.now }
    {
        let identifiers = self.shared.identifiers.as_slice();
        identifiers.len()
    }

    /// Returns the identifier of a vertex, which names it in texts.
    pub fn identifier(&self, v: Vertex) -> u32
        requires { v < length self.now }
        ensures { result ≡ identifier self.now v }
    {
        identifier_at(&self.shared.identifiers, v.0)
    }

    /// Returns the priority of a vertex, at most 65,535, or 65,536 in a dual.
    pub fn priority(&self, v: Vertex) -> u32
        requires { v < length self.now }
        ensures { result ≡ priority self.now v }
    {
        self.entries[v.0 as usize].priority
    }

    /// Returns the player who chooses the successor at a vertex.
    pub fn owner(&self, v: Vertex) -> Player
        requires { v < length self.now }
        ensures { result ≡ owner self.now v }
    {
        self.entries[v.0 as usize].owner
    }

    /// Returns the successors of a vertex, rising and distinct; there is at least one.
    pub fn successors(&self, v: Vertex) -> &[Vertex]
        requires { v < length self.now }
        ensures { result.now ≡ successors self.now v }
    {
        let entry = &self.entries[v.0 as usize];
        &self.shared.targets[entry.from as usize..entry.to as usize]
    }

    /// Returns the name of a vertex, if it has one.
    pub fn name(&self, v: Vertex) -> Option<&[u8]>
        requires { v < length self.now }
        ensures { option_copied result ≡ name self.now v }
    {
        let place = place_at(&self.shared.places, v.0 as usize);
        name_at(&self.shared.names, place)
    }

    /// Returns the vertex with this identifier, if there is one. It takes a binary search, or constant time if every
    /// identifier between the least one and this one is used.
    pub fn vertex_of(&self, identifier: u32) -> Option<Vertex>
        ensures found { IfSome result (λ v. (v < length self.now) × ((vertex_at self.now v).identifier ≡ identifier)) }
        ensures missing { IfNone result
            ((v : ℕ) → v < length self.now → (vertex_at self.now v).identifier ≢ identifier) }
        ensures only { (v : ℕ) → v < length self.now → (vertex_at self.now v).identifier ≡ identifier
            → result ≡ Some v }
    {
        match place_of(&self.shared.identifiers, identifier) {
            Some(place) => Some(Vertex(place as u32)),
            None => None,
        }
    }
}

/// Makes the dual of a game: it swaps owners, raises each priority by one, and keeps identifiers, names and edges. Each
/// player wins in the dual what the other one wins in the game. No priority may be over 65,535. It fails only with
/// `OutOfMemory`. Game and dual share the memory for identifiers, names and edges.
pub fn dual(alloc: Global, game: &Game) -> Result<Game, ArenaFault>
    requires { HasPrioritiesUpTo MAX_PRIORITY game.now }
    ensures dual { IfOk result (λ d. d ≡ dual game.now) }
    ensures fault { IfErr result (λ e. e ≡ OutOfMemory) }
{
    let entries = dual_entries(alloc, &game.entries)?;
    let shared = game.shared.clone()?;
    Ok(Game { entries, shared })
}

fn name_at(names: &[Vec<u8>], place: Option<u32>) -> Option<&[u8]>
    ensures { option_copied result ≡ name_in names.now place }
{
    match place {
        Some(place) => names.get(place as usize).map(|name| name.as_slice()),
        None => None,
    }
}

fn dual_entries(alloc: Global, entries: &[Entry]) -> Result<Vec<Entry>, AllocError>
    requires { All (λ e. e.priority ≤ MAX_PRIORITY) entries.now }
    ensures { IfOk result (λ list. list.items ≡ map dual_entry entries.now) }
{
    let mut list = Vec::with_capacity(alloc, entries.len())?;
    for entry in entries {
        list.push(entry.dual())?;
    }
    Ok(list)
}
