//! Lines whose successors rise, and the game that they make.

ghost use Rattle.std.specs.Prelude.{◌≡◌, ℕ, ◌+◌, ◌++◌, ◌∷◌, [], ◌<◌, ◌≤◌, IsTrue, OnOk, OnErr, IfOk, IfErr, IsSome, None, option_map, option_copied, option_to_list, length, vec_len, vec_capacity};
ghost use Rattle.std.specs.List.Sorted.{IsStrictlyIncreasing};
ghost use Rattle.pg_arena.specs.Games.{HasPrioritiesUpTo};
ghost use Rattle.pg_arena.specs.Lines.{Line, line_with, add_fault, Answers, IsGameOf, FinishFails};
ghost use Rattle.pg_arena.specs.Mirrors.Entries.{place_at};

use crate::entry::Entry;
use crate::fault::ArenaFault;
use crate::game::Game;
use crate::identifiers::Identifiers;
use crate::limits::{MAX_EDGES, MAX_PRIORITY, MAX_VERTICES};
use crate::link::{first_unknown, link};
use crate::player::Player;
use crate::sorted_lines::rows_by_identifier;
use crate::vertex::Vertex;
use std::alloc::{AllocError, Global};
use std::marker::Model;

/// The lines in the order in which they came. Targets are identifiers until `finish` makes them vertices. The name of a
/// line is in the list of names. Its place there is in the list of places, which ends with the last line that has a
/// name.
#[derive(Drop)]
pub(crate) struct GivenLines {
    identifiers: Identifiers,
    entries: Vec<Entry>,
    targets: Vec<Vertex>,
    places: Vec<Option<u32>>,
    names: Vec<Vec<u8>>,
    alloc: Global,
}

impl Model for GivenLines {
    ghost use Rattle.std.specs.Prelude.{List};
    ghost use Rattle.pg_arena.specs.Lines.{Line};
    ghost use Rattle.pg_arena.specs.Mirrors.Entries.{vertices_in, rows_in, AreKeptIn};

    ghost Value = { List Line };

    ghost view = { λ l. vertices_in l.targets.items l.names.items
        (rows_in l.identifiers l.places.items l.entries.items) };

    ghost invariant = { λ l. AreKeptIn l.identifiers l.targets.items l.names.items l.places.items l.entries.items };
}

impl GivenLines {
    pub fn new(alloc: Global) -> GivenLines
        ensures { result ≡ [] }
    {
        GivenLines {
            identifiers: Identifiers::new(alloc),
            entries: Vec::new(alloc),
            targets: Vec::new(alloc),
            places: Vec::new(alloc),
            names: Vec::new(alloc),
            alloc,
        }
    }

    /// Adds a line whose successors rise.
    #[inline(always)]
    pub fn add(
        &mut self,
        identifier: u32,
        priority: u32,
        owner: Player,
        successors: &[u32],
        name: Option<&[u8]>,
    ) -> Result<(), ArenaFault>
        requires { IsStrictlyIncreasing successors.now }
        ensures answer { Answers result (add_fault self.old (line_with identifier priority owner successors.now name.entry)) }
        ensures ok { OnOk result (self.new ≡ self.old ++ line_with identifier priority owner successors.now name.entry ∷ []) }
        ensures err { OnErr result (self.new ≡ self.old) }
    {
        if let Some(fault) = self.fault_of(identifier, priority, successors) {
            return Err(fault);
        }
        self.put(identifier, priority, owner, successors, name)?;
        Ok(())
    }

    /// Returns the first reason against a line, if there is one.
    #[inline(always)]
    fn fault_of(&self, identifier: u32, priority: u32, successors: &[u32]) -> Option<ArenaFault>
        ensures { (line : Line) → line.identifier ≡ identifier → line.priority ≡ priority
            → line.successors ≡ successors.now → result ≡ add_fault self.now line }
    {
        if priority > MAX_PRIORITY {
            return Some(ArenaFault::PriorityTooLarge(identifier, priority));
        }
        if successors.is_empty() {
            return Some(ArenaFault::NoSuccessor(identifier));
        }
        if self.identifiers.contains(identifier) {
            return Some(ArenaFault::DuplicateVertex(identifier));
        }
        if self.entries.len() >= MAX_VERTICES {
            return Some(ArenaFault::TooManyVertices);
        }
        if successors.len() > MAX_EDGES - self.targets.len() {
            return Some(ArenaFault::TooManyEdges);
        }
        None
    }

    /// Adds a line that there is no reason against.
    #[inline(always)]
    fn put(
        &mut self,
        identifier: u32,
        priority: u32,
        owner: Player,
        successors: &[u32],
        name: Option<&[u8]>,
    ) -> Result<(), AllocError>
        requires rising { IsStrictlyIncreasing successors.now }
        requires accepted { add_fault self.old (line_with identifier priority owner successors.now name) ≡ None }
        ensures ok { OnOk result (self.new ≡ self.old ++ line_with identifier priority owner successors.now name.entry ∷ []) }
        ensures err { OnErr result (self.new ≡ self.old) }
    {
        let line = self.entries.len();
        make_room(&mut self.names, &mut self.places, line, name.is_some())?;
        self.targets.reserve(successors.len())?;
        self.entries.reserve(1)?;
        let name = copied(self.alloc, name)?;
        self.identifiers.push(identifier)?;
        keep(&mut self.names, &mut self.places, line, name);
        let from = self.targets.len();
        let to = from + successors.len();
        put_all(&mut self.targets, successors);
        let entry = Entry {
            priority,
            owner,
            from: from as u32,
            to: to as u32,
        };
        self.entries.push_reserved(entry);
        Ok(())
    }

    /// Makes the game of the lines.
    pub fn finish(self) -> Result<Game, ArenaFault>
        ensures game { IfOk result (λ game. IsGameOf self game) }
        ensures priorities { IfOk result (HasPrioritiesUpTo MAX_PRIORITY) }
        ensures fault { IfErr result (λ fault. FinishFails self fault) }
    {
        let GivenLines {
            identifiers,
            entries,
            mut targets,
            places,
            names,
            alloc,
        } = self;
        if entries.is_empty() {
            return Err(ArenaFault::NoVertex);
        }
        let rows = rows_by_identifier(alloc, identifiers, entries, places)?;
        if link(&rows.identifiers, &mut targets) {
            return Game::from_parts(alloc, rows, targets, names);
        }
        let first = first_unknown(&rows.identifiers, &rows.entries, &targets);
        let (identifier, successor) = first.unwrap();
        Err(ArenaFault::UnknownSuccessor(identifier, successor))
    }
}

/// Appends identifiers to the targets. There is room for them.
#[inline(always)]
fn put_all(targets: &mut Vec<Vertex>, identifiers: &[u32])
    requires { length targets.old.items + length identifiers.now ≤ vec_capacity targets.old }
    ensures { targets.new.items ≡ targets.old.items ++ identifiers.now }
{
    for identifier in identifiers {
        targets.push_reserved(Vertex(*identifier));
    }
}

fn copied(alloc: Global, name: Option<&[u8]>) -> Result<Option<Vec<u8>>, AllocError>
    ensures { IfOk result (λ copy. option_map (λ n. n.items) copy ≡ option_copied name.entry) }
{
    match name {
        None => Ok(None),
        Some(name) => Ok(Some(Vec::from_slice(alloc, name)?)),
    }
}

/// Makes room for one more name, if the line has one, and for its place.
fn make_room(
    names: &mut Vec<Vec<u8>>,
    places: &mut Vec<Option<u32>>,
    line: usize,
    named: bool,
) -> Result<(), AllocError>
    requires few { length places.old.items ≤ line }
    requires fits { line < MAX_VERTICES }
    ensures names { names.new.items ≡ names.old.items }
    ensures places { places.new.items ≡ places.old.items }
    ensures room { OnOk result (IsTrue named → vec_len names.new < vec_capacity names.new) }
    ensures room_for_place { OnOk result (IsTrue named → line < vec_capacity places.new) }
{
    if !named {
        return Ok(());
    }
    names.reserve(1)?;
    places.reserve(line + 1 - places.len())
}

/// Appends a name, if there is one, and notes its place after those of all lines before this one. There is room for
/// both.
#[inline(always)]
fn keep(names: &mut Vec<Vec<u8>>, places: &mut Vec<Option<u32>>, line: usize, name: Option<Vec<u8>>)
    requires room { IsSome name → vec_len names.old < vec_capacity names.old }
    requires room_for_place { IsSome name → line < vec_capacity places.old }
    requires few { length names.old.items < MAX_VERTICES }
    requires few_places { length places.old.items ≤ line }
    ensures names { names.new.items ≡ names.old.items ++ option_to_list name }
    ensures same { (v : ℕ) → v < line → place_at places.new.items v ≡ place_at places.old.items v }
    ensures place { place_at places.new.items line ≡ option_map (λ _. length names.old.items) name }
    ensures few_places { length places.new.items ≤ line + 1 }
{
    if let Some(name) = name {
        let place = names.len() as u32;
        names.push(name).unwrap();
        places.resize(line, None).unwrap();
        places.push(Some(place)).unwrap();
    }
}
