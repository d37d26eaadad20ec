//! Which vertices may be lifted next: those that lead to a vertex that rose. Nothing is promised of it.

use crate::predecessors::Predecessors;
use pg_arena::{Player, Vertex};
use pg_map::{Lines, MeasureMap};
use pg_measure::Bounds;
use std::alloc::{AllocError, Global};
use std::mem;

/// How often a vertex is lifted in a generation before it has to wait for the next one.
const LIFTS: u32 = 16;

/// What the queue keeps about a vertex.
#[derive(Clone, Copy)]
struct Note {
    waits: bool,
    /// The position among its successors at which the last search for one that serves it stopped.
    stop: u32,
    /// The last generation in which it was lifted, and how often.
    generation: u32,
    lifts: u32,
}

/// Vertices that wait to be looked at, each once: those of this generation, of which the last comes first, and those of the next
/// generation, which were lifted often in this one. So a lift is followed by the lifts that it leads to, and no cycle keeps the
/// others waiting.
#[derive(Drop)]
pub(crate) struct Queue {
    notes: Vec<Note>,
    stack: Stack,
    next: Stack,
    generation: u32,
}

/// A stack whose memory is taken when it is made.
#[derive(Drop)]
struct Stack {
    places: Vec<u32>,
    count: usize,
}

impl Stack {
    fn new(alloc: Global, room: u32) -> Result<Stack, AllocError> {
        Ok(Stack {
            places: vec![in alloc; 0; room as usize]?,
            count: 0,
        })
    }

    fn push(&mut self, v: Vertex) {
        if let Some(place) = self.places.get_mut(self.count) {
            *place = v.0;
            self.count = self.count.wrapping_add(1);
        }
    }

    fn pop(&mut self) -> Option<Vertex> {
        let count = self.count.checked_sub(1)?;
        self.count = count;
        let number = self.places.get(count).copied()?;
        Some(Vertex(number))
    }
}

/// Whether a vertex is held, and served by another one.
fn serves<G: Lines>(map: &MeasureMap, lines: &G, v: Vertex, w: Vertex) -> bool {
    v.0 < map.len() && w.0 < map.len() && lines.holds(v) && map.serves(lines, v, w)
}

/// Whether no odd priority is greater than this one, which is odd too.
fn is_greatest(bounds: &Bounds, priority: u32) -> bool {
    bounds
        .pairs()
        .first()
        .is_some_and(|bound| bound.0 == priority)
}

impl Queue {
    /// Makes a queue for vertices below `count`, in which none waits.
    pub fn new(alloc: Global, count: u32) -> Result<Queue, AllocError> {
        let note = Note {
            waits: false,
            stop: 0,
            generation: 0,
            lifts: 0,
        };
        Ok(Queue {
            notes: vec![in alloc; note; count as usize]?,
            stack: Stack::new(alloc, count)?,
            next: Stack::new(alloc, count)?,
            generation: 0,
        })
    }

    /// Lets a vertex wait, if it doesn't wait yet.
    pub fn add(&mut self, v: Vertex) {
        let Some(note) = self.notes.get_mut(v.0 as usize) else {
            return;
        };
        if note.waits {
            return;
        }
        note.waits = true;
        if note.generation == self.generation && note.lifts >= LIFTS {
            self.next.push(v);
        } else {
            self.stack.push(v);
        }
    }

    /// Whether a vertex waits.
    fn waits(&self, v: Vertex) -> bool {
        match self.notes.get(v.0 as usize) {
            Some(note) => note.waits,
            None => false,
        }
    }

    /// Defers a vertex that is added in this generation to the next one.
    fn defer(&mut self, v: Vertex) {
        let generation = self.generation;
        if let Some(note) = self.notes.get_mut(v.0 as usize) {
            note.generation = generation;
            note.lifts = LIFTS;
        }
    }

    /// Lets a new vertex wait: for the next generation, unless its priority is the greatest odd one. Those of that priority climb
    /// farthest, and come first.
    pub(crate) fn begin<G: Lines>(&mut self, map: &MeasureMap, lines: &G, v: Vertex) {
        if !lines.holds(v) {
            return;
        }
        if !is_greatest(map.bounds(), lines.priority(v)) {
            self.defer(v);
        }
        self.add(v);
    }

    /// Takes the last vertex of this generation. If none is left, the next generation begins, and its last vertex is taken.
    fn pop(&mut self) -> Option<Vertex> {
        if self.stack.count == 0 {
            mem::swap(&mut self.stack, &mut self.next);
            self.generation = self.generation.wrapping_add(1);
        }
        let v = self.stack.pop()?;
        if let Some(note) = self.notes.get_mut(v.0 as usize) {
            note.waits = false;
        }
        Some(v)
    }

    /// Counts a lift of a vertex.
    fn count(&mut self, v: Vertex) {
        let generation = self.generation;
        if let Some(note) = self.notes.get_mut(v.0 as usize) {
            note.lifts = if note.generation == generation {
                note.lifts.saturating_add(1)
            } else {
                1
            };
            note.generation = generation;
        }
    }

    /// Returns the position among the successors of a vertex at which the last search stopped.
    fn stop(&self, v: Vertex) -> usize {
        match self.notes.get(v.0 as usize) {
            Some(note) => note.stop as usize,
            None => 0,
        }
    }

    /// Whether a vertex of Even is found to be served by one of its successors. The search begins where the last one stopped:
    /// measures only rise, so a successor that was passed over won't serve the vertex before the vertex rises itself.
    fn is_served<G: Lines>(&mut self, map: &MeasureMap, lines: &G, v: Vertex) -> bool {
        if v.0 >= map.len() || !lines.holds(v) || lines.owner(v) == Player::Odd {
            return false;
        }
        let successors = lines.successors(v);
        let mut place = self.stop(v);
        for _ in 0..successors.len() {
            let Some(w) = successors.get(place).copied() else {
                place = 0;
                continue;
            };
            if serves(map, lines, v, w) {
                if let Some(note) = self.notes.get_mut(v.0 as usize) {
                    note.stop = u32::try_from(place).unwrap_or(0);
                }
                return true;
            }
            place = place.wrapping_add(1);
        }
        false
    }

    /// Returns the next vertex that may be lifted.
    pub(crate) fn next<G: Lines>(&mut self, map: &MeasureMap, lines: &G) -> Option<Vertex> {
        for _ in 0..u64::MAX {
            let v = self.pop()?;
            if !self.is_served(map, lines, v) {
                return Some(v);
            }
        }
        None
    }

    /// Lets a vertex wait if its successor, which rose, no longer serves it. If Even owns the vertex, it waits only if the
    /// successor at which the last search stopped doesn't serve it either.
    fn follow<G: Lines>(&mut self, map: &MeasureMap, lines: &G, v: Vertex, risen: Vertex) {
        if self.waits(v) || !lines.holds(v) || serves(map, lines, v, risen) {
            return;
        }
        let last = lines.successors(v).get(self.stop(v)).copied();
        let is_served = match last {
            Some(w) => lines.owner(v) == Player::Even && serves(map, lines, v, w),
            None => false,
        };
        if !is_served {
            self.add(v);
        }
    }

    /// Lets the vertices wait that a vertex, which rose, no longer serves. If the vertex leads to itself, it is added last and so
    /// comes first in the queue: it should climb before others follow it.
    pub(crate) fn rise<G: Lines>(
        &mut self,
        map: &MeasureMap,
        lines: &G,
        predecessors: &Predecessors,
        x: Vertex,
    ) {
        self.count(x);
        let mut follows_itself = false;
        for u in predecessors.of(x) {
            if *u == x {
                follows_itself = true;
            } else {
                self.follow(map, lines, *u, x);
            }
        }
        if follows_itself {
            self.follow(map, lines, x, x);
        }
    }
}
