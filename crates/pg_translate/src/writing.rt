//! Automata as text in HOA v1.

use crate::automaton::{MarkedAutomaton, MarkedEdge};
use crate::fault::Attempt;
use crate::numbers::{NONE, between, count, has_bit, item, power};
use pg_search_components::NumberedLists;
use std::alloc::Global;

/// Letters with the same edge: the propositions that are named, and which of these hold, as bits.
#[derive(Clone, Copy)]
struct Cube {
    said: u32,
    holding: u32,
}

/// A cube, the place at which the edges of its letters begin, and how many propositions aren't split yet.
#[derive(Clone, Copy)]
struct CubePart {
    cube: Cube,
    from: u32,
    propositions: u32,
}

/// The text that is written.
#[derive(Drop)]
struct Writer {
    alloc: Global,
    text: Vec<u8>,
}

impl Writer {
    fn word(&mut self, word: &[u8]) -> Attempt<()> {
        self.text.extend_from_slice(word)?;
        Ok(())
    }

    fn number(&mut self, number: u32) -> Attempt<()> {
        let digits = format!(in self.alloc; "{number}")?;
        self.word(digits.as_bytes())
    }

    /// Writes a name in quotes, with quotes and backslashes escaped.
    fn quoted(&mut self, name: &[u8]) -> Attempt<()> {
        self.word(b"\"")?;
        for byte in name {
            if *byte == b'"' || *byte == b'\\' {
                self.word(b"\\")?;
            }
            self.word(&[*byte])?;
        }
        self.word(b"\"")
    }

    /// Writes the condition that the greatest set that recurs is even.
    fn condition(&mut self, sets: u32) -> Attempt<()> {
        for set in (1..sets).rev() {
            self.word(if set % 2 == 0 { b"Inf(" } else { b"Fin(" })?;
            self.number(set)?;
            self.word(if set % 2 == 0 { b") | (" } else { b") & (" })?;
        }
        self.word(b"Inf(0)")?;
        for _ in 1..sets {
            self.word(b")")?;
        }
        Ok(())
    }

    fn head(&mut self, states: u32, names: &[Vec<u8>], sets: u32) -> Attempt<()> {
        self.word(b"HOA: v1\nStates: ")?;
        self.number(states)?;
        self.word(b"\nStart: 0\nAP: ")?;
        self.number(count(names.len()))?;
        for name in names {
            self.word(b" ")?;
            self.quoted(name)?;
        }
        self.word(b"\nacc-name: parity max even ")?;
        self.number(sets)?;
        self.word(b"\nAcceptance: ")?;
        self.number(sets)?;
        self.word(b" ")?;
        self.condition(sets)?;
        self.word(
            b"\nproperties: trans-labels explicit-labels trans-acc colored deterministic\n--BODY--\n",
        )
    }

    fn begin_state(&mut self, number: u32) -> Attempt<()> {
        self.word(b"State: ")?;
        self.number(number)?;
        self.word(b"\n")
    }

    fn cube(&mut self, cube: Cube) -> Attempt<()> {
        if cube.said == 0 {
            return self.word(b"t");
        }
        let mut is_first = true;
        for proposition in 0..32 {
            if !has_bit(cube.said, proposition) {
                continue;
            }
            if !is_first {
                self.word(b"&")?;
            }
            is_first = false;
            if !has_bit(cube.holding, proposition) {
                self.word(b"!")?;
            }
            self.number(proposition)?;
        }
        Ok(())
    }

    /// Writes an edge, labelled with the cubes that have its number.
    fn edge(&mut self, cubes: &[(u32, Cube)], number: u32, edge: &[u32]) -> Attempt<()> {
        let mut is_first = true;
        for (other, cube) in cubes {
            if *other == number {
                self.word(if is_first { b"[" } else { b" | " })?;
                is_first = false;
                self.cube(*cube)?;
            }
        }
        if let [target, priority] = edge {
            self.word(b"] ")?;
            self.number(*target)?;
            self.word(b" {")?;
            self.number(*priority)?;
            self.word(b"}\n")?;
        }
        Ok(())
    }
}

/// Returns the cubes of the edges of a state, with the numbers of these edges. The edges are given letter by letter.
fn cubes(
    alloc: Global,
    row: &[MarkedEdge],
    propositions: u32,
    edges: &mut NumberedLists<u32>,
) -> Attempt<Vec<(u32, Cube)>> {
    let mut found = Vec::new(alloc);
    let whole = CubePart {
        cube: Cube {
            said: 0,
            holding: 0,
        },
        from: 0,
        propositions,
    };
    let mut parts = vec![in alloc; whole; 1]?;
    for _ in 0..u64::MAX {
        let Some(part) = parts.pop() else {
            break;
        };
        let end = part.from.saturating_add(power(part.propositions));
        let first = item(row, part.from, MarkedEdge::NONE);
        if part.propositions == 0
            || between(row, part.from, end)
                .iter()
                .all(|edge| *edge == first)
        {
            let number = edges.number(&[first.target, first.mark])?;
            found.push((number, part.cube))?;
            continue;
        }
        let bit = power(part.propositions.wrapping_sub(1));
        let middle = part.from.saturating_add(bit);
        let mut low = part;
        low.propositions = part.propositions.wrapping_sub(1);
        if between(row, part.from, middle) != between(row, middle, end) {
            low.cube.said |= bit;
            let mut high = low;
            high.cube.holding |= bit;
            high.from = middle;
            parts.push(high)?;
        }
        parts.push(low)?;
    }
    Ok(found)
}

/// Returns the text of an automaton. A state that leads only to itself and rejects is left out, if it isn't the first one.
pub fn text_of(automaton: &MarkedAutomaton, names: &[Vec<u8>]) -> Attempt<Vec<u8>> {
    let alloc = automaton.alloc;
    let mut sink = NONE;
    for state in 1..automaton.len() {
        if automaton.is_sink(state, false) {
            sink = state;
        }
    }
    let states = automaton.len().saturating_sub((sink != NONE) as u32);
    let mut writer = Writer {
        alloc,
        text: Vec::new(alloc),
    };
    let sets = automaton.greatest_priority().saturating_add(1);
    writer.head(states, names, sets)?;
    for state in 0..automaton.len() {
        if state != sink {
            write_state(&mut writer, automaton, state, sink, count(names.len()))?;
        }
    }
    writer.word(b"--END--\n")?;
    Ok(writer.text)
}

/// Returns the number of a state in the text.
fn number_in_text(state: u32, sink: u32) -> u32 {
    if state > sink { state - 1 } else { state }
}

/// Writes a state and its edges, except those to the state that is left out.
fn write_state(
    writer: &mut Writer,
    automaton: &MarkedAutomaton,
    state: u32,
    sink: u32,
    propositions: u32,
) -> Attempt<()> {
    writer.begin_state(number_in_text(state, sink))?;
    let row = row_of(automaton, state)?;
    let mut edges = NumberedLists::new(automaton.alloc);
    let cubes = cubes(automaton.alloc, &row, propositions, &mut edges)?;
    for number in 0..edges.len() {
        let [target, priority] = *edges.list(number) else {
            break;
        };
        if target != sink {
            writer.edge(&cubes, number, &[number_in_text(target, sink), priority])?;
        }
    }
    Ok(())
}

/// Returns the edges of a state, letter by letter.
fn row_of(automaton: &MarkedAutomaton, state: u32) -> Attempt<Vec<MarkedEdge>> {
    let mut row = Vec::new(automaton.alloc);
    for letter in 0..automaton.classes.letters() {
        row.push(automaton.step(state, letter))?;
    }
    Ok(row)
}
