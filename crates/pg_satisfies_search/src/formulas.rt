//! The parts of a formula, and those for which its tableau may ask.

ghost use Rattle.std.specs.Prelude.{◌≤◌};
ghost use Rattle.std.specs.Bool.{OnTrue};
ghost use Rattle.pg_ltl.specs.Mirrors.Nodes.{normal_reach};

use crate::bits::{Bits, LetterCube, ROOM};
use crate::budget::{SearchLimit, SearchResult, SearchStop};
use crate::machine::CircuitMachine;
use crate::numbers::{NONE, count, item, put};
use crate::trace::{located, position_in};
use indexmap::IndexSet;
use pg_ltl::NormalNode;
use std::alloc::{AllocError, Global};

/// The parts of a formula, by their positions among them. Those for which the tableau may ask have numbers, so that sets of them are bits.
#[derive(Drop)]
pub struct Formulas {
    /// The places of the parts in the list that the formula came with, in rising order. The formula itself comes last.
    places: Vec<usize>,
    /// The parts; their operands are given by positions.
    nodes: Vec<NormalNode>,
    /// For each proposition, what it says if it holds.
    literals: Vec<LetterCube>,
    /// The signals of which all literals say the same, and what they say.
    pure: LetterCube,
    /// The position of each formula that has a number.
    positions: Vec<usize>,
    /// The number of the formula at each position, or `NONE`.
    numbers: Vec<u32>,
    /// The signals on which the choices of the formula at each position depend.
    now: Vec<Bits>,
    /// For each number, the formulas that this one implies.
    implied: Vec<Bits>,
}

/// Returns the operands of a part.
fn operands(node: NormalNode) -> [Option<usize>; 2] {
    match node {
        NormalNode::Top | NormalNode::Bottom | NormalNode::Literal(_, _) => [None, None],
        NormalNode::Next(a) => [Some(a), None],
        NormalNode::Both(a, b)
        | NormalNode::Either(a, b)
        | NormalNode::Until(a, b)
        | NormalNode::Release(a, b) => [Some(a), Some(b)],
    }
}

/// Whether all operands of a part come before a position.
fn is_made_below(node: NormalNode, position: usize) -> bool
    ensures { OnTrue result (normal_reach node ≤ position) }
{
    match node {
        NormalNode::Top | NormalNode::Bottom | NormalNode::Literal(_, _) => true,
        NormalNode::Next(a) => a < position,
        NormalNode::Both(a, b) => a < position && b < position,
        NormalNode::Either(a, b) => a < position && b < position,
        NormalNode::Until(a, b) => a < position && b < position,
        NormalNode::Release(a, b) => a < position && b < position,
    }
}

/// Returns the formula at a place of a list.
pub fn node_at(nodes: &[NormalNode], place: usize) -> NormalNode {
    nodes.get(place).copied().unwrap_or(NormalNode::Bottom)
}

/// Returns the formula at a place of a list, or the true formula if the place is left out.
fn node_without(nodes: &[NormalNode], place: usize, left_out: &[usize]) -> NormalNode {
    if left_out.binary_search(&place).is_ok() {
        return NormalNode::Top;
    }
    node_at(nodes, place)
}

/// Returns the propositions of the formula at the place `root`, in rising order, where these parts are left out.
pub fn propositions_of(
    alloc: Global,
    nodes: &[NormalNode],
    root: usize,
    left_out: &[usize],
) -> Result<Vec<u32>, AllocError> {
    let mut found = Vec::new(alloc);
    for place in &parts_of(alloc, nodes, root, left_out)? {
        if let NormalNode::Literal(p, _) = node_without(nodes, *place, left_out) {
            found.push(p)?;
        }
    }
    found.sort_unstable();
    found.dedup();
    Ok(found)
}

/// Returns the places of the parts of the formula at the place `root`, in rising order, where those in a rising list are left out: they
/// count as true.
pub fn parts_of(
    alloc: Global,
    nodes: &[NormalNode],
    root: usize,
    left_out: &[usize],
) -> Result<Vec<usize>, AllocError> {
    let mut met = IndexSet::new(alloc);
    let _ = met.insert_full(root)?;
    for turn in 0..nodes.len() {
        let Some(place) = met.get_index(turn).copied() else {
            break;
        };
        for operand in operands(node_without(nodes, place, left_out)) {
            if let Some(below) = operand {
                let _ = met.insert_full(below)?;
            }
        }
    }
    let mut parts = Vec::from_slice(alloc, met.as_slice())?;
    parts.sort_unstable();
    Ok(parts)
}

impl Formulas {
    /// Looks at the parts of the formula at the place `root` of a list, where those in a rising list of places are left out. Fails if the
    /// tableau may ask for more than 256 of them.
    pub fn new(
        alloc: Global,
        machine: &CircuitMachine,
        nodes: &[NormalNode],
        root: usize,
        left_out: &[usize],
    ) -> SearchResult<Formulas> {
        let places = parts_of(alloc, nodes, root, left_out)?;
        let mut formulas = Formulas {
            nodes: Vec::with_capacity(alloc, places.len())?,
            literals: Vec::with_capacity(alloc, machine.system.literals.len())?,
            pure: LetterCube::FREE,
            positions: Vec::new(alloc),
            numbers: vec![in alloc; NONE; places.len()]?,
            now: Vec::with_capacity(alloc, places.len())?,
            implied: Vec::new(alloc),
            places,
        };
        for literal in &machine.system.literals {
            formulas
                .literals
                .push(machine.signals.cube(*literal, true))?;
        }
        formulas.read(nodes, left_out)?;
        formulas.pure = formulas.unopposed();
        let whole = formulas.root();
        formulas.number(whole)?;
        for position in 0..formulas.nodes.len() {
            match formulas.node(position) {
                NormalNode::Next(a) => formulas.number(a)?,
                NormalNode::Until(_, _) | NormalNode::Release(_, _) => formulas.number(position)?,
                _ => {}
            }
        }
        formulas.compare(alloc)?;
        Ok(formulas)
    }

    /// Notes the parts, and the signals on which their choices depend.
    fn read(&mut self, nodes: &[NormalNode], left_out: &[usize]) -> Result<(), AllocError> {
        for position in 0..self.places.len() {
            let node = node_without(nodes, self.places[position], left_out);
            let node = located(&self.places, node);
            let now = self.signals_of(node);
            self.nodes.push(node)?;
            self.now.push(now)?;
        }
        Ok(())
    }

    /// Returns the position of the part at a place of the list that the formula came with, or `usize::MAX` if there is none.
    pub fn position(&self, place: usize) -> usize {
        position_in(&self.places, place)
    }

    /// Returns the position of the whole formula.
    pub fn root(&self) -> usize {
        self.places.len().saturating_sub(1)
    }

    /// Gives a number to the formula at a position, if it has none. The true formula needs none, since nobody has to ask for it.
    fn number(&mut self, position: usize) -> SearchResult<()> {
        if self.bits(position) != Bits::EMPTY || self.node(position) == NormalNode::Top {
            return Ok(());
        }
        let number = count(self.positions.len());
        if number >= ROOM {
            return Err(SearchStop::GivenUp(SearchLimit::Formulas));
        }
        self.positions.push(position)?;
        put(&mut self.numbers, count(position), number);
        Ok(())
    }

    /// Returns the formula at a position.
    fn node(&self, position: usize) -> NormalNode {
        node_at(&self.nodes, position)
    }

    /// Returns the formula at a position, if its operands come before it.
    pub fn node_below(&self, position: usize) -> NormalNode
        ensures { normal_reach result ≤ position }
    {
        let node = self.node(position);
        if is_made_below(node, position) {
            node
        } else {
            NormalNode::Bottom
        }
    }

    /// Returns the signals on which the choices of a part depend.
    fn signals_of(&self, node: NormalNode) -> Bits {
        match node {
            NormalNode::Literal(p, _) => item(&self.literals, p, LetterCube::FREE).known,
            NormalNode::Both(a, b)
            | NormalNode::Either(a, b)
            | NormalNode::Until(a, b)
            | NormalNode::Release(a, b) => self.now(a).or(self.now(b)),
            _ => Bits::EMPTY,
        }
    }

    /// Returns the signals on which the choices of the formula at a position depend.
    pub fn now(&self, position: usize) -> Bits {
        item(&self.now, count(position), Bits::EMPTY)
    }

    /// Returns what a proposition says if it has this value.
    pub fn literal(&self, proposition: u32, value: bool) -> LetterCube {
        let cube = item(&self.literals, proposition, LetterCube::FREE);
        if value {
            return cube;
        }
        LetterCube {
            known: cube.known,
            on: cube.known.without(cube.on),
        }
    }

    /// Returns the signals of which all literals say the same, and what they say.
    fn unopposed(&self) -> LetterCube {
        let mut on = Bits::EMPTY;
        let mut off = Bits::EMPTY;
        for node in &self.nodes {
            if let NormalNode::Literal(p, value) = *node {
                let says = self.literal(p, value);
                on = on.or(says.on);
                off = off.or(says.known.without(says.on));
            }
        }
        LetterCube {
            known: on.or(off).without(on.and(off)),
            on: on.without(off),
        }
    }

    /// Whether no literal says the contrary. Where nothing is known of its signal, such a literal costs nothing.
    pub fn is_pure(&self, says: LetterCube) -> bool {
        says.is_within(self.pure)
    }

    /// Returns the set that asks for the formula at a position.
    #[inline(always)]
    pub fn bits(&self, position: usize) -> Bits {
        Bits::one(item(&self.numbers, count(position), NONE))
    }

    /// Notes which formulas with a number imply which others.
    fn compare(&mut self, alloc: Global) -> Result<(), AllocError> {
        for number in 0..self.positions.len() {
            let position = self.positions[number];
            let mut implied = self.joined(alloc, position)?;
            for other in &self.positions {
                let is_weaker = match self.node(*other) {
                    NormalNode::Until(_, b) => b == position,
                    NormalNode::Either(a, b) => a == position || b == position,
                    _ => false,
                };
                if is_weaker {
                    implied = implied.or(self.bits(*other));
                }
            }
            self.implied.push(implied)?;
        }
        Ok(())
    }

    /// Returns the formulas whose conjunction the formula at a position is, or for which it asks in each step on.
    fn joined(&self, alloc: Global, position: usize) -> Result<Bits, AllocError> {
        let mut open = vec![in alloc; position; 1]?;
        if let NormalNode::Release(_, b) = self.node(position) {
            open.push(b)?;
        }
        let mut joined = Bits::EMPTY;
        for _ in 0..self.nodes.len() {
            let Some(part) = open.pop() else {
                break;
            };
            joined = joined.or(self.bits(part));
            if let NormalNode::Both(a, b) = self.node(part) {
                open.push(a)?;
                open.push(b)?;
            }
        }
        Ok(joined.without(self.bits(position)))
    }

    /// Returns a set without the formulas that others of the set imply.
    pub fn least(&self, set: Bits) -> Bits {
        let mut implied = Bits::EMPTY;
        let mut rest = set;
        for _ in 0..ROOM {
            let Some(number) = rest.take() else {
                break;
            };
            implied = implied.or(item(&self.implied, number, Bits::EMPTY));
        }
        set.without(implied)
    }

    /// Returns the signals on which the choices of a set depend.
    pub fn signals(&self, set: Bits) -> Bits {
        let mut signals = Bits::EMPTY;
        let mut rest = set;
        for _ in 0..ROOM {
            let Some(number) = rest.take() else {
                break;
            };
            signals = signals.or(self.now(self.asked(number)));
        }
        signals
    }

    /// Takes formulas apart that are conjunctions, now or in each step from now on. Returns what they ask for in any case, and the
    /// positions of the parts.
    pub fn taken_apart(&self, alloc: Global, set: Bits) -> Result<(Bits, Vec<usize>), AllocError> {
        let mut asks = Bits::EMPTY;
        let mut parts = Vec::new(alloc);
        let mut open = Vec::new(alloc);
        let mut rest = set;
        for _ in 0..ROOM {
            let Some(number) = rest.take() else {
                break;
            };
            open.push(self.asked(number))?;
        }
        for _ in 0..u32::MAX {
            let Some(position) = open.pop() else {
                break;
            };
            match self.node_below(position) {
                NormalNode::Both(a, b) => {
                    open.push(b)?;
                    open.push(a)?;
                }
                NormalNode::Release(a, b) if self.node(a) == NormalNode::Bottom => {
                    asks = asks.or(self.bits(position));
                    open.push(b)?;
                }
                _ => parts.push(position)?,
            }
        }
        Ok((asks, parts))
    }

    /// Returns the position of the formula with a number.
    pub fn asked(&self, number: u32) -> usize {
        item(&self.positions, number, usize::MAX)
    }

    /// Returns the place of the formula with a number in the list that the whole formula came with.
    pub fn place(&self, number: u32) -> usize {
        item(&self.places, count(self.asked(number)), usize::MAX)
    }

    /// Returns the places of the formulas of a set.
    pub fn places_of(&self, alloc: Global, set: Bits) -> Result<Vec<usize>, AllocError> {
        let mut places = Vec::new(alloc);
        let mut rest = set;
        for _ in 0..ROOM {
            let Some(number) = rest.take() else {
                break;
            };
            places.push(self.place(number))?;
        }
        Ok(places)
    }
}
