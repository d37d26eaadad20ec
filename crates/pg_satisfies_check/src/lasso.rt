//! The check of a lasso: whether every run of a circuit under a lasso of inputs satisfies a formula.

ghost use Rattle.std.specs.Prelude.{◌≡◌, ℕ, ◌+◌, ◌<◌, List, false, true, length, slice_index_or, IfOk};
ghost use Rattle.std.specs.Bool.{OnTrue};
ghost use Rattle.pg_aiger.specs.Circuits.{Circuit};
ghost use Rattle.pg_aiger.specs.Runs.{Valuation};
ghost use Rattle.pg_ltl.specs.NormalForms.{NormalForm, Holds};
ghost use Rattle.pg_ltl.specs.Mirrors.Nodes.{normal_in, normal_at, AreNormalNodes};
ghost use Rattle.pg_means_look.specs.Lassos.{lasso};
ghost use Rattle.pg_means_look.specs.Mirrors.Tables.{row_at};
ghost use Rattle.pg_means_look.specs.Mirrors.Choices.{part};
ghost use Rattle.pg_satisfies_check.specs.Satisfaction.{IsEndlessRun, IsPartOf, run_word};
ghost use Rattle.pg_satisfies_check.specs.Mirrors.Known.{known_at};
ghost use Rattle.pg_satisfies_check.specs.Mirrors.Steps.{circuit_of};
ghost use Rattle.pg_satisfies_check.specs.Mirrors.Lassos.{IsKnownOn, IsToldOn, AreToldOn, is_true, truth_on, letters_of};

use crate::cube::KnownRow;
use crate::known::known_at;
use crate::link::{are_linked, rows_on};
use crate::system::CircuitPart;
use pg_ltl::NormalNode;
use pg_means_look::holds_on;
use std::alloc::{AllocError, Global};

/// Whether each row knows the value at the place.
fn is_known_on(rows: &[KnownRow], place: usize) -> bool
    ensures { OnTrue result (IsKnownOn rows.now place) }
{
    for row in rows {
        let Some(_known) = known_at(row, place) else {
            return false;
        };
    }
    true
}

/// Whether the formula at the place is one of which each proposition is known.
fn is_marked(marks: &[bool], place: usize) -> bool
    ensures { result ≡ slice_index_or marks.now place false }
{
    marks.get(place).copied().unwrap_or(false)
}

/// Whether the formulas at both places are ones of which each proposition is known.
fn are_marked(marks: &[bool], first: usize, second: usize) -> bool
    ensures { OnTrue result ((slice_index_or marks.now first false ≡ true) × (slice_index_or marks.now second false ≡ true)) }
{
    is_marked(marks, first) && is_marked(marks, second)
}

/// Whether each row knows whether the proposition holds.
fn knows_proposition(system: &CircuitPart, rows: &[KnownRow], proposition: u32) -> bool
    ensures { OnTrue result (IsToldOn system.now rows.now proposition) }
{
    let p = proposition as usize;
    if p >= system.literals.len() {
        return false;
    }
    is_known_on(rows, system.latches.len() + p)
}

/// Whether each row knows each proposition that the formula at a place of a list has. `marks` says so of the formulas before it.
fn knows(system: &CircuitPart, node: NormalNode, marks: &[bool], rows: &[KnownRow]) -> bool
    ensures { OnTrue result ((forms : List NormalForm)
        → ((k : ℕ) → slice_index_or marks.now k false ≡ true → AreToldOn system.now rows.now (part forms k))
        → AreToldOn system.now rows.now (normal_at forms node)) }
{
    match node {
        NormalNode::Top => true,
        NormalNode::Bottom => true,
        NormalNode::Literal(p, _is) => knows_proposition(system, rows, p),
        NormalNode::Next(a) => is_marked(marks, a),
        NormalNode::Both(a, b) => are_marked(marks, a, b),
        NormalNode::Either(a, b) => are_marked(marks, a, b),
        NormalNode::Until(a, b) => are_marked(marks, a, b),
        NormalNode::Release(a, b) => are_marked(marks, a, b),
    }
}

/// Whether each row knows each proposition that the formula at the place `root` of a list has.
fn knows_each(
    alloc: Global,
    system: &CircuitPart,
    nodes: &[NormalNode],
    root: usize,
    rows: &[KnownRow],
) -> Result<bool, AllocError>
    requires { AreNormalNodes nodes.now }
    ensures { IfOk result (λ yes. OnTrue yes (AreToldOn system.now rows.now (normal_in nodes.now root))) }
{
    let mut marks = Vec::new(alloc);
    for place in 0..nodes.len() {
        let known = knows(system, nodes[place], &marks, rows);
        marks.push(known)?;
    }
    Ok(is_marked(&marks, root))
}

/// Whether the value at the place is known to be true.
fn is_true(row: &[Option<bool>], place: usize) -> bool
    ensures { result ≡ is_true (known_at row.now place) }
{
    known_at(row, place).unwrap_or(false)
}

/// Returns for each row whether the value at the place is known to be true.
fn truth(alloc: Global, rows: &[KnownRow], place: usize) -> Result<Vec<bool>, AllocError>
    ensures { IfOk result (λ list. list.items ≡ truth_on rows.now place) }
{
    let mut list = Vec::new(alloc);
    for row in rows {
        list.push(is_true(row, place))?;
    }
    Ok(list)
}

/// Returns for each proposition for each row whether it is known to hold.
fn truths(
    alloc: Global,
    system: &CircuitPart,
    rows: &[KnownRow],
) -> Result<Vec<Vec<bool>>, AllocError>
    ensures { IfOk result (λ lists. (p : ℕ) → p < length system.now.literals.items
        → row_at lists.items p ≡ truth_on rows.now (length system.now.latches.items + p)) }
{
    let mut lists = Vec::new(alloc);
    for p in 0..system.literals.len() {
        let list = truth(alloc, rows, system.latches.len() + p)?;
        lists.push(list)?;
    }
    Ok(lists)
}

/// Returns the numbers below `count`.
fn numbers(alloc: Global, count: u32) -> Result<Vec<u32>, AllocError>
    ensures long { IfOk result (λ list. length list.items ≡ count) }
    ensures same { IfOk result (λ list. (i : ℕ) → i < count → slice_index_or list.items i 0 ≡ i) }
{
    let mut list = Vec::new(alloc);
    for i in 0..count {
        list.push(i)?;
    }
    Ok(list)
}

/// Whether each endless run of a circuit under a lasso of inputs satisfies the formula at the place `root` of a list. The system is a part of
/// the circuit: some of its gates, each after those that it uses, and some of its latches. `letters` has a row for each step, with a value
/// for each of the circuit's inputs, which are `inputs`; after the last letter, those from `back` on are repeated for ever. The variables are
/// below `variables`. `true` is proved; `false` proves nothing. Fails only if an allocation fails.
pub fn shows_violated(
    alloc: Global,
    system: &CircuitPart,
    variables: usize,
    inputs: &[u32],
    nodes: &[NormalNode],
    root: usize,
    letters: &[Vec<bool>],
    back: usize,
) -> Result<bool, AllocError>
    requires { AreNormalNodes nodes.now }
    ensures { IfOk result (λ yes. OnTrue yes ((circuit : Circuit) (run : ℕ → Valuation) → IsPartOf (circuit_of system.now) circuit
        → circuit.inputs ≡ inputs.now → IsEndlessRun circuit (lasso (letters_of letters.now) back) run
        → Holds (run_word system.now.literals.items run) (normal_in nodes.now root) 0)) }
{
    let count = letters.len();
    if back >= count || count > 4_000_000_000 {
        return Ok(false);
    }
    let Some(rows) = rows_on(alloc, system, variables, inputs, letters)? else {
        return Ok(false);
    };
    if rows.len() != count {
        return Ok(false);
    }
    if !are_linked(alloc, system, variables, inputs, letters, &rows, back)? {
        return Ok(false);
    }
    if !knows_each(alloc, system, nodes, root, &rows)? {
        return Ok(false);
    }
    let truths = truths(alloc, system, &rows)?;
    let places = numbers(alloc, count as u32)?;
    holds_on(alloc, nodes, root, &truths, &places, back)
}
