//! The check of a certificate: whether it shows that no run of a circuit satisfies a formula.

ghost use Rattle.std.specs.Prelude.{◌≡◌, ℕ, ◌<◌, ◌≤◌, List, [], All, IfOk, length, false};
ghost use Rattle.std.specs.Bool.{OnTrue};
ghost use Rattle.std.specs.declared.vec.Vec.{Vec};
ghost use Rattle.std.specs.declared.alloc.Global.{Global};
ghost use Rattle.pg_aiger.specs.Circuits.{Circuit};
ghost use Rattle.pg_ltl.specs.NormalForms.{NormalForm};
ghost use Rattle.pg_ltl.specs.Tableaux.{Each};
ghost use Rattle.pg_ltl.specs.Mirrors.Nodes.{normal_in, AreNormalNodes};
ghost use Rattle.pg_means_look.specs.Mirrors.Tables.{row_at};
ghost use Rattle.pg_means_look.specs.Mirrors.Choices.{AreForms};
ghost use Rattle.pg_satisfies_check.specs.declared.system.Bit.{Bit};
ghost use Rattle.pg_satisfies_check.specs.Satisfaction.{IsUnsatisfied, IsPartOf};
ghost use Rattle.pg_satisfies_check.specs.Mirrors.Steps.{circuit_of};
ghost use Rattle.pg_satisfies_check.specs.Mirrors.Views.{bits_at, Covers, CoversEach, GoesFrom};
ghost use Rattle.pg_satisfies_check.specs.Mirrors.Branches.{IsCovered, Splits};

use crate::branch::{BranchPieces, TableauBranch, copied, copied_row, left_out, put, take_apart};
use crate::certificate::EmptinessCertificate;
use crate::cube::KnownRow;
use crate::known::are_next;
use crate::places::{behind_first, is_within};
use crate::steps::CubeSteps;
use crate::system::Bit;
use pg_ltl::NormalNode;
use std::alloc::{AllocError, Global};

/// Makes proposals on the way. Whatever it proposes, the check's yes is right. A row has what is known of the value of the next literal of
/// each latch, and then of the value of each proposition's literal.
pub trait Guide {
    /// Whether to leave out the formula at the place, since it asks for nothing if what is known is so.
    fn leaves_out(&self, row: &[Option<bool>], place: usize) -> bool;

    /// Returns the number of a node that stands for the next step and asks for no more than `asks`, to which an edge from the node `v` that
    /// puts off `puts` can go.
    fn find(&self, v: usize, row: &[Option<bool>], asks: &[usize], puts: &[usize]) -> usize;
}

/// Returns the values of the latches in the cube with this number; past the last one, none.
fn bits_at(steps: &CubeSteps, number: usize) -> &[Bit]
    ensures { result.now ≡ bits_at steps.now.cubes.items number }
{
    match steps.cubes.get(number) {
        Some(cube) => cube.bits.as_slice(),
        None => &[],
    }
}

/// Whether what is known is enough for an edge from `v` to the node `to`.
fn lands(
    steps: &CubeSteps,
    certificate: &EmptinessCertificate,
    v: usize,
    to: usize,
    row: &[Option<bool>],
    asks: &[usize],
    puts: &[usize],
) -> bool
    ensures { OnTrue result ((forms : List NormalForm) → Covers steps.now certificate.now forms v row.now [] asks.now puts.now) }
{
    if to >= certificate.places.len() {
        return false;
    }
    let bits = bits_at(steps, certificate.place(to));
    if !are_next(row, steps.system.latches.len(), bits) {
        return false;
    }
    if !is_within(certificate.asks(to), asks) {
        return false;
    }
    certificate.is_fine(v, puts, to)
}

/// Takes one step from a branch of the node `v`.
fn step<G: Guide>(
    alloc: Global,
    steps: &CubeSteps,
    nodes: &[NormalNode],
    certificate: &EmptinessCertificate,
    guide: &G,
    v: usize,
    branch: TableauBranch,
) -> Result<BranchPieces, AllocError>
    ensures { IfOk result (λ p. (forms : List NormalForm) → AreForms nodes.now forms
        → Splits steps.now certificate.now forms v branch.row.items branch.todo.items branch.asks.items branch.puts.items p) }
{
    if branch.todo.is_empty() {
        let to = guide.find(v, &branch.row, &branch.asks, &branch.puts);
        if !lands(
            steps,
            certificate,
            v,
            to,
            &branch.row,
            &branch.asks,
            &branch.puts,
        ) {
            return Ok(BranchPieces::Stuck);
        }
        return Ok(BranchPieces::Done);
    }
    let place = branch.todo[0];
    if place >= nodes.len() {
        return Ok(BranchPieces::Stuck);
    }
    let rest = behind_first(alloc, &branch.todo)?;
    if guide.leaves_out(&branch.row, place) {
        return Ok(left_out(rest, branch.row, branch.asks, branch.puts));
    }
    take_apart(
        alloc,
        steps,
        nodes[place],
        place,
        rest,
        branch.row,
        branch.asks,
        branch.puts,
    )
}

/// Whether the branch of the node `v` is covered. Takes at most `fuel` steps.
fn covers<G: Guide>(
    alloc: Global,
    steps: &CubeSteps,
    nodes: &[NormalNode],
    certificate: &EmptinessCertificate,
    guide: &G,
    fuel: u32,
    v: usize,
    branch: TableauBranch,
) -> Result<bool, AllocError>
    ensures { IfOk result (λ yes. OnTrue yes ((forms : List NormalForm) → AreForms nodes.now forms
        → IsCovered steps.now certificate.now forms v branch)) }
{
    let mut stack = Vec::new(alloc);
    stack.push(branch)?;
    for _step in 0..fuel {
        let Some(next) = stack.pop() else {
            return Ok(true);
        };
        let pieces = step(alloc, steps, nodes, certificate, guide, v, next)?;
        if !put(&mut stack, pieces)? {
            return Ok(false);
        }
    }
    Ok(false)
}

/// Whether each choice at each step of which one of the rows is right goes from the node `v` to some node.
fn covers_each<G: Guide>(
    alloc: Global,
    steps: &CubeSteps,
    nodes: &[NormalNode],
    certificate: &EmptinessCertificate,
    guide: &G,
    fuel: u32,
    v: usize,
    rows: &[KnownRow],
) -> Result<bool, AllocError>
    ensures { IfOk result (λ yes. OnTrue yes ((forms : List NormalForm) → AreForms nodes.now forms
        → CoversEach steps.now certificate.now forms v rows.now)) }
{
    for row in rows {
        let branch = TableauBranch {
            row: copied_row(alloc, row)?,
            todo: copied(alloc, certificate.asks(v))?,
            asks: Vec::new(alloc),
            puts: Vec::new(alloc),
        };
        if !covers(alloc, steps, nodes, certificate, guide, fuel, v, branch)? {
            return Ok(false);
        }
    }
    Ok(true)
}

/// Whether each choice at each step that the node `v` stands for goes to some node.
fn goes_from<G: Guide>(
    alloc: Global,
    steps: &CubeSteps,
    nodes: &[NormalNode],
    certificate: &EmptinessCertificate,
    guide: &G,
    fuel: u32,
    v: usize,
) -> Result<bool, AllocError>
    ensures { IfOk result (λ yes. OnTrue yes ((forms : List NormalForm) → AreForms nodes.now forms → GoesFrom steps.now certificate.now forms v)) }
{
    let number = certificate.place(v);
    if number >= steps.cubes.len() {
        return Ok(false);
    }
    let rows = &steps.cubes[number].rows;
    covers_each(alloc, steps, nodes, certificate, guide, fuel, v, rows)
}

/// Whether all these values are 0.
fn are_off(bits: &[Bit]) -> bool
    ensures { OnTrue result (Each (λ (b : Bit). b.value ≡ false) bits.now) }
{
    for bit in bits {
        if bit.value {
            return false;
        }
    }
    true
}

/// Whether the certificate shows that no endless run of a circuit satisfies the formula at the place `root` of a list. The system is a part
/// of the circuit: some of its gates and latches. For each node and each row of its cube it takes at most `fuel` steps. `true` is proved;
/// with `false` there may be such a run or not. Fails only if an allocation fails.
pub fn shows_empty<G: Guide>(
    alloc: Global,
    steps: &CubeSteps,
    nodes: &[NormalNode],
    root: usize,
    certificate: &EmptinessCertificate,
    guide: &G,
    fuel: u32,
) -> Result<bool, AllocError>
    requires { AreNormalNodes nodes.now }
    ensures { IfOk result (λ yes. OnTrue yes ((circuit : Circuit) → IsPartOf (circuit_of steps.now.system) circuit
        → IsUnsatisfied circuit steps.now.system.literals.items (normal_in nodes.now root))) }
{
    let count = certificate.places.len();
    if count == 0 || !are_off(bits_at(steps, certificate.place(0))) {
        return Ok(false);
    }
    if !is_within(certificate.asks(0), &[root]) {
        return Ok(false);
    }
    for v in 0..count {
        if !goes_from(alloc, steps, nodes, certificate, guide, fuel, v)? {
            return Ok(false);
        }
    }
    Ok(true)
}
