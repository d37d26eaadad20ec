//! One step of the check: what is left of a branch after its next formula is taken apart.

ghost use Rattle.std.specs.Prelude.{◌≡◌, ℕ, List, ◌∷◌, IfOk};
ghost use Rattle.std.specs.Bool.{OnTrue};
ghost use Rattle.pg_ltl.specs.NormalForms.{NormalForm};
ghost use Rattle.pg_ltl.specs.Mirrors.Nodes.{normal_at};
ghost use Rattle.pg_means_look.specs.Mirrors.Choices.{part};
ghost use Rattle.pg_satisfies_check.specs.declared.certificate.EmptinessCertificate as proposed;
ghost use Rattle.pg_satisfies_check.specs.declared.steps.CubeSteps.{CubeSteps};
ghost use Rattle.pg_satisfies_check.specs.Mirrors.Views.{literal_form};
ghost use Rattle.pg_satisfies_check.specs.Mirrors.Branches.{Splits, AreTwo, HasPut};

use crate::cube::KnownRow;
use crate::known::note_at;
use crate::places::in_front;
use crate::steps::CubeSteps;
use pg_ltl::NormalNode;
use std::alloc::{AllocError, Global};

/// CubeSteps in which these values are known; the formulas that are still to be taken apart; and what is asked for from the next step on and
/// put off already.
#[derive(Debug, Drop)]
pub struct TableauBranch {
    pub row: KnownRow,
    pub todo: Vec<usize>,
    pub asks: Vec<usize>,
    pub puts: Vec<usize>,
}

/// What is left of a branch.
#[derive(Debug, Drop)]
pub enum BranchPieces {
    /// It isn't shown that the branch is covered.
    Stuck,
    /// The branch is covered.
    Done,
    /// The branch is covered if this one is.
    One(TableauBranch),
    /// The branch is covered if both of these are.
    Two(TableauBranch, TableauBranch),
}

pub(crate) fn copied(alloc: Global, places: &[usize]) -> Result<Vec<usize>, AllocError>
    ensures { IfOk result (λ list. list.items ≡ places.now) }
{
    Vec::from_slice(alloc, places)
}

pub(crate) fn copied_row(alloc: Global, row: &[Option<bool>]) -> Result<KnownRow, AllocError>
    ensures { IfOk result (λ list. list.items ≡ row.now) }
{
    Vec::from_slice(alloc, row)
}

/// A literal of a proposition that has to have a value.
fn needed(
    steps: &CubeSteps,
    proposition: u32,
    is: bool,
    rest: Vec<usize>,
    mut row: KnownRow,
    asks: Vec<usize>,
    puts: Vec<usize>,
) -> BranchPieces
    ensures { (c : proposed.EmptinessCertificate) (forms : List NormalForm) (v place : ℕ) → part forms place ≡ literal_form proposition is
        → Splits steps.now c forms v row.items (place ∷ rest.items) asks.items puts.items result }
{
    let place = steps.system.latches.len() + proposition as usize;
    if !note_at(&mut row, place, is) {
        return BranchPieces::Done;
    }
    BranchPieces::One(TableauBranch {
        row,
        todo: rest,
        asks,
        puts,
    })
}

/// Either of two branches: one with these formulas to do, and one with those.
fn two(
    alloc: Global,
    row: KnownRow,
    first: Vec<usize>,
    asks: &[usize],
    puts: &[usize],
    second: Vec<usize>,
    more: Vec<usize>,
    off: Vec<usize>,
) -> Result<BranchPieces, AllocError>
    ensures { IfOk result (λ p. AreTwo row.items first.items asks.now puts.now second.items more.items off.items p) }
{
    let same = copied_row(alloc, &row)?;
    let asks = copied(alloc, asks)?;
    let puts = copied(alloc, puts)?;
    Ok(BranchPieces::Two(
        TableauBranch {
            row: same,
            todo: first,
            asks,
            puts,
        },
        TableauBranch {
            row,
            todo: second,
            asks: more,
            puts: off,
        },
    ))
}

/// Leaves out the first formula.
pub(crate) fn left_out(
    rest: Vec<usize>,
    row: KnownRow,
    asks: Vec<usize>,
    puts: Vec<usize>,
) -> BranchPieces
    ensures { (s : CubeSteps) (c : proposed.EmptinessCertificate) (forms : List NormalForm) (v place : ℕ)
        → Splits s c forms v row.items (place ∷ rest.items) asks.items puts.items result }
{
    BranchPieces::One(TableauBranch {
        row,
        todo: rest,
        asks,
        puts,
    })
}

/// Takes the formula at `place` apart, which `node` is.
pub(crate) fn take_apart(
    alloc: Global,
    steps: &CubeSteps,
    node: NormalNode,
    place: usize,
    rest: Vec<usize>,
    row: KnownRow,
    asks: Vec<usize>,
    puts: Vec<usize>,
) -> Result<BranchPieces, AllocError>
    ensures { IfOk result (λ p. (c : proposed.EmptinessCertificate) (forms : List NormalForm) (v : ℕ) → part forms place ≡ normal_at forms node
        → Splits steps.now c forms v row.items (place ∷ rest.items) asks.items puts.items p) }
{
    match node {
        NormalNode::Top => Ok(BranchPieces::One(TableauBranch {
            row,
            todo: rest,
            asks,
            puts,
        })),
        NormalNode::Bottom => Ok(BranchPieces::Done),
        NormalNode::Literal(p, is) => Ok(needed(steps, p, is, rest, row, asks, puts)),
        NormalNode::Both(a, b) => {
            let behind = in_front(alloc, b, &rest)?;
            let todo = in_front(alloc, a, &behind)?;
            Ok(BranchPieces::One(TableauBranch {
                row,
                todo,
                asks,
                puts,
            }))
        }
        NormalNode::Either(a, b) => {
            let left = in_front(alloc, a, &rest)?;
            let right = in_front(alloc, b, &rest)?;
            two(
                alloc,
                row,
                left,
                &asks,
                &puts,
                right,
                copied(alloc, &asks)?,
                copied(alloc, &puts)?,
            )
        }
        NormalNode::Next(a) => {
            let more = in_front(alloc, a, &asks)?;
            Ok(BranchPieces::One(TableauBranch {
                row,
                todo: rest,
                asks: more,
                puts,
            }))
        }
        NormalNode::Until(a, b) => {
            let now = in_front(alloc, b, &rest)?;
            let later = in_front(alloc, a, &rest)?;
            let more = in_front(alloc, place, &asks)?;
            let off = in_front(alloc, place, &puts)?;
            two(alloc, row, now, &asks, &puts, later, more, off)
        }
        NormalNode::Release(a, b) => {
            let behind = in_front(alloc, a, &rest)?;
            let ends = in_front(alloc, b, &behind)?;
            let stays = in_front(alloc, b, &rest)?;
            let more = in_front(alloc, place, &asks)?;
            two(
                alloc,
                row,
                ends,
                &asks,
                &puts,
                stays,
                more,
                copied(alloc, &puts)?,
            )
        }
    }
}

/// Puts what is left of a branch on the stack. `false` says that it isn't shown that the branch is covered.
pub(crate) fn put(stack: &mut Vec<TableauBranch>, pieces: BranchPieces) -> Result<bool, AllocError>
    ensures { IfOk result (λ yes. OnTrue yes (HasPut stack.old.items pieces stack.new.items)) }
{
    match pieces {
        BranchPieces::Stuck => Ok(false),
        BranchPieces::Done => Ok(true),
        BranchPieces::One(branch) => {
            stack.push(branch)?;
            Ok(true)
        }
        BranchPieces::Two(first, second) => {
            stack.push(first)?;
            stack.push(second)?;
            Ok(true)
        }
    }
}
