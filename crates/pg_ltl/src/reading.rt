//! Turns tokens into the parts of a formula.

ghost use Rattle.std.specs.Prelude.{◌≡◌, ◌≤◌, ◌<◌, ◌∷◌, [], length, reverse, Some, IfOk, IfErr, MatchOption, option_map};
ghost use Rattle.pg_ltl.specs.FormulaTexts.{AreTokensOf, left_rank, strength};
ghost use Rattle.pg_ltl.specs.Mirrors.Views.{written};
ghost use Rattle.pg_ltl.specs.Mirrors.Readings.{Gives, IsMisread, StopsRun, StopsTokens};
ghost use Rattle.pg_ltl.specs.Mirrors.Run.{also_of, ended_place, ahead_of, between_at, closed_at, completed_at, due_turn, finish_at, kept};
ghost use Rattle.pg_ltl.specs.Mirrors.Run.{may_wait, operand_at, opened};
ghost use Rattle.pg_ltl.specs.Mirrors.Run.{over_turn, parse_at, reduced_at, taking, turn_at, view, whole_at};

use crate::formula::{Formula, FormulaNode, Infix, Prefix};
use crate::token::FormulaToken;
use std::alloc::{AllocError, Global};

/// Why no formula could be read.
#[derive(Clone, Copy)]
pub enum Misplaced {
    /// An allocation failed.
    Memory,
    /// The token at this position, counted from 0, is out of place; or the tokens end at this position, where they must not.
    At(usize),
}

impl From<AllocError> for Misplaced {
    ghost use Rattle.pg_ltl.specs.declared.reading.Misplaced.TheVariants as faults;

    ghost from_gives = { λ _ e. e ≡ faults.Memory };

    fn from(_e: AllocError) -> Misplaced {
        Misplaced::Memory
    }
}

/// What is waiting for an operand.
#[derive(Clone, Copy)]
pub enum Pending {
    /// An open bracket.
    Paren,
    /// An operator that comes before its operand.
    Ahead(Prefix),
    /// An operator that follows its left operand, which is the part at this place.
    Left(Infix, usize),
}

/// A formula that is being read: its parts so far, what is pending, innermost last, and the place of the
/// operand just read, or `None` if an operand is due.
#[derive(Drop)]
pub struct Reading {
    pub nodes: Vec<FormulaNode>,
    pub pending: Vec<Pending>,
    pub operand: Option<usize>,
}

/// Returns how strongly an operator binds.
fn strength(op: Infix) -> u32
    ensures { result ≡ strength op }
{
    match op {
        Infix::Also => 0,
        Infix::Implies | Infix::Equivalent => 1,
        Infix::Or => 2,
        Infix::Exclusive => 4,
        Infix::And => 6,
        Infix::Until | Infix::Release | Infix::Weak | Infix::Strong => 7,
    }
}

/// Returns how strongly the left operand of an operator must bind at least.
fn left_rank(op: Infix) -> u32
    ensures { result ≡ left_rank op }
{
    let strength = strength(op);
    strength + strength % 2
}

/// Removes and returns the innermost of what is pending.
fn pop(pending: &mut Vec<Pending>) -> Option<Pending>
    ensures { MatchOption result ((reverse pending.old.items ≡ []) × (reverse pending.new.items ≡ []))
        (λ innermost. reverse pending.old.items ≡ innermost ∷ reverse pending.new.items) }
{
    pending.pop()
}

/// Returns the reading in which the part at `place` is the operand just read.
fn over(nodes: Vec<FormulaNode>, pending: Vec<Pending>, place: usize) -> Reading
    ensures { view result ≡ kept nodes.items pending.items (Some place) }
{
    Reading {
        nodes,
        pending,
        operand: Some(place),
    }
}

/// Returns the prefix operator, if one is pending.
fn ahead(innermost: Pending) -> Option<Prefix>
    ensures { result ≡ ahead_of innermost }
{
    match innermost {
        Pending::Ahead(op) => Some(op),
        _ => None,
    }
}

/// Returns the pending operator with its left operand, if it is one between operands and binds at least as strongly as `bound`.
fn taking(bound: u32, innermost: Pending) -> Option<(Infix, usize)>
    ensures { result ≡ taking bound innermost }
{
    match innermost {
        Pending::Left(op, other) => if bound <= strength(op) {
            Some((op, other))
        } else {
            None
        },
        _ => None,
    }
}

/// Returns the reading after an operand, which is the part at this place: the prefix operators before it take it.
fn completed(
    mut nodes: Vec<FormulaNode>,
    mut pending: Vec<Pending>,
    operand: usize,
) -> Result<Reading, AllocError>
    ensures { IfOk result (λ r. view r ≡ completed_at nodes.items (reverse pending.items) operand) }
{
    let mut place = operand;
    'pending: loop {
        match pop(&mut pending) {
            None => return Ok(over(nodes, pending, place)),
            Some(innermost) => match ahead(innermost) {
                Some(op) => {
                    let next = nodes.len();
                    nodes.push(FormulaNode::One(op, place))?;
                    place = next;
                }
                None => {
                    pending.push(innermost)?;
                    return Ok(over(nodes, pending, place));
                }
            },
        }
    }
}

/// Returns the reading in which all waiting operators that bind at least as strongly as `bound` have taken their right operands. The
/// innermost right operand is the part at the place `operand`.
fn reduced(
    bound: u32,
    mut nodes: Vec<FormulaNode>,
    mut pending: Vec<Pending>,
    operand: usize,
) -> Result<Reading, AllocError>
    ensures { IfOk result (λ r. view r ≡ reduced_at bound nodes.items (reverse pending.items) operand) }
{
    let mut place = operand;
    'pending: loop {
        match pop(&mut pending) {
            None => return Ok(over(nodes, pending, place)),
            Some(innermost) => match taking(bound, innermost) {
                Some((op, other)) => {
                    let next = nodes.len();
                    nodes.push(FormulaNode::Two(op, other, place))?;
                    place = next;
                }
                None => {
                    pending.push(innermost)?;
                    return Ok(over(nodes, pending, place));
                }
            },
        }
    }
}

/// Returns the reading after an operand that is a single new part.
#[tactic(auto, unfolding(crate::specs::Mirrors::Run::operand_at))]
fn operand(mut reading: Reading, node: FormulaNode) -> Result<Reading, AllocError>
    ensures { IfOk result (λ r. view r ≡ operand_at (view reading) node) }
{
    let place = reading.nodes.len();
    reading.nodes.push(node)?;
    completed(reading.nodes, reading.pending, place)
}

/// Returns the reading with one more pending.
fn opened(mut reading: Reading, innermost: Pending) -> Result<Reading, AllocError>
    ensures { IfOk result (λ r. view r ≡ opened (view reading) innermost) }
{
    reading.pending.push(innermost)?;
    Ok(Reading {
        nodes: reading.nodes,
        pending: reading.pending,
        operand: None,
    })
}

/// Returns the reading after a token, where an operand is due, or `None` if the token is out of place.
#[tactic(auto, unfolding(crate::specs::Mirrors::Run::due_turn))]
fn due_turn(reading: Reading, token: FormulaToken) -> Result<Option<Reading>, AllocError>
    ensures { IfOk result (λ r. option_map view r ≡ due_turn (view reading) token) }
{
    match token {
        FormulaToken::Proposition(p) => Ok(Some(operand(reading, FormulaNode::Proposition(p))?)),
        FormulaToken::Constant(value) => Ok(Some(operand(reading, FormulaNode::Constant(value))?)),
        FormulaToken::Before(op) => Ok(Some(opened(reading, Pending::Ahead(op))?)),
        FormulaToken::LeftParen => Ok(Some(opened(reading, Pending::Paren)?)),
        _ => Ok(None),
    }
}

/// Whether an operator may wait after what is pending: a `;` inside brackets may not.
fn may_wait(pending: &[Pending], op: Infix) -> bool
    ensures { result ≡ may_wait (reverse pending.now) op }
{
    match (pending.last(), op) {
        (Some(Pending::Paren), Infix::Also) => false,
        _ => true,
    }
}

/// Returns the reading after an infix operator whose left operand was just read, or `None` if the operator is out of place.
#[tactic(auto, unfolding(crate::specs::Mirrors::Run::between_at))]
fn between(op: Infix, reading: Reading) -> Result<Option<Reading>, AllocError>
    ensures { IfOk result (λ r. option_map view r ≡ between_at op (view reading)) }
{
    match reading.operand {
        Some(place) if may_wait(&reading.pending, op) => Ok(Some(opened(
            reading,
            Pending::Left(op, place),
        )?)),
        _ => Ok(None),
    }
}

/// Returns the reading after a closing bracket, or `None` if the bracket is out of place.
#[tactic(auto, unfolding(crate::specs::Mirrors::Run::closed_at))]
fn closed(reading: Reading) -> Result<Option<Reading>, AllocError>
    ensures { IfOk result (λ r. option_map view r ≡ closed_at (view reading)) }
{
    let mut nodes = reading.nodes;
    let mut pending = reading.pending;
    match (pop(&mut pending), reading.operand) {
        (Some(Pending::Paren), Some(place)) => {
            let next = nodes.len();
            nodes.push(FormulaNode::Bracket(place))?;
            Ok(Some(completed(nodes, pending, next)?))
        }
        _ => Ok(None),
    }
}

/// Returns the reading after a token, where the part at `place` was just read, or `None` if the token is out of place.
#[tactic(auto, unfolding(crate::specs::Mirrors::Run::over_turn))]
fn over_turn(
    reading: Reading,
    place: usize,
    token: FormulaToken,
) -> Result<Option<Reading>, AllocError>
    ensures { IfOk result (λ r. option_map view r ≡ over_turn (view reading) place token) }
{
    match token {
        FormulaToken::Between(op) => between(
            op,
            reduced(left_rank(op), reading.nodes, reading.pending, place)?,
        ),
        FormulaToken::RightParen => closed(reduced(1, reading.nodes, reading.pending, place)?),
        _ => Ok(None),
    }
}

/// Returns the reading after one more token, or `None` if the token is out of place.
#[tactic(auto, unfolding(crate::specs::Mirrors::Run::turn_at))]
fn turn(reading: Reading, token: FormulaToken) -> Result<Option<Reading>, AllocError>
    ensures { IfOk result (λ r. option_map view r ≡ turn_at (view reading) token) }
{
    match reading.operand {
        None => due_turn(reading, token),
        Some(place) => over_turn(reading, place, token),
    }
}

/// Returns the parts of a finished formula and the place of the whole, or `None` if something is still waiting for an operand.
#[tactic(auto, unfolding(crate::specs::Mirrors::Run::whole_at))]
fn whole(reading: Reading) -> Option<(Vec<FormulaNode>, usize)>
    ensures { option_map (λ x. (x.0.items, x.1)) result ≡ whole_at (view reading) }
{
    let mut pending = reading.pending;
    match (pop(&mut pending), reading.operand) {
        (None, Some(place)) => Some((reading.nodes, place)),
        _ => None,
    }
}

/// Returns the place of the operand before a `;`.
fn also(innermost: Pending) -> Option<usize>
    ensures { result ≡ also_of innermost }
{
    match innermost {
        Pending::Left(Infix::Also, place) => Some(place),
        _ => None,
    }
}

/// Returns the place of the formula before a `;`, if that is all that is waiting.
fn ended(mut pending: Vec<Pending>) -> Option<usize>
    ensures { result ≡ ended_place (reverse pending.items) }
{
    let innermost = pop(&mut pending)?;
    match pop(&mut pending) {
        None => also(innermost),
        Some(_) => None,
    }
}

/// Returns the parts of the formula that ends here and the place of the whole, or `None` if no formula may end here.
#[tactic(auto, unfolding(crate::specs::Mirrors::Run::finish_at))]
fn finished(reading: Reading) -> Result<Option<(Vec<FormulaNode>, usize)>, AllocError>
    ensures { IfOk result (λ r. option_map (λ x. (x.0.items, x.1)) r ≡ finish_at (view reading)) }
{
    match reading.operand {
        None => match ended(reading.pending) {
            Some(place) => Ok(Some((reading.nodes, place))),
            None => Ok(None),
        },
        Some(place) => Ok(whole(reduced(0, reading.nodes, reading.pending, place)?)),
    }
}

/// Returns the parts of the formula that the tokens spell, with or without a `;` after it, and the place of the whole.
fn parsed(alloc: Global, tokens: &[FormulaToken]) -> Result<(Vec<FormulaNode>, usize), Misplaced>
    ensures value { Gives (λ x. (x.0.items, x.1)) result (parse_at tokens.now) }
    ensures stops { IfErr result (StopsRun tokens.now) }
{
    let mut reading = Reading {
        nodes: Vec::new(alloc),
        pending: Vec::new(alloc),
        operand: None,
    };
    for (place, token) in tokens.iter().enumerate() {
        match turn(reading, *token)? {
            Some(next) => reading = next,
            None => return Err(Misplaced::At(place)),
        }
    }
    match finished(reading)? {
        Some(found) => Ok(found),
        None => Err(Misplaced::At(tokens.len())),
    }
}

/// Returns the formula that the tokens spell, with or without a `;` after it. If they spell none, `At` gives the position of the first
/// token that is out of place, or the number of tokens if they end too early.
pub fn formula_of(alloc: Global, tokens: &[FormulaToken]) -> Result<Formula, Misplaced>
    ensures found { IfOk result (λ f. AreTokensOf tokens.now (written f)) }
    ensures refused { IfErr result (IsMisread tokens.now) }
    ensures stops { IfErr result (StopsTokens tokens.now) }
{
    let (nodes, root) = parsed(alloc, tokens)?;
    Ok(Formula { nodes, root })
}
