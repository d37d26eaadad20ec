//! Labels and acceptance conditions in the order in which they are computed: operands before their operators. A stack
//! of open brackets replaces recursion, so deep nesting costs only memory, in proportion to the text.

ghost use Rattle.std.specs.Prelude.{◌≡◌, ◌++◌, Some, None, option_map};
ghost use Rattle.pg_hoa_syntax.specs.Mirrors.Steps.{Gives};
ghost use Rattle.pg_hoa_syntax.specs.Mirrors.Scan.{lexeme, lex};
ghost use Rattle.pg_hoa_syntax.specs.Mirrors.FormulaRun.{view, not_ops, split_last, completed_at, operand_at, negated_at, opened_at};
ghost use Rattle.pg_hoa_syntax.specs.Mirrors.FormulaRun.{product_at, sum_at, closed_at, limit_at, word_at, operand_turn, operator_turn};
ghost use Rattle.pg_hoa_syntax.specs.Mirrors.FormulaRun.{opening_turn, naming_turn, closing_turn, turn_at, taken_at, over_at, ops_at};

use crate::fault::{LeftOutName, PartFault, PartRefusal};
use crate::token::{HoaToken, next_token, unexpected};
use std::alloc::Global;

/// The kind of a formula: a label over the given number of propositions, or a condition over the given number of sets.
#[derive(Clone, Copy)]
pub enum FormulaKind {
    Label(u32),
    Condition(u32),
}

/// An operand, or an operator on the operands before it.
#[derive(Clone, Copy)]
pub enum Op {
    /// The constant `t`.
    Yes,
    /// The constant `f`.
    No,
    /// The proposition of this number.
    Proposition(u32),
    /// `Inf` of the set of this number.
    Inf(u32),
    /// `Fin` of the set of this number.
    Fin(u32),
    /// The operator `!`.
    Not,
    /// The operator `&`.
    Both,
    /// The operator `|`.
    Either,
}

/// What was read before the next operand, within one bracket.
#[derive(Clone, Copy)]
pub struct Bracket {
    /// Whether an operand of `|` waits for the other one.
    sum: bool,
    /// Whether an operand of `&` waits for the other one.
    product: bool,
    /// The number of `!` right before the operand.
    nots: u32,
    /// The number of brackets and `!` that may be open around one place here, beyond those around this bracket.
    room: u32,
}

/// What may come next.
#[derive(Clone, Copy)]
pub enum Mode {
    Operand,
    /// The bracket after `Inf`, if true, or `Fin`.
    Opening(bool),
    /// The number in that bracket.
    Naming(bool),
    /// The bracket after that number.
    Closing(Op),
    Operator,
}

/// A formula that is being read.
#[derive(Drop)]
pub struct FormulaReading {
    mode: Mode,
    top: Bracket,
    outer: Vec<Bracket>,
    ops: Vec<Op>,
}

/// Appends `count` negations to the operations.
fn push_nots(mut ops: Vec<Op>, count: u32) -> Result<Vec<Op>, PartRefusal>
    ensures { Gives (λ x. x.items) result (Some (ops.items ++ not_ops count)) }
{
    for _ in 0..count {
        ops.push(Op::Not)?;
    }
    Ok(ops)
}

/// Returns the open brackets without the innermost, and the innermost, if any is open.
fn split_last(mut outer: Vec<Bracket>) -> Option<(Vec<Bracket>, Bracket)>
    ensures { option_map (λ x. (x.0.items, x.1)) result ≡ split_last outer.items }
{
    match outer.pop() {
        Some(top) => Some((outer, top)),
        None => None,
    }
}

/// Returns the reading after an operand whose operations it has already.
#[tactic(auto, unfolding(crate::specs::Mirrors::FormulaRun::completed_at))]
fn completed(reading: FormulaReading) -> Result<FormulaReading, PartRefusal>
    ensures { Gives view result (completed_at (view reading)) }
{
    let top = reading.top;
    let mut ops = push_nots(reading.ops, top.nots)?;
    if top.product {
        ops.push(Op::Both)?;
    }
    Ok(FormulaReading {
        mode: Mode::Operator,
        top: Bracket {
            sum: top.sum,
            product: false,
            nots: 0,
            room: top.room,
        },
        outer: reading.outer,
        ops,
    })
}

/// Returns the reading after an operand of one operation.
#[tactic(auto, unfolding(crate::specs::Mirrors::FormulaRun::operand_at))]
fn operand(mut reading: FormulaReading, op: Op) -> Result<FormulaReading, PartRefusal>
    ensures { Gives view result (operand_at (view reading) op) }
{
    reading.ops.push(op)?;
    completed(reading)
}

/// Returns the reading after a `!`.
#[tactic(auto, unfolding(crate::specs::Mirrors::FormulaRun::negated_at))]
fn negated(mut reading: FormulaReading) -> Result<FormulaReading, PartRefusal>
    ensures { Gives view result (negated_at (view reading)) }
{
    if reading.top.nots < reading.top.room {
        reading.mode = Mode::Operand;
        reading.top.nots += 1;
        Ok(reading)
    } else {
        Err(PartRefusal::Wrong(PartFault::TooLarge))
    }
}

/// Returns the reading after an opening bracket.
#[tactic(auto, unfolding(crate::specs::Mirrors::FormulaRun::opened_at))]
fn opened(mut reading: FormulaReading) -> Result<FormulaReading, PartRefusal>
    ensures { Gives view result (opened_at (view reading)) }
{
    let top = reading.top;
    if top.nots < top.room {
        reading.outer.push(top)?;
        reading.mode = Mode::Operand;
        reading.top = Bracket {
            sum: false,
            product: false,
            nots: 0,
            room: top.room - top.nots - 1,
        };
        Ok(reading)
    } else {
        Err(PartRefusal::Wrong(PartFault::TooLarge))
    }
}

/// Returns the reading after an `&`.
#[tactic(auto, unfolding(crate::specs::Mirrors::FormulaRun::product_at))]
fn product(mut reading: FormulaReading) -> Result<FormulaReading, PartRefusal>
    ensures { Gives view result (product_at (view reading)) }
{
    reading.mode = Mode::Operand;
    reading.top.product = true;
    reading.top.nots = 0;
    Ok(reading)
}

/// Returns the reading after a `|`.
#[tactic(auto, unfolding(crate::specs::Mirrors::FormulaRun::sum_at))]
fn sum(mut reading: FormulaReading) -> Result<FormulaReading, PartRefusal>
    ensures { Gives view result (sum_at (view reading)) }
{
    if reading.top.sum {
        reading.ops.push(Op::Either)?;
    }
    reading.mode = Mode::Operand;
    reading.top.sum = true;
    reading.top.product = false;
    reading.top.nots = 0;
    Ok(reading)
}

/// Returns the reading after a closing bracket, with `left` bytes left from it on.
#[tactic(auto, unfolding(crate::specs::Mirrors::FormulaRun::closed_at))]
fn closed(reading: FormulaReading, left: usize) -> Result<FormulaReading, PartRefusal>
    ensures { Gives view result (closed_at (view reading)) }
{
    let mut ops = reading.ops;
    if reading.top.sum {
        ops.push(Op::Either)?;
    }
    match split_last(reading.outer) {
        Some((outer, top)) => completed(FormulaReading {
            mode: Mode::Operand,
            top,
            outer,
            ops,
        }),
        None => Err(PartRefusal::Wrong(PartFault::Syntax(left))),
    }
}

/// Returns the reading after a word that must be `Inf` or `Fin`, in a condition.
#[tactic(auto, unfolding(crate::specs::Mirrors::FormulaRun::limit_at))]
fn limit(
    kind: FormulaKind,
    word: &[u8],
    mut reading: FormulaReading,
    left: usize,
) -> Result<FormulaReading, PartRefusal>
    ensures { Gives view result (limit_at kind word.now (view reading)) }
{
    match kind {
        FormulaKind::Label(_) => Err(PartRefusal::Wrong(PartFault::Syntax(left))),
        FormulaKind::Condition(_) => {
            if word == b"Inf".as_slice() {
                reading.mode = Mode::Opening(true);
                Ok(reading)
            } else if word == b"Fin".as_slice() {
                reading.mode = Mode::Opening(false);
                Ok(reading)
            } else {
                Err(PartRefusal::Wrong(PartFault::Syntax(left)))
            }
        }
    }
}

/// Returns the reading after a word.
#[tactic(auto, unfolding(crate::specs::Mirrors::FormulaRun::word_at))]
fn word(
    kind: FormulaKind,
    word: &[u8],
    reading: FormulaReading,
    left: usize,
) -> Result<FormulaReading, PartRefusal>
    ensures { Gives view result (word_at kind word.now (view reading)) }
{
    if word == b"t".as_slice() {
        operand(reading, Op::Yes)
    } else if word == b"f".as_slice() {
        operand(reading, Op::No)
    } else {
        limit(kind, word, reading, left)
    }
}

/// Returns the reading after a token where an operand must come.
#[tactic(auto, unfolding(crate::specs::Mirrors::FormulaRun::operand_turn))]
fn operand_turn(
    kind: FormulaKind,
    reading: FormulaReading,
    token: HoaToken<'_>,
    left: usize,
) -> Result<FormulaReading, PartRefusal>
    ensures { Gives view result (operand_turn kind (view reading) (lexeme token.entry)) }
{
    match (kind, token) {
        (FormulaKind::Label(_), HoaToken::Bang) => negated(reading),
        (FormulaKind::Label(propositions), HoaToken::Number(a)) => {
            if a < propositions {
                operand(reading, Op::Proposition(a))
            } else {
                Err(PartRefusal::Wrong(PartFault::OutOfRange(left)))
            }
        }
        (_, HoaToken::LeftParen) => opened(reading),
        (_, HoaToken::Identifier(w)) => word(kind, w, reading, left),
        _ => Err(PartRefusal::Wrong(unexpected(token, left))),
    }
}

/// Returns the reading after a token where an operand has ended.
#[tactic(auto, unfolding(crate::specs::Mirrors::FormulaRun::operator_turn))]
fn operator_turn(
    reading: FormulaReading,
    token: HoaToken<'_>,
    left: usize,
) -> Result<FormulaReading, PartRefusal>
    ensures { Gives view result (operator_turn (view reading) (lexeme token.entry)) }
{
    match token {
        HoaToken::Ampersand => product(reading),
        HoaToken::Bar => sum(reading),
        HoaToken::RightParen => closed(reading, left),
        _ => Err(PartRefusal::Wrong(unexpected(token, left))),
    }
}

/// Returns the reading after a token where the bracket after `Inf`, if `positive`, or `Fin` must come.
#[tactic(auto, unfolding(crate::specs::Mirrors::FormulaRun::opening_turn))]
fn opening_turn(
    mut reading: FormulaReading,
    positive: bool,
    token: HoaToken<'_>,
    left: usize,
) -> Result<FormulaReading, PartRefusal>
    ensures { Gives view result (opening_turn (view reading) positive (lexeme token.entry)) }
{
    match token {
        HoaToken::LeftParen => {
            reading.mode = Mode::Naming(positive);
            Ok(reading)
        }
        _ => Err(PartRefusal::Wrong(unexpected(token, left))),
    }
}

/// Returns the reading after a token where the number of a set must come.
#[tactic(auto, unfolding(crate::specs::Mirrors::FormulaRun::naming_turn))]
fn naming_turn(
    kind: FormulaKind,
    mut reading: FormulaReading,
    positive: bool,
    token: HoaToken<'_>,
    left: usize,
) -> Result<FormulaReading, PartRefusal>
    ensures { Gives view result (naming_turn kind (view reading) positive (lexeme token.entry)) }
{
    match (kind, token) {
        (FormulaKind::Condition(sets), HoaToken::Number(set)) => {
            if set < sets {
                reading.mode = Mode::Closing(if positive { Op::Inf(set) } else { Op::Fin(set) });
                Ok(reading)
            } else {
                Err(PartRefusal::Wrong(PartFault::OutOfRange(left)))
            }
        }
        (FormulaKind::Condition(_), HoaToken::Bang) => Err(PartRefusal::Wrong(PartFault::LeftOut(
            LeftOutName::NegatedSet,
            left,
        ))),
        _ => Err(PartRefusal::Wrong(unexpected(token, left))),
    }
}

/// Returns the reading after a token where the bracket after the number of a set must come.
#[tactic(auto, unfolding(crate::specs::Mirrors::FormulaRun::closing_turn))]
fn closing_turn(
    reading: FormulaReading,
    op: Op,
    token: HoaToken<'_>,
    left: usize,
) -> Result<FormulaReading, PartRefusal>
    ensures { Gives view result (closing_turn (view reading) op (lexeme token.entry)) }
{
    match token {
        HoaToken::RightParen => operand(reading, op),
        _ => Err(PartRefusal::Wrong(unexpected(token, left))),
    }
}

/// Returns the reading after one more token, with `left` bytes left from it on.
#[tactic(auto, unfolding(crate::specs::Mirrors::FormulaRun::turn_at))]
fn turn(
    kind: FormulaKind,
    reading: FormulaReading,
    token: HoaToken<'_>,
    left: usize,
) -> Result<FormulaReading, PartRefusal>
    ensures { Gives view result (turn_at kind (view reading) (lexeme token.entry)) }
{
    match reading.mode {
        Mode::Operand => operand_turn(kind, reading, token, left),
        Mode::Opening(positive) => opening_turn(reading, positive, token, left),
        Mode::Naming(positive) => naming_turn(kind, reading, positive, token, left),
        Mode::Closing(op) => closing_turn(reading, op, token, left),
        Mode::Operator => operator_turn(reading, token, left),
    }
}

/// Returns the token that was found, if it may belong to the formula.
#[tactic(auto, unfolding(crate::specs::Mirrors::FormulaRun::taken_at, crate::specs::Mirrors::FormulaRun::goes_on_at))]
fn taken<'a>(reading: &FormulaReading, found: Option<HoaToken<'a>>) -> Option<HoaToken<'a>>
    ensures { option_map lexeme result ≡ taken_at (view reading.now) (option_map lexeme found.entry) }
{
    let token = found?;
    match reading.mode {
        Mode::Operator => match token {
            HoaToken::Ampersand | HoaToken::Bar => Some(token),
            _ => {
                if reading.outer.is_empty() {
                    None
                } else {
                    Some(token)
                }
            }
        },
        _ => Some(token),
    }
}

/// Returns the operations of a formula that ends here, with `left` bytes left.
#[tactic(auto, unfolding(crate::specs::Mirrors::FormulaRun::over_at))]
fn over(reading: FormulaReading, left: usize) -> Result<Vec<Op>, PartRefusal>
    ensures { Gives (λ x. x.items) result (over_at (view reading)) }
{
    let mut ops = reading.ops;
    if reading.top.sum {
        ops.push(Op::Either)?;
    }
    match reading.mode {
        Mode::Operator => {
            if reading.outer.is_empty() {
                Ok(ops)
            } else {
                Err(PartRefusal::Wrong(PartFault::Syntax(left)))
            }
        }
        _ => Err(PartRefusal::Wrong(PartFault::Syntax(left))),
    }
}

/// Reads the formula at the start, and returns its operations, operands before their operators, and the bytes after it.
/// The formula ends before the first token that can't belong to it.
pub fn read_formula(
    alloc: Global,
    kind: FormulaKind,
    bytes: &[u8],
) -> Result<(Vec<Op>, &[u8]), PartRefusal>
    ensures { Gives (λ x. (x.0.items, lex x.1.now)) result (ops_at kind (lex bytes.now)) }
{
    let mut reading = FormulaReading {
        mode: Mode::Operand,
        top: Bracket {
            sum: false,
            product: false,
            nots: 0,
            room: 8192,
        },
        outer: Vec::new(alloc),
        ops: Vec::new(alloc),
    };
    let mut rest = bytes;
    'tokens: loop {
        let (found, left, after) = next_token(rest)?;
        match taken(&reading, found) {
            Some(token) => {
                reading = turn(kind, reading, token, left)?;
                rest = after;
            }
            None => return Ok((over(reading, left)?, rest)),
        }
    }
}
