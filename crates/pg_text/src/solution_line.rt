//! The lines of a solution text.

ghost use Rattle.std.specs.Prelude.{◌≡◌};
ghost use Rattle.pg_text.specs.Mirrors.Steps.{Reads};
ghost use Rattle.pg_text.specs.Mirrors.SolutionScan.{answer_seen, strategy_at, next_answer_at};

use crate::line::player;
use crate::reading::{semicolon, unexpected};
use crate::tokens::{Token, TokenFault, scan};
use pg_arena::Player;

/// A line as it is in the text: who wins at the vertex with this identifier, and the identifier of the vertex to which
/// the winner goes, if there is a strategy.
#[derive(Clone, Copy)]
pub(crate) struct SolutionLine {
    pub(crate) identifier: u32,
    pub(crate) winner: Player,
    pub(crate) strategy: Option<u32>,
}

/// Reads the strategy, if there is one, and the semicolon.
#[tactic(auto, unfolding(crate::specs::Mirrors::SolutionScan::strategy_at))]
fn strategy(bytes: &[u8]) -> Result<(Option<u32>, &[u8]), TokenFault>
    ensures { Reads (λ x. (x.0, x.1.now)) result (strategy_at bytes.now) }
{
    match scan(bytes)? {
        (Token::Number(value), rest) => Ok((Some(value), semicolon(rest)?)),
        (Token::Semicolon, rest) => Ok((None, rest)),
        _ => Err(unexpected(bytes)),
    }
}

/// Reads a line, or returns None at the end of the text.
#[tactic(auto, unfolding(crate::specs::Mirrors::SolutionScan::next_answer_at, crate::specs::Mirrors::SolutionScan::answer_at))]
pub(crate) fn next_answer(bytes: &[u8]) -> Result<(Option<SolutionLine>, &[u8]), TokenFault>
    ensures { Reads (λ x. (answer_seen x.0, x.1.now)) result (next_answer_at bytes.now) }
{
    match scan(bytes)? {
        (Token::Number(identifier), rest) => {
            let (winner, rest) = player(rest)?;
            let (strategy, rest) = strategy(rest)?;
            let line = SolutionLine {
                identifier,
                winner,
                strategy,
            };
            Ok((Some(line), rest))
        }
        (Token::End, rest) => Ok((None, rest)),
        _ => Err(unexpected(bytes)),
    }
}
