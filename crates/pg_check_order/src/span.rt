//! Spans, and the check that they are nested.

ghost use Rattle.std.specs.Prelude.{◌↔◌, ℕ, ◌<◌, length, IsTrue};
ghost use Rattle.pg_arena.specs.Games.{HasParityOf};
ghost use Rattle.pg_check_order.specs.Orders.{IsNested, AreNested};

use pg_arena::Player;

/// What an order says of a place: the priority of what stands there, and the place before which its edges lead.
#[derive(Clone, Copy)]
pub struct Span {
    pub priority: u32,
    pub end: u32,
}

/// Whether a priority is one of the player's.
fn has_parity_of(player: Player, priority: u32) -> bool
    ensures { IsTrue result ↔ HasParityOf player priority }
{
    match player {
        Player::Even => priority % 2 == 0,
        Player::Odd => priority % 2 == 1,
    }
}

/// Whether the span at a place is nested, if the spans at all later places are. What stands before the end of a later place needs
/// no look.
fn is_nested(spans: &[Span], player: Player, i: usize) -> bool
    requires i { i < length spans.now }
    requires later { (j : ℕ) → i < j → IsNested player spans.now j }
    ensures { IsTrue result ↔ IsNested player spans.now i }
{
    let most = spans[i].priority;
    let end = spans[i].end as usize;
    if i < end && !has_parity_of(player, most) {
        return false;
    }
    let mut j = i + 1;
    while j < end && j < spans.len() {
        let here = spans[j].end as usize;
        if here > end || spans[j].priority > most {
            return false;
        }
        j = here.max(j + 1);
    }
    true
}

/// Whether the spans are nested for a player. Each place is looked at once for itself, and once from the last place before it whose
/// end is after it.
pub fn are_nested(spans: &[Span], player: Player) -> bool
    ensures { IsTrue result ↔ AreNested player spans.now }
{
    let mut i = spans.len();
    while i > 0 {
        i -= 1;
        if !is_nested(spans, player, i) {
            return false;
        }
    }
    true
}
