//! What is proved of orders: each function's contract is a law, and its body does nothing.

ghost use Rattle.pg_check_order.specs.Laws.{NestedIsWon};

/// If the spans are nested for a player, that player wins the cycles of edges that lead to places before the end.
pub fn nested_is_won()
    ensures { NestedIsWon }
{}
