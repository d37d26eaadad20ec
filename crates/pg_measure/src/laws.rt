//! Laws about measures. Each function's contract states a law, and its body does nothing.

ghost use Rattle.pg_measure.specs.Laws.{OrderIsTotal, ComparingTellsOrder, ZerosAreLeast, ComponentsAreFirst, OneLeastStep, HasBounds, OneListOfBounds, BoundsAreFew};

/// The order of measures is total.
pub fn order_is_total()
    ensures { OrderIsTotal }
{}

/// `cmp`, `<` and the other comparisons of two measures agree with their order.
pub fn comparing_tells_order()
    ensures { ComparingTellsOrder }
{}

/// For any bounds, zeros are the least measure.
pub fn zeros_are_least()
    ensures { ZerosAreLeast }
{}

/// The components for priorities of at least `p` come first, because priorities fall.
pub fn components_are_first()
    ensures { ComponentsAreFirst }
{}

/// Among the measures that cover a given one there is only one least measure.
pub fn one_least_step()
    ensures { OneLeastStep }
{}

/// A game has bounds.
pub fn has_bounds()
    ensures { HasBounds }
{}

/// A game has only one list of bounds.
pub fn one_list_of_bounds()
    ensures { OneListOfBounds }
{}

/// A game whose priorities are at most 65,536 has at most 32,768 bounds, and their priorities are at most 65,535.
pub fn bounds_are_few()
    ensures { BoundsAreFew }
{}
