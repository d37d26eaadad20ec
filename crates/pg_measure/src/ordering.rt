//! The order of measures: lists in lexicographic order, and top above every list. Tops are equal, however many components they have room
//! for.

ghost use Rattle.std.specs.Prelude.{◌≡◌, ◌↔◌, refl, IsTrue};
ghost use Rattle.std.specs.Cmp.{partial_equiv_from_equiv, eq_by_cmp_equiv, partial_order_from_total};
ghost use Rattle.std.specs.Ordering.{MatchOrdering, is_eq, on, as_partial_cmp, eq_by_cmp};
ghost use Rattle.pg_measure.specs.Measures.{IsBelow, measure_cmp};
ghost use Rattle.pg_measure.specs.Lemmas.Orders.{owned_total};

use crate::Measure;
use std::cmp::Ordering;

impl PartialEq for Measure {
    ghost eq = { eq_by_cmp (on (λ m. m.value) measure_cmp) };

    ghost laws = { partial_equiv_from_equiv (eq_by_cmp_equiv owned_total) };

    fn eq(&self, other: &Measure) -> bool
        ensures eq { result ≡ is_eq (measure_cmp self.now.value other.now.value) }
        ensures same { IsTrue result ↔ (self.now.value ≡ other.now.value) }
    {
        self.cmp(other).is_eq()
    }
}

impl Eq for Measure {
    ghost laws = { eq_by_cmp_equiv owned_total };
}

impl PartialOrd for Measure {
    ghost partial_cmp = { as_partial_cmp (on (λ m. m.value) measure_cmp) };

    ghost laws = { partial_order_from_total owned_total };

    fn partial_cmp(&self, other: &Measure) -> Option<Ordering> {
        Some(self.cmp(other))
    }
}

impl Ord for Measure {
    ghost cmp = { on (λ m. m.value) measure_cmp };

    ghost total = { owned_total };

    ghost matches_partial_cmp = { λ m n. refl };

    ghost matches_eq = { λ m n. refl };

    fn cmp(&self, other: &Measure) -> Ordering
        ensures cmp { result ≡ measure_cmp self.now.value other.now.value }
        ensures order { MatchOrdering result (IsBelow self.now.value other.now.value) (self.now.value ≡ other.now.value)
            (IsBelow other.now.value self.now.value) }
    {
        match (self.list(), other.list()) {
            (None, None) => Ordering::Equal,
            (None, Some(_)) => Ordering::Greater,
            (Some(_), None) => Ordering::Less,
            (Some(a), Some(b)) => a.cmp(b),
        }
    }
}
