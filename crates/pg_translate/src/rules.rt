//! Rewrites formulas as they are made.

use crate::fault::Attempt;
use crate::numbers::power;
use crate::pool::{FALSE, FormulaPool, Operator, TRUE};

/// Returns two constants: the one that a junction drops from its parts, and the one that it becomes if that is a part.
fn unit_and_zero(operator: Operator) -> (u32, u32) {
    if operator == Operator::All {
        (TRUE, FALSE)
    } else {
        (FALSE, TRUE)
    }
}

/// Returns the junction that goes with a temporal operator: `f U (g & h)` is `(f U g) & h` if `h` is suspendable.
fn junction_of(operator: Operator) -> Operator {
    if operator == Operator::Until {
        Operator::All
    } else {
        Operator::Any
    }
}

impl FormulaPool {
    /// Returns the formula of an operator and its operands, simplified.
    pub fn make(&mut self, operator: Operator, operands: &[u32]) -> Attempt<u32> {
        match (operator, operands) {
            (Operator::True, _) => Ok(TRUE),
            (Operator::Literal(_, _), _) => self.add(operator, &[]),
            (Operator::All | Operator::Any, parts) => self.join(operator, parts),
            (Operator::Next, [f]) => self.next(*f),
            (Operator::Until | Operator::Release, [f, g]) => self.temporal(operator, *f, *g),
            _ => Ok(FALSE),
        }
    }

    /// Returns the conjunction or disjunction of the parts, simplified.
    pub fn join(&mut self, operator: Operator, parts: &[u32]) -> Attempt<u32> {
        let (unit, zero) = unit_and_zero(operator);
        let mut flat = Vec::new(self.alloc);
        for f in parts {
            if self.operator(*f) == operator {
                flat.extend_from_slice(self.operands(*f))?;
            } else if *f != unit {
                flat.push(*f)?;
            }
        }
        flat.sort_unstable();
        flat.dedup();
        if flat.contains(&zero) || self.has_opposites(&flat) {
            return Ok(zero);
        }
        match flat.as_slice() {
            [] => Ok(unit),
            [f] => Ok(*f),
            _ => self.add(operator, &flat),
        }
    }

    /// Whether a proposition and its negation are both among the parts.
    fn has_opposites(&self, parts: &[u32]) -> bool {
        let (mut positive, mut negative) = (0, 0);
        for f in parts {
            match self.operator(*f) {
                Operator::Literal(p, true) => positive |= power(p),
                Operator::Literal(p, false) => negative |= power(p),
                _ => {}
            }
        }
        positive & negative != 0
    }

    /// Returns `X f`, or `f` itself if it is a constant or suspendable.
    pub fn next(&mut self, f: u32) -> Attempt<u32> {
        if f <= TRUE || self.facts(f).is_suspendable {
            return Ok(f);
        }
        self.add(Operator::Next, &[f])
    }

    /// Returns `left U right`, or by duality `left R right`; the rules are written for U. `F X f` is `X F f`, and `F (f U g)` is `F g`.
    pub fn temporal(&mut self, operator: Operator, left: u32, right: u32) -> Attempt<u32> {
        let yes = unit_and_zero(junction_of(operator)).0;
        let mut right = right;
        let mut nexts = 0u32;
        for _ in 0..u32::MAX {
            if left != yes || self.facts(right).is_suspendable {
                break;
            }
            right = match (self.operator(right), self.operands(right)) {
                (Operator::Next, [f]) => {
                    nexts = nexts.saturating_add(1);
                    *f
                }
                (inner, [_, f]) if inner == operator => *f,
                _ => break,
            };
        }
        let mut made = self.temporal_of_any(operator, left, right)?;
        for _ in 0..nexts {
            made = self.next(made)?;
        }
        Ok(made)
    }

    /// Returns `left U right` or `left R right`, where `right` may have suspendable parts.
    fn temporal_of_any(&mut self, operator: Operator, left: u32, right: u32) -> Attempt<u32> {
        let junction = junction_of(operator);
        if self.operator(right) != junction {
            return self.temporal_of_plain(operator, left, right);
        }
        let mut outer = Vec::new(self.alloc);
        let mut inner = Vec::new(self.alloc);
        for f in self.operands(right) {
            if self.facts(*f).is_suspendable {
                outer.push(*f)?;
            } else {
                inner.push(*f)?;
            }
        }
        let inner = self.join(junction, &inner)?;
        outer.push(self.temporal_of_plain(operator, left, inner)?)?;
        self.join(junction, &outer)
    }

    /// Returns `left U right` or `left R right`, where `right` has no suspendable parts.
    fn temporal_of_plain(&mut self, operator: Operator, left: u32, right: u32) -> Attempt<u32> {
        let no = unit_and_zero(junction_of(operator)).1;
        let is_same = self.operator(right) == operator
            && self.operands(right).first().copied() == Some(left);
        let is_clear = right <= TRUE || left == no || left == right || is_same;
        if is_clear || self.facts(right).is_suspendable {
            return Ok(right);
        }
        self.add(operator, &[left, right])
    }
}
