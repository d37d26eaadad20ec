//! Reads a formula in negation normal form from the list of its parts.

use crate::fault::Attempt;
use crate::numbers::{at, count};
use crate::pool::{FormulaPool, Operator};
use pg_ltl::NormalNode;

/// Returns the operator of a part, the places of its operands, and how many operands there are.
fn taken_apart(node: NormalNode) -> (Operator, [usize; 2], usize) {
    match node {
        NormalNode::Bottom => (Operator::False, [0, 0], 0),
        NormalNode::Top => (Operator::True, [0, 0], 0),
        NormalNode::Literal(p, value) => (Operator::Literal(p, value), [0, 0], 0),
        NormalNode::Both(f, g) => (Operator::All, [f, g], 2),
        NormalNode::Either(f, g) => (Operator::Any, [f, g], 2),
        NormalNode::Next(f) => (Operator::Next, [f, f], 1),
        NormalNode::Until(f, g) => (Operator::Until, [f, g], 2),
        NormalNode::Release(f, g) => (Operator::Release, [f, g], 2),
    }
}

impl FormulaPool {
    /// Returns the formula at place `root` of a list in which operands come before the formulas made of them.
    pub fn read(&mut self, nodes: &[NormalNode], root: usize) -> Attempt<u32> {
        let mut needed = vec![in self.alloc; false; nodes.len()]?;
        for place in (0..nodes.len()).rev() {
            if place == root {
                needed[place] = true;
            }
            if needed[place] {
                let (_, operands, many) = taken_apart(nodes[place]);
                for operand in operands.iter().take(many) {
                    if *operand < needed.len() {
                        needed[*operand] = true;
                    }
                }
            }
        }
        let mut formulas = vec![in self.alloc; 0u32; nodes.len()]?;
        for place in 0..nodes.len() {
            let (operator, operands, many) = taken_apart(nodes[place]);
            let mut parts = Vec::new(self.alloc);
            for operand in operands.iter().take(many) {
                parts.push(at(&formulas, count(*operand)))?;
            }
            if needed[place] {
                formulas[place] = self.make(operator, &parts)?;
            }
        }
        Ok(at(&formulas, count(root)))
    }
}
