//! Gates in the order in which they are made.

ghost use Rattle.std.specs.Prelude.{◌≡◌, ◌+◌, ◌^◌, ◌<◌, ◌≤◌, ◌/◌, ◌%◌, ◌==◌, ◌&&◌, ◌||◌, not, [], IfOk};
ghost use Rattle.pg_aiger.specs.Runs.{Valuation, value};
ghost use Rattle.pg_aiger.specs.Construction.{negation, new_gate, conjunction, disjunction, spelling};
ghost use Rattle.pg_aiger.specs.Mirrors.Drafts.{IsDraft, IsLiteral, HasRoom, Extends, Means, number_at, conjunction_with};

use crate::gate::Gate;
use std::alloc::{AllocError, Global};
use std::marker::Model;

/// The gates made so far. The first one defines the variable `base`.
#[derive(Drop)]
pub(crate) struct Draft {
    base: u32,
    gates: Vec<Gate>,
}

impl Model for Draft {
    ghost use Rattle.pg_aiger.specs.Mirrors.Drafts.{Drafted, IsDraft};

    ghost Value = { Drafted };

    ghost view = { λ d. record { base = d.base; gates = d.gates.items } };

    ghost invariant = { λ d. IsDraft (record { base = d.base; gates = d.gates.items }) };
}

impl Draft {
    /// Returns a draft without gates; the first gate will define the variable `base`.
    pub fn new(alloc: Global, base: u32) -> Self
        requires { (0 < base) × (base ≤ 2 ^ 30) }
        ensures base { result.base ≡ base }
        ensures gates { result.gates ≡ [] }
    {
        Draft {
            base,
            gates: Vec::new(alloc),
        }
    }

    /// Returns the gates, in order.
    pub fn into_gates(self) -> Vec<Gate>
        ensures gates { result.items ≡ self.gates }
        ensures draft { IsDraft self }
    {
        self.gates
    }

    /// Appends a new gate, the conjunction of two literals, and returns its literal.
    fn gate(&mut self, x: u32, y: u32) -> Result<u32, AllocError>
        requires x_in { IsLiteral self.old x }
        requires y_in { IsLiteral self.old y }
        requires room { HasRoom self.old 1 }
        ensures extends { Extends 1 self.old self.new }
        ensures literal { IfOk result (λ l. IsLiteral self.new l) }
        ensures meaning { IfOk result (λ l. Means self.new l (λ v. value v x && value v y)) }
        ensures made { IfOk result (λ l. new_gate self.old x y ≡ (self.new, l)) }
    {
        let lhs = 2 * (self.base + self.gates.len() as u32);
        let gate = Gate {
            lhs,
            rhs0: x.max(y),
            rhs1: x.min(y),
        };
        self.gates.push(gate)?;
        Ok(lhs)
    }

    /// Returns a literal of the conjunction of two literals: a new gate's, unless one of them is constant.
    #[tactic(auto, using(crate::proofs::Exact::conjunctions))]
    pub fn and(&mut self, x: u32, y: u32) -> Result<u32, AllocError>
        requires x_in { IsLiteral self.old x }
        requires y_in { IsLiteral self.old y }
        requires room { HasRoom self.old 1 }
        ensures extends { Extends 1 self.old self.new }
        ensures literal { IfOk result (λ l. IsLiteral self.new l) }
        ensures meaning { IfOk result (λ l. Means self.new l (λ v. value v x && value v y)) }
        ensures made { IfOk result (λ l. conjunction self.old x y ≡ (self.new, l)) }
    {
        if x == 0 || y == 0 {
            return Ok(0);
        }
        if x == 1 {
            return Ok(y);
        }
        if y == 1 {
            return Ok(x);
        }
        self.gate(x, y)
    }

    /// Returns a literal of the disjunction of two literals.
    pub fn or(&mut self, x: u32, y: u32) -> Result<u32, AllocError>
        requires x_in { IsLiteral self.old x }
        requires y_in { IsLiteral self.old y }
        requires room { HasRoom self.old 1 }
        ensures extends { Extends 1 self.old self.new }
        ensures literal { IfOk result (λ l. IsLiteral self.new l) }
        ensures meaning { IfOk result (λ l. Means self.new l (λ v. value v x || value v y)) }
        ensures made { IfOk result (λ l. disjunction self.old x y ≡ (self.new, l)) }
    {
        let literal = self.and(negated(x), negated(y))?;
        Ok(negated(literal))
    }

    /// Returns a literal that is true if and only if `start` is true and the `count` variables from `first` on have the bits of the
    /// number, the low bit first.
    pub fn matching(
        &mut self,
        start: u32,
        first: u32,
        count: u32,
        number: u32,
    ) -> Result<u32, AllocError>
        requires start_in { IsLiteral self.old start }
        requires variables { first + count ≤ self.old.base }
        requires few { count ≤ 16 }
        requires room { HasRoom self.old count }
        ensures extends { Extends count self.old self.new }
        ensures literal { IfOk result (λ l. IsLiteral self.new l) }
        ensures meaning { IfOk result (λ l. Means self.new l
            (λ v. value v start && (number_at v first count == number % 2 ^ count))) }
        ensures made { IfOk result (λ l. conjunction_with self.old start (spelling first count number) ≡ (self.new, l)) }
    {
        let mut literal = start;
        for j in 0..count {
            let negation = if (number >> j) % 2 == 1 { 0 } else { 1 };
            literal = self.and(literal, 2 * (first + j) + negation)?;
        }
        Ok(literal)
    }
}

/// Returns the negation of a literal.
fn negated(x: u32) -> u32
    ensures literal { result ≡ negation x }
    ensures variable { result / 2 ≡ x / 2 }
    ensures value { (v : Valuation) → value v result ≡ not (value v x) }
{
    if x % 2 == 1 { x - 1 } else { x + 1 }
}
