//! Turns formulas into negation normal form.

ghost use Rattle.std.specs.Prelude.{◌≡◌, ◌≤◌, List, length, IfOk};
ghost use Rattle.pg_ltl.specs.Formulas as formulas;
ghost use Rattle.pg_ltl.specs.Formulas.{one, two};
ghost use Rattle.pg_ltl.specs.declared.formula.Infix.TheVariants.{Weak};
ghost use Rattle.pg_ltl.specs.NormalForms.{normal};
ghost use Rattle.pg_ltl.specs.Mirrors.Nodes.{AreNormalNodes, formula_at, reach};
ghost use Rattle.pg_ltl.specs.Mirrors.Pairs.{AddsFormula, AreWithin, IsWithin, PairsStand, StandsFor};
ghost use Rattle.pg_ltl.specs.Mirrors.Views.{written, form};

use crate::formula::{Formula, FormulaNode, Infix, Prefix};
use crate::normal::{NormalForm, NormalNode};
use crate::pair::{
    NegationPair, at_next, disjunction, equivalence, negation, proposition, side, truth, until,
};
use std::alloc::{AllocError, Global};

/// Appends the parts for a prefix operator applied to `f`.
fn prefixed(
    nodes: &mut Vec<NormalNode>,
    op: Prefix,
    f: NegationPair,
) -> Result<NegationPair, AllocError>
    requires ordered { AreNormalNodes nodes.old.items }
    requires f { IsWithin nodes.old.items f }
    ensures { IfOk result (λ pair. (a : formulas.Formula) → StandsFor nodes.old.items f a
        → AddsFormula nodes.old.items nodes.new.items pair (one op a)) }
{
    match op {
        Prefix::Not => Ok(negation(f)),
        Prefix::Next => at_next(nodes, f),
        Prefix::Finally => {
            let always = truth(nodes)?;
            until(nodes, always, f)
        }
        Prefix::Globally => {
            let always = truth(nodes)?;
            let failure = until(nodes, always, negation(f))?;
            Ok(negation(failure))
        }
    }
}

/// Appends the parts for `f W g`.
fn weak_until(
    nodes: &mut Vec<NormalNode>,
    f: NegationPair,
    g: NegationPair,
) -> Result<NegationPair, AllocError>
    requires ordered { AreNormalNodes nodes.old.items }
    requires f { IsWithin nodes.old.items f }
    requires g { IsWithin nodes.old.items g }
    ensures { IfOk result (λ pair. (a b : formulas.Formula) → StandsFor nodes.old.items f a → StandsFor nodes.old.items g b
        → AddsFormula nodes.old.items nodes.new.items pair (two Weak a b)) }
{
    let some = disjunction(nodes, f, g)?;
    let failure = until(nodes, negation(g), negation(some))?;
    Ok(negation(failure))
}

/// Appends the parts for an infix operator applied to `f` and `g`.
fn joined(
    nodes: &mut Vec<NormalNode>,
    op: Infix,
    f: NegationPair,
    g: NegationPair,
) -> Result<NegationPair, AllocError>
    requires ordered { AreNormalNodes nodes.old.items }
    requires f { IsWithin nodes.old.items f }
    requires g { IsWithin nodes.old.items g }
    ensures { IfOk result (λ pair. (a b : formulas.Formula) → StandsFor nodes.old.items f a → StandsFor nodes.old.items g b
        → AddsFormula nodes.old.items nodes.new.items pair (two op a b)) }
{
    match op {
        Infix::Implies => disjunction(nodes, negation(f), g),
        Infix::Equivalent => equivalence(nodes, f, g),
        Infix::Or => disjunction(nodes, f, g),
        Infix::Exclusive => Ok(negation(equivalence(nodes, f, g)?)),
        Infix::And => Ok(negation(disjunction(nodes, negation(f), negation(g))?)),
        Infix::Also => Ok(negation(disjunction(nodes, negation(f), negation(g))?)),
        Infix::Until => until(nodes, f, g),
        Infix::Release => Ok(negation(until(nodes, negation(f), negation(g))?)),
        Infix::Weak => weak_until(nodes, f, g),
        Infix::Strong => Ok(negation(weak_until(nodes, negation(f), negation(g))?)),
    }
}

/// Appends the parts for `node`, whose operands are looked up in `pairs` by their places.
fn added(
    nodes: &mut Vec<NormalNode>,
    pairs: &[NegationPair],
    node: FormulaNode,
) -> Result<NegationPair, AllocError>
    requires ordered { AreNormalNodes nodes.old.items }
    requires within { AreWithin nodes.old.items pairs.now }
    requires reach { reach node ≤ length pairs.now }
    ensures { IfOk result (λ pair. (fs : List formulas.Formula) → PairsStand nodes.old.items pairs.now fs
        → AddsFormula nodes.old.items nodes.new.items pair (formula_at fs node)) }
{
    match node {
        FormulaNode::Constant(true) => truth(nodes),
        FormulaNode::Constant(false) => Ok(negation(truth(nodes)?)),
        FormulaNode::Proposition(p) => proposition(nodes, p),
        FormulaNode::Bracket(a) => Ok(pairs[a]),
        FormulaNode::One(op, a) => prefixed(nodes, op, pairs[a]),
        FormulaNode::Two(op, a, b) => joined(nodes, op, pairs[a], pairs[b]),
    }
}

/// Returns the negation normal form of the formula if `positive`, or of its negation if not. It has at most six times as many parts as
/// the formula. Fails only if an allocation fails.
pub fn normal_form(
    alloc: Global,
    formula: &Formula,
    positive: bool,
) -> Result<NormalForm, AllocError>
    ensures { IfOk result (λ found. form found ≡ normal positive (written formula.now)) }
{
    let mut nodes = Vec::new(alloc);
    let mut pairs = Vec::new(alloc);
    for place in 0..formula.nodes.len() {
        let pair = added(&mut nodes, &pairs, formula.nodes[place])?;
        pairs.push(pair)?;
    }
    let root = side(pairs[formula.root], positive);
    Ok(NormalForm { nodes, root })
}
