//! The places of formulas and of their negations in a list of parts.

ghost use Rattle.std.specs.Prelude.{◌≡◌, ◌≤◌, length, IfOk, true, false};
ghost use Rattle.pg_ltl.specs.NormalForms.{top, bottom, literal, both, either, next, until, release};
ghost use Rattle.pg_ltl.specs.Mirrors.Nodes.{AreNormalNodes, normal_at, normals_of, normal_in, normal_reach};
ghost use Rattle.pg_ltl.specs.Mirrors.Pairs.{AddsNode, AddsPair, IsWithin, negated, side};

use crate::normal::NormalNode;
use std::alloc::AllocError;

/// The places of a formula and of its negation.
#[derive(Clone, Copy)]
pub struct NegationPair {
    pub yes: usize,
    pub no: usize,
}

/// Returns the places of the negation: the same two, swapped.
pub fn negation(pair: NegationPair) -> NegationPair
    ensures { result ≡ negated pair }
{
    NegationPair {
        yes: pair.no,
        no: pair.yes,
    }
}

/// Returns the place of the formula if `positive`, or of its negation if not.
pub fn side(pair: NegationPair, positive: bool) -> usize
    ensures { result ≡ side pair positive }
{
    if positive { pair.yes } else { pair.no }
}

/// Appends a part and returns its place.
fn put(nodes: &mut Vec<NormalNode>, node: NormalNode) -> Result<usize, AllocError>
    requires ordered { AreNormalNodes nodes.old.items }
    requires reach { normal_reach node ≤ length nodes.old.items }
    ensures { IfOk result (λ place. AddsNode nodes.old.items nodes.new.items place (normal_at (normals_of nodes.old.items) node)) }
{
    let place = nodes.len();
    nodes.push(node)?;
    Ok(place)
}

/// Appends the constant that always holds, and its negation.
pub fn truth(nodes: &mut Vec<NormalNode>) -> Result<NegationPair, AllocError>
    requires ordered { AreNormalNodes nodes.old.items }
    ensures { IfOk result (λ pair. AddsPair nodes.old.items nodes.new.items pair top bottom) }
{
    let yes = put(nodes, NormalNode::Top)?;
    let no = put(nodes, NormalNode::Bottom)?;
    Ok(NegationPair { yes, no })
}

/// Appends a proposition and its negation.
pub fn proposition(nodes: &mut Vec<NormalNode>, p: u32) -> Result<NegationPair, AllocError>
    requires ordered { AreNormalNodes nodes.old.items }
    ensures { IfOk result (λ pair. AddsPair nodes.old.items nodes.new.items pair (literal p true) (literal p false)) }
{
    let yes = put(nodes, NormalNode::Literal(p, true))?;
    let no = put(nodes, NormalNode::Literal(p, false))?;
    Ok(NegationPair { yes, no })
}

/// Appends `X f` and its negation.
pub fn at_next(nodes: &mut Vec<NormalNode>, f: NegationPair) -> Result<NegationPair, AllocError>
    requires ordered { AreNormalNodes nodes.old.items }
    requires f { IsWithin nodes.old.items f }
    ensures { IfOk result (λ pair. AddsPair nodes.old.items nodes.new.items pair
        (next (normal_in nodes.old.items f.yes)) (next (normal_in nodes.old.items f.no))) }
{
    let yes = put(nodes, NormalNode::Next(f.yes))?;
    let no = put(nodes, NormalNode::Next(f.no))?;
    Ok(NegationPair { yes, no })
}

/// Appends `f | g` and its negation.
pub fn disjunction(
    nodes: &mut Vec<NormalNode>,
    f: NegationPair,
    g: NegationPair,
) -> Result<NegationPair, AllocError>
    requires ordered { AreNormalNodes nodes.old.items }
    requires f { IsWithin nodes.old.items f }
    requires g { IsWithin nodes.old.items g }
    ensures { IfOk result (λ pair. AddsPair nodes.old.items nodes.new.items pair
        (either (normal_in nodes.old.items f.yes) (normal_in nodes.old.items g.yes))
        (both (normal_in nodes.old.items f.no) (normal_in nodes.old.items g.no))) }
{
    let yes = put(nodes, NormalNode::Either(f.yes, g.yes))?;
    let no = put(nodes, NormalNode::Both(f.no, g.no))?;
    Ok(NegationPair { yes, no })
}

/// Appends `f U g` and its negation.
pub fn until(
    nodes: &mut Vec<NormalNode>,
    f: NegationPair,
    g: NegationPair,
) -> Result<NegationPair, AllocError>
    requires ordered { AreNormalNodes nodes.old.items }
    requires f { IsWithin nodes.old.items f }
    requires g { IsWithin nodes.old.items g }
    ensures { IfOk result (λ pair. AddsPair nodes.old.items nodes.new.items pair
        (until (normal_in nodes.old.items f.yes) (normal_in nodes.old.items g.yes))
        (release (normal_in nodes.old.items f.no) (normal_in nodes.old.items g.no))) }
{
    let yes = put(nodes, NormalNode::Until(f.yes, g.yes))?;
    let no = put(nodes, NormalNode::Release(f.no, g.no))?;
    Ok(NegationPair { yes, no })
}

/// Appends a formula that holds where `f` and `g` both hold or neither does, and returns its place.
fn agreement(
    nodes: &mut Vec<NormalNode>,
    f: NegationPair,
    g: NegationPair,
) -> Result<usize, AllocError>
    requires ordered { AreNormalNodes nodes.old.items }
    requires f { IsWithin nodes.old.items f }
    requires g { IsWithin nodes.old.items g }
    ensures { IfOk result (λ place. AddsNode nodes.old.items nodes.new.items place
        (either (both (normal_in nodes.old.items f.yes) (normal_in nodes.old.items g.yes))
        (both (normal_in nodes.old.items f.no) (normal_in nodes.old.items g.no)))) }
{
    let yes = put(nodes, NormalNode::Both(f.yes, g.yes))?;
    let no = put(nodes, NormalNode::Both(f.no, g.no))?;
    let place = put(nodes, NormalNode::Either(yes, no))?;
    Ok(place)
}

/// Appends `f <-> g` and its negation.
pub fn equivalence(
    nodes: &mut Vec<NormalNode>,
    f: NegationPair,
    g: NegationPair,
) -> Result<NegationPair, AllocError>
    requires ordered { AreNormalNodes nodes.old.items }
    requires f { IsWithin nodes.old.items f }
    requires g { IsWithin nodes.old.items g }
    ensures { IfOk result (λ pair. AddsPair nodes.old.items nodes.new.items pair
        (either (both (normal_in nodes.old.items f.yes) (normal_in nodes.old.items g.yes))
        (both (normal_in nodes.old.items f.no) (normal_in nodes.old.items g.no)))
        (either (both (normal_in nodes.old.items f.yes) (normal_in nodes.old.items g.no))
        (both (normal_in nodes.old.items f.no) (normal_in nodes.old.items g.yes)))) }
{
    let yes = agreement(nodes, f, g)?;
    let no = agreement(nodes, f, negation(g))?;
    Ok(NegationPair { yes, no })
}
