//! Normal forms without parts that repeat what others say.

ghost use Rattle.std.specs.Prelude.{◌≡◌, ◌<◌, ◌≤◌, true, List, length, IfOk, IfSome};
ghost use Rattle.pg_ltl.specs.NormalForms.{NormalForm as Form, top, bottom, both, either, until, release, normal};
ghost use Rattle.pg_ltl.specs.Mirrors.Nodes.{AreNormalNodes, normal_at, normals_of, normal_in, normal_node_in, normal_reach};
ghost use Rattle.pg_ltl.specs.Mirrors.Pairs.{AddsNode};
ghost use Rattle.pg_ltl.specs.Mirrors.Views.{written, form};
ghost use Rattle.pg_means.specs.Mirrors.Simplified.{SayTheSame, AddsSame, HasOperand, AreBelow, PlacesStand};

use pg_ltl::{Formula, NormalForm, NormalNode, normal_form};
use std::alloc::{AllocError, Global};
use std::collections::BTreeMap;

/// The places of the two operands of `true U f`, which is `F f`, or of `false R f`, which is `G f`.
#[derive(Clone, Copy)]
struct Operand {
    constant: usize,
    operand: usize,
}

/// The key of a part: its operator and its operands.
type PartKey = (u8, usize, usize);

fn key_of(node: NormalNode) -> PartKey {
    match node {
        NormalNode::Top => (0, 0, 0),
        NormalNode::Bottom => (1, 0, 0),
        NormalNode::Literal(p, value) => (2, p as usize, value as usize),
        NormalNode::Both(a, b) => (3, a, b),
        NormalNode::Either(a, b) => (4, a, b),
        NormalNode::Next(a) => (5, a, 0),
        NormalNode::Until(a, b) => (6, a, b),
        NormalNode::Release(a, b) => (7, a, b),
    }
}

/// Returns the place of the part, if it is known.
fn known_place(
    nodes: &[NormalNode],
    known: &BTreeMap<PartKey, usize>,
    node: NormalNode,
) -> Option<usize>
    ensures { IfSome result (λ place. (place < length nodes.now) × (normal_node_in nodes.now place ≡ node)) }
{
    let place = *known.get(&key_of(node))?;
    let there = *nodes.get(place)?;
    (there == node).then_some(place)
}

/// Returns the place of a part, appending the part if it isn't known. The entries of `known` are checked before use.
fn put(
    nodes: &mut Vec<NormalNode>,
    known: &mut BTreeMap<PartKey, usize>,
    node: NormalNode,
) -> Result<usize, AllocError>
    requires ordered { AreNormalNodes nodes.old.items }
    requires reach { normal_reach node ≤ length nodes.old.items }
    ensures { IfOk result (λ place. AddsNode nodes.old.items nodes.new.items place (normal_at (normals_of nodes.old.items) node)) }
{
    if let Some(place) = known_place(nodes, known, node) {
        return Ok(place);
    }
    let place = nodes.len();
    nodes.push(node)?;
    known.insert(key_of(node), place)?;
    Ok(place)
}

/// Returns the operands of the part at `place` if it is `F f`.
fn eventual(nodes: &[NormalNode], place: usize) -> Option<Operand>
    requires ordered { AreNormalNodes nodes.now }
    requires below { place < length nodes.now }
    ensures { IfSome result (λ found. HasOperand until top nodes.now place found) }
{
    if let NormalNode::Until(constant, operand) = nodes[place] {
        if nodes[constant] == NormalNode::Top {
            return Some(Operand { constant, operand });
        }
    }
    None
}

/// Returns the operands of the part at `place` if it is `G f`.
fn invariant(nodes: &[NormalNode], place: usize) -> Option<Operand>
    requires ordered { AreNormalNodes nodes.now }
    requires below { place < length nodes.now }
    ensures { IfSome result (λ found. HasOperand release bottom nodes.now place found) }
{
    if let NormalNode::Release(constant, operand) = nodes[place] {
        if nodes[constant] == NormalNode::Bottom {
            return Some(Operand { constant, operand });
        }
    }
    None
}

/// Returns the operands of the part at `place` if it is `G F f`, those of the outer operator first.
fn recurrent(nodes: &[NormalNode], place: usize) -> Option<(Operand, Operand)>
    requires ordered { AreNormalNodes nodes.now }
    requires below { place < length nodes.now }
    ensures { IfSome result (λ found. HasOperand release bottom nodes.now place found.0 × HasOperand until top nodes.now found.0.operand found.1) }
{
    let outer = invariant(nodes, place)?;
    let inner = eventual(nodes, outer.operand)?;
    Some((outer, inner))
}

/// Returns the operands of the part at `place` if it is `F G f`, those of the outer operator first.
fn persistent(nodes: &[NormalNode], place: usize) -> Option<(Operand, Operand)>
    requires ordered { AreNormalNodes nodes.now }
    requires below { place < length nodes.now }
    ensures { IfSome result (λ found. HasOperand until top nodes.now place found.0 × HasOperand release bottom nodes.now found.0.operand found.1) }
{
    let outer = eventual(nodes, place)?;
    let inner = invariant(nodes, outer.operand)?;
    Some((outer, inner))
}

/// Whether the part's form shows that it holds wherever it holds at some step from there on: it is `F f` or `G F f`.
fn holds_if_ever(nodes: &[NormalNode], place: usize) -> bool
    requires ordered { AreNormalNodes nodes.now }
    requires below { place < length nodes.now }
    ensures { result ≡ true → SayTheSame (normal_in nodes.now place) (until top (normal_in nodes.now place)) }
{
    if let Some(_found) = eventual(nodes, place) {
        return true;
    }
    if let Some(_found) = recurrent(nodes, place) {
        return true;
    }
    false
}

/// Whether the part's form shows that it holds for ever once it holds: it is `G f` or `F G f`.
fn holds_on(nodes: &[NormalNode], place: usize) -> bool
    requires ordered { AreNormalNodes nodes.now }
    requires below { place < length nodes.now }
    ensures { result ≡ true → SayTheSame (normal_in nodes.now place) (release bottom (normal_in nodes.now place)) }
{
    if let Some(_found) = invariant(nodes, place) {
        return true;
    }
    if let Some(_found) = persistent(nodes, place) {
        return true;
    }
    false
}

/// Appends `F G f & F G g`, as `F G (f & g)`.
fn both_persistent(
    nodes: &mut Vec<NormalNode>,
    known: &mut BTreeMap<PartKey, usize>,
    f: (Operand, Operand),
    g: usize,
) -> Result<usize, AllocError>
    requires ordered { AreNormalNodes nodes.old.items }
    requires f { f.0.constant < length nodes.old.items × f.1.constant < length nodes.old.items × f.1.operand < length nodes.old.items }
    requires g { g < length nodes.old.items }
    ensures { IfOk result (λ place. AddsNode nodes.old.items nodes.new.items place
        (until (normal_in nodes.old.items f.0.constant) (release (normal_in nodes.old.items f.1.constant)
        (both (normal_in nodes.old.items f.1.operand) (normal_in nodes.old.items g))))) }
{
    let (outer, inner) = f;
    let operands = put(nodes, known, NormalNode::Both(inner.operand, g))?;
    let always = put(nodes, known, NormalNode::Release(inner.constant, operands))?;
    let place = put(nodes, known, NormalNode::Until(outer.constant, always))?;
    Ok(place)
}

/// Appends `G F f | G F g`, as `G F (f | g)`.
fn either_recurrent(
    nodes: &mut Vec<NormalNode>,
    known: &mut BTreeMap<PartKey, usize>,
    f: (Operand, Operand),
    g: usize,
) -> Result<usize, AllocError>
    requires ordered { AreNormalNodes nodes.old.items }
    requires f { f.0.constant < length nodes.old.items × f.1.constant < length nodes.old.items × f.1.operand < length nodes.old.items }
    requires g { g < length nodes.old.items }
    ensures { IfOk result (λ place. AddsNode nodes.old.items nodes.new.items place
        (release (normal_in nodes.old.items f.0.constant) (until (normal_in nodes.old.items f.1.constant)
        (either (normal_in nodes.old.items f.1.operand) (normal_in nodes.old.items g))))) }
{
    let (outer, inner) = f;
    let operands = put(nodes, known, NormalNode::Either(inner.operand, g))?;
    let ever = put(nodes, known, NormalNode::Until(inner.constant, operands))?;
    let place = put(nodes, known, NormalNode::Release(outer.constant, ever))?;
    Ok(place)
}

/// Returns the place of a part that says the same as `f & g`, appending parts as needed.
fn conjunction(
    nodes: &mut Vec<NormalNode>,
    known: &mut BTreeMap<PartKey, usize>,
    f: usize,
    g: usize,
) -> Result<usize, AllocError>
    requires ordered { AreNormalNodes nodes.old.items }
    requires f { f < length nodes.old.items }
    requires g { g < length nodes.old.items }
    ensures { IfOk result (λ place. AddsSame nodes.old.items nodes.new.items place
        (both (normal_in nodes.old.items f) (normal_in nodes.old.items g))) }
{
    if f == g {
        return Ok(f);
    }
    if let Some(first) = persistent(nodes, f) {
        if let Some((_outer, inner)) = persistent(nodes, g) {
            let merged = both_persistent(nodes, known, first, inner.operand)?;
            return Ok(merged);
        }
    }
    let place = put(nodes, known, NormalNode::Both(f, g))?;
    Ok(place)
}

/// Returns the place of a part that says the same as `f | g`, appending parts as needed.
fn disjunction(
    nodes: &mut Vec<NormalNode>,
    known: &mut BTreeMap<PartKey, usize>,
    f: usize,
    g: usize,
) -> Result<usize, AllocError>
    requires ordered { AreNormalNodes nodes.old.items }
    requires f { f < length nodes.old.items }
    requires g { g < length nodes.old.items }
    ensures { IfOk result (λ place. AddsSame nodes.old.items nodes.new.items place
        (either (normal_in nodes.old.items f) (normal_in nodes.old.items g))) }
{
    if f == g {
        return Ok(f);
    }
    if let Some(first) = recurrent(nodes, f) {
        if let Some((_outer, inner)) = recurrent(nodes, g) {
            let merged = either_recurrent(nodes, known, first, inner.operand)?;
            return Ok(merged);
        }
    }
    let place = put(nodes, known, NormalNode::Either(f, g))?;
    Ok(place)
}

/// Returns the place of a part that says the same as `f U g`, appending parts as needed.
fn at_last(
    nodes: &mut Vec<NormalNode>,
    known: &mut BTreeMap<PartKey, usize>,
    f: usize,
    g: usize,
) -> Result<usize, AllocError>
    requires ordered { AreNormalNodes nodes.old.items }
    requires f { f < length nodes.old.items }
    requires g { g < length nodes.old.items }
    ensures { IfOk result (λ place. AddsSame nodes.old.items nodes.new.items place
        (until (normal_in nodes.old.items f) (normal_in nodes.old.items g))) }
{
    if nodes[f] == NormalNode::Top {
        if holds_if_ever(nodes, g) {
            return Ok(g);
        }
    }
    let place = put(nodes, known, NormalNode::Until(f, g))?;
    Ok(place)
}

/// Returns the place of a part that says the same as `f R g`, appending parts as needed.
fn as_long(
    nodes: &mut Vec<NormalNode>,
    known: &mut BTreeMap<PartKey, usize>,
    f: usize,
    g: usize,
) -> Result<usize, AllocError>
    requires ordered { AreNormalNodes nodes.old.items }
    requires f { f < length nodes.old.items }
    requires g { g < length nodes.old.items }
    ensures { IfOk result (λ place. AddsSame nodes.old.items nodes.new.items place
        (release (normal_in nodes.old.items f) (normal_in nodes.old.items g))) }
{
    if nodes[f] == NormalNode::Bottom {
        if holds_on(nodes, g) {
            return Ok(g);
        }
    }
    let place = put(nodes, known, NormalNode::Release(f, g))?;
    Ok(place)
}

/// Returns the place of a part without operands, or of `X f`, appending it as needed.
fn plain(
    nodes: &mut Vec<NormalNode>,
    known: &mut BTreeMap<PartKey, usize>,
    node: NormalNode,
) -> Result<usize, AllocError>
    requires ordered { AreNormalNodes nodes.old.items }
    requires reach { normal_reach node ≤ length nodes.old.items }
    ensures { IfOk result (λ place. AddsSame nodes.old.items nodes.new.items place (normal_at (normals_of nodes.old.items) node)) }
{
    let place = put(nodes, known, node)?;
    Ok(place)
}

/// Returns the place of a part that says the same as `node`, whose operands are looked up in `places`, appending parts as needed.
fn added(
    nodes: &mut Vec<NormalNode>,
    known: &mut BTreeMap<PartKey, usize>,
    places: &[usize],
    node: NormalNode,
) -> Result<usize, AllocError>
    requires ordered { AreNormalNodes nodes.old.items }
    requires below { AreBelow (length nodes.old.items) places.now }
    requires reach { normal_reach node ≤ length places.now }
    ensures { IfOk result (λ place. (fs : List Form) → PlacesStand nodes.old.items places.now fs
        → AddsSame nodes.old.items nodes.new.items place (normal_at fs node)) }
{
    match node {
        NormalNode::Top => plain(nodes, known, NormalNode::Top),
        NormalNode::Bottom => plain(nodes, known, NormalNode::Bottom),
        NormalNode::Literal(p, value) => plain(nodes, known, NormalNode::Literal(p, value)),
        NormalNode::Both(a, b) => conjunction(nodes, known, places[a], places[b]),
        NormalNode::Either(a, b) => {
            let some = disjunction(nodes, known, places[a], places[b])?;
            Ok(some)
        }
        NormalNode::Next(a) => plain(nodes, known, NormalNode::Next(places[a])),
        NormalNode::Until(a, b) => {
            let until = at_last(nodes, known, places[a], places[b])?;
            Ok(until)
        }
        NormalNode::Release(a, b) => {
            let release = as_long(nodes, known, places[a], places[b])?;
            Ok(release)
        }
    }
}

/// Returns a normal form that holds on the same words and in which equal parts are one.
fn simplified(alloc: Global, entry: &NormalForm) -> Result<NormalForm, AllocError>
    ensures { IfOk result (λ found. SayTheSame (form found) (form entry.now)) }
{
    let mut nodes = Vec::new(alloc);
    let mut known = BTreeMap::new(alloc);
    let mut places = Vec::new(alloc);
    for part in 0..entry.nodes.len() {
        let place = added(&mut nodes, &mut known, &places, entry.nodes[part])?;
        places.push(place)?;
    }
    let root = places[entry.root];
    Ok(NormalForm { nodes, root })
}

/// Returns a simplified negation normal form of the formula if `positive`, or of its negation if not.
pub(crate) fn simple_form(
    alloc: Global,
    formula: &Formula,
    positive: bool,
) -> Result<NormalForm, AllocError>
    ensures { IfOk result (λ found. SayTheSame (form found) (normal positive (written formula.now))) }
{
    let whole = normal_form(alloc, formula, positive)?;
    let found = simplified(alloc, &whole)?;
    Ok(found)
}
