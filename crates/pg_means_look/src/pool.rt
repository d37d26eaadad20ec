//! Lists of choices in a pool, each made only once. At most letters, the list of a formula, or of a set of formulas, is there already.

ghost use Rattle.std.specs.Prelude.{◌≡◌, ◌<◌, ◌≤◌, ◌++◌, ◌∷◌, [], ℕ, Bool, List, All, IfOk, length, if◌then◌else◌};
ghost use Rattle.std.specs.Bool.{OnTrue};
ghost use Rattle.std.specs.declared.vec.Vec.{Vec};
ghost use Rattle.std.specs.declared.alloc.Global.{Global};
ghost use Rattle.pg_ltl.specs.NormalForms.{NormalForm};
ghost use Rattle.pg_ltl.specs.Tableaux as tableaux;
ghost use Rattle.pg_ltl.specs.Tableaux.{product, choices, choices_of};
ghost use Rattle.pg_ltl.specs.Mirrors.Nodes.{normal_at, normal_reach, AreNormalNodes};
ghost use Rattle.pg_means_look.specs.Mirrors.Tables.{truth_at};
ghost use Rattle.pg_means_look.specs.Mirrors.Choices.{part, parts, choices_in, AreForms, AreCovered};
ghost use Rattle.pg_means_look.specs.Mirrors.Pools.{list_at, made, IsWithin, IsPool, Stands, Has, AreRows, AreNumbers, IsAt};

use crate::automaton::holds;
use crate::choice::{Choice, all_of, alone, asked, free, product_of, put_off};
use crate::values::node_at;
use indexmap::IndexSet;
use pg_ltl::NormalNode;
use std::alloc::{AllocError, Global};

/// Once there are more lists than this, all are dropped before the next letter.
const MOST_LISTS: usize = 1 << 14;

/// What a list of choices is made of: other lists, by their numbers, and formulas, by their places.
#[derive(Clone, Copy, Debug, PartialEq, Eq, Hash)]
pub enum Origin {
    /// The single choice that asks for nothing.
    Free,
    /// No choice.
    Nothing,
    /// The single choice that asks for a formula.
    Asked(usize),
    /// The single choice that puts off an Until.
    PutOff(usize),
    /// What each choice of the first list and each of the second ask for together.
    Product(usize, usize),
    /// The choices of both lists.
    Union(usize, usize),
}

/// A list of choices, and its origin.
#[derive(Debug, Drop)]
pub struct Pooled {
    pub origin: Origin,
    pub list: Vec<Choice>,
}

/// Lists of choices, by their numbers.
#[derive(Drop)]
pub struct Pool {
    pub lists: Vec<Pooled>,
    /// The origins of the lists, in the same order. What is found there is checked.
    origins: IndexSet<Origin>,
}

/// Returns the list with this number; past the last list, an empty one.
pub(crate) fn list_at(lists: &[Pooled], number: usize) -> &[Choice]
    ensures { result.now ≡ list_at lists.now number }
{
    match lists.get(number) {
        Some(found) => found.list.as_slice(),
        None => &[],
    }
}

/// Whether the origins are equal.
fn is_same(a: Origin, b: Origin) -> bool
    ensures { OnTrue result (a ≡ b) }
{
    a == b
}

/// Returns the origin of a literal's choices where its proposition's value is `held` and the literal asks for `value`.
fn literal(held: bool, value: bool) -> Origin
    ensures within { (count : ℕ) → IsWithin count result }
    ensures made { (forms : List NormalForm) (lists : List Pooled)
        → made forms lists result ≡ (if tableaux.same held value then tableaux.free ∷ [] else []) }
{
    if held == value {
        Origin::Free
    } else {
        Origin::Nothing
    }
}

impl Pool {
    /// Returns a pool without lists.
    pub fn new(alloc: Global) -> Pool
        ensures { result.lists.items ≡ [] }
    {
        Pool {
            lists: Vec::new(alloc),
            origins: IndexSet::new(alloc),
        }
    }

    /// Drops all lists if there are too many.
    pub(crate) fn clear_if_full(&mut self, alloc: Global)
        ensures { (forms : List NormalForm) → IsPool forms self.old.lists.items → IsPool forms self.new.lists.items }
    {
        if self.lists.len() > MOST_LISTS {
            *self = Pool::new(alloc);
        }
    }

    /// Returns the list with this number; past the last list, an empty one.
    pub fn list(&self, number: usize) -> &[Choice]
        ensures { result.now ≡ list_at self.now.lists.items number }
    {
        list_at(&self.lists, number)
    }

    /// Whether the list with this number has the origin.
    fn is_of(&self, number: usize, origin: Origin) -> bool
        ensures { OnTrue result (IsAt self.now.lists.items origin number) }
    {
        if number >= self.lists.len() {
            return false;
        }
        is_same(self.lists[number].origin, origin)
    }

    /// Builds the list of an origin.
    fn list_of(&self, alloc: Global, origin: Origin) -> Result<Vec<Choice>, AllocError>
        ensures { IfOk result (λ list. (forms : List NormalForm)
            → AreCovered (choices_in forms list.items) (made forms self.now.lists.items origin)) }
    {
        match origin {
            Origin::Free => alone(alloc, free(alloc)),
            Origin::Nothing => Ok(Vec::new(alloc)),
            Origin::Asked(place) => alone(alloc, asked(alloc, place)?),
            Origin::PutOff(place) => alone(alloc, put_off(alloc, place)?),
            Origin::Product(a, b) => product_of(
                alloc,
                list_at(&self.lists, a),
                list_at(&self.lists, b),
            ),
            Origin::Union(a, b) => all_of(alloc, list_at(&self.lists, a), list_at(&self.lists, b)),
        }
    }

    /// Adds a list and returns its number.
    fn add(&mut self, list: Pooled) -> Result<usize, AllocError>
        ensures { IfOk result (λ number. (number ≡ length self.old.lists.items)
            × (self.new.lists.items ≡ self.old.lists.items ++ list ∷ [])) }
    {
        let number = self.lists.len();
        let _ = self.origins.insert_full(list.origin)?;
        self.lists.push(list)?;
        Ok(number)
    }

    /// Returns the number of the list of an origin, building the list if it isn't there.
    fn number(&mut self, alloc: Global, origin: Origin) -> Result<usize, AllocError>
        ensures { IfOk result (λ number. (forms : List NormalForm) → IsPool forms self.old.lists.items
            → IsWithin (length self.old.lists.items) origin
            → Has forms self.old.lists.items self.new.lists.items (made forms self.old.lists.items origin) number) }
    {
        let found = self.origins.get_index_of(&origin);
        let number = found.unwrap_or(self.lists.len());
        if self.is_of(number, origin) {
            return Ok(number);
        }
        let list = self.list_of(alloc, origin)?;
        self.add(Pooled { origin, list })
    }

    /// Whether the list with this number is empty.
    fn is_nothing(&self, number: usize) -> bool
        ensures { OnTrue result (list_at self.now.lists.items number ≡ []) }
    {
        list_at(&self.lists, number).is_empty()
    }

    /// Whether the list with this number consists of just the choice that asks for nothing.
    fn is_free(&self, number: usize) -> bool {
        match list_at(&self.lists, number) {
            [choice] => choice.asks.is_empty() && choice.puts.is_empty(),
            _ => false,
        }
    }

    /// Returns the number of the list of what each choice of list `a` and each of list `b` ask for together. A product with an empty
    /// list, or with the choice that asks for nothing, gets the number of an existing list.
    fn product(&mut self, alloc: Global, a: usize, b: usize) -> Result<usize, AllocError>
        ensures { IfOk result (λ number. (forms : List NormalForm) (first second : List tableaux.Choice) → IsPool forms self.old.lists.items
            → Stands forms self.old.lists.items first a → Stands forms self.old.lists.items second b
            → Has forms self.old.lists.items self.new.lists.items (product first second) number) }
    {
        if self.is_nothing(b) || self.is_free(a) {
            return Ok(b);
        }
        if self.is_nothing(a) || self.is_free(b) {
            return Ok(a);
        }
        self.number(alloc, Origin::Product(a, b))
    }

    /// Returns the number of the list of the choices of both lists.
    fn union(&mut self, alloc: Global, a: usize, b: usize) -> Result<usize, AllocError>
        ensures { IfOk result (λ number. (forms : List NormalForm) (first second : List tableaux.Choice) → IsPool forms self.old.lists.items
            → Stands forms self.old.lists.items first a → Stands forms self.old.lists.items second b
            → Has forms self.old.lists.items self.new.lists.items (first ++ second) number) }
    {
        if self.is_nothing(a) {
            return Ok(b);
        }
        if self.is_nothing(b) {
            return Ok(a);
        }
        self.number(alloc, Origin::Union(a, b))
    }

    /// Returns the number of the choices of an Until at this place: the right side now, or the left side now and the Until put off.
    fn until(
        &mut self,
        alloc: Global,
        left: usize,
        right: usize,
        place: usize,
    ) -> Result<usize, AllocError>
        ensures { IfOk result (λ number. (forms : List NormalForm) (ls rs : List tableaux.Choice) → IsPool forms self.old.lists.items
            → Stands forms self.old.lists.items ls left → Stands forms self.old.lists.items rs right
            → Has forms self.old.lists.items self.new.lists.items (rs ++ product ls (tableaux.put_off (part forms place) ∷ [])) number) }
    {
        let off = self.number(alloc, Origin::PutOff(place))?;
        let later = self.product(alloc, left, off)?;
        self.union(alloc, right, later)
    }

    /// Returns the number of the choices of a Release at this place: the right side now, and the left side now or the Release again.
    fn release(
        &mut self,
        alloc: Global,
        left: usize,
        right: usize,
        place: usize,
    ) -> Result<usize, AllocError>
        ensures { IfOk result (λ number. (forms : List NormalForm) (ls rs : List tableaux.Choice) → IsPool forms self.old.lists.items
            → Stands forms self.old.lists.items ls left → Stands forms self.old.lists.items rs right
            → Has forms self.old.lists.items self.new.lists.items (product rs (ls ++ tableaux.asked (part forms place) ∷ [])) number) }
    {
        let again = self.number(alloc, Origin::Asked(place))?;
        let ways = self.union(alloc, left, again)?;
        self.product(alloc, right, ways)
    }

    /// Returns the number of the choices of the next formula, `node`. `rows` has the numbers of the choices of the formulas before it.
    fn row(
        &mut self,
        alloc: Global,
        node: NormalNode,
        rows: &[usize],
        truths: &[Vec<bool>],
        letter: u32,
    ) -> Result<usize, AllocError>
        requires { normal_reach node ≤ length rows.now }
        ensures { IfOk result (λ number. (forms : List NormalForm) → IsPool forms self.old.lists.items
            → AreRows (λ p. truth_at truths.now p letter) forms self.old.lists.items rows.now
            → part forms (length rows.now) ≡ normal_at forms node
            → Has forms self.old.lists.items self.new.lists.items
            (choices (λ p. truth_at truths.now p letter) (part forms (length rows.now))) number) }
    {
        let place = rows.len();
        match node {
            NormalNode::Top => self.number(alloc, Origin::Free),
            NormalNode::Bottom => self.number(alloc, Origin::Nothing),
            NormalNode::Literal(p, value) => self.number(
                alloc,
                literal(holds(truths, p, letter), value),
            ),
            NormalNode::Both(a, b) => self.product(alloc, rows[a], rows[b]),
            NormalNode::Either(a, b) => self.union(alloc, rows[a], rows[b]),
            NormalNode::Next(a) => self.number(alloc, Origin::Asked(a)),
            NormalNode::Until(a, b) => self.until(alloc, rows[a], rows[b], place),
            NormalNode::Release(a, b) => self.release(alloc, rows[a], rows[b], place),
        }
    }

    /// Returns for each formula of a list the number of its choices at a letter. `truths` says for each proposition at which letters it
    /// holds. Fails only if an allocation fails.
    pub fn rows(
        &mut self,
        alloc: Global,
        nodes: &[NormalNode],
        truths: &[Vec<bool>],
        letter: u32,
    ) -> Result<Vec<usize>, AllocError>
        requires { AreNormalNodes nodes.now }
        ensures len { IfOk result (λ rows. length rows.items ≡ length nodes.now) }
        ensures rows { IfOk result (λ rows. (forms : List NormalForm) → AreForms nodes.now forms → IsPool forms self.old.lists.items
            → IsPool forms self.new.lists.items
            × AreRows (λ p. truth_at truths.now p letter) forms self.new.lists.items rows.items) }
    {
        let mut rows = Vec::new(alloc);
        for place in 0..nodes.len() {
            rows.push(self.row(alloc, node_at(nodes, place), &rows, truths, letter)?)?;
        }
        Ok(rows)
    }

    /// Returns the number of the choices of a set of formulas. `rows` has the number of the choices of each formula, and every place in
    /// `set` must be below its length. Fails only if an allocation fails.
    pub fn set(&mut self, alloc: Global, set: &[usize], rows: &[usize]) -> Result<usize, AllocError>
        requires { All (λ place. place < length rows.now) set.now }
        ensures { IfOk result (λ number. (forms : List NormalForm) (letter : ℕ → Bool) → IsPool forms self.old.lists.items
            → AreRows letter forms self.old.lists.items rows.now
            → Has forms self.old.lists.items self.new.lists.items (choices_of letter (parts forms set.now)) number) }
    {
        let mut number = self.number(alloc, Origin::Free)?;
        let mut i = set.len();
        while i > 0 {
            i -= 1;
            number = self.product(alloc, rows[set[i]], number)?;
        }
        Ok(number)
    }

    /// Returns for each set the number of its choices, by the numbers of the choices of each formula.
    pub(crate) fn numbers(
        &mut self,
        alloc: Global,
        sets: &[Vec<usize>],
        rows: &[usize],
    ) -> Result<Vec<usize>, AllocError>
        requires { All (λ (set : Vec ℕ Global). All (λ place. place < length rows.now) set.items) sets.now }
        ensures { IfOk result (λ numbers. (forms : List NormalForm) (letter : ℕ → Bool) → IsPool forms self.old.lists.items
            → AreRows letter forms self.old.lists.items rows.now
            → IsPool forms self.new.lists.items × AreNumbers letter forms sets.now self.new.lists.items numbers.items) }
    {
        let mut numbers = Vec::new(alloc);
        for set in sets {
            numbers.push(self.set(alloc, set, rows)?)?;
        }
        Ok(numbers)
    }
}
