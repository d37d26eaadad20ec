//! The identifiers of lines, in the order of the lines.

ghost use Rattle.std.specs.Prelude.{◌≡◌, ℕ, ◌++◌, ◌∷◌, [], ◌==◌, IsTrue, IfOk, OnOk, OnErr};
ghost use Rattle.std.specs.List.{list_any};
ghost use Rattle.std.specs.List.Sorted.{IsStrictlyIncreasing};
ghost use Rattle.std.specs.Ordering.{nat_cmp};
ghost use Rattle.std.specs.BTreeSet.{contains};
ghost use Rattle.pg_arena.specs.Mirrors.Entries.{AreTold};

use std::alloc::{AllocError, Global};
use std::collections::BTreeSet;
use std::marker::Model;

/// The identifiers in the order in which they came. As long as they rise, only the list is kept.
#[derive(Drop)]
pub(crate) struct Identifiers {
    list: Vec<u32>,
    set: Option<BTreeSet<u32>>,
    alloc: Global,
}

impl Model for Identifiers {
    ghost use Rattle.std.specs.Prelude.{List, ℕ};
    ghost use Rattle.pg_arena.specs.Mirrors.Entries.{AreTold};

    ghost Value = { List ℕ };

    ghost view = { λ i. i.list.items };

    ghost invariant = { λ i. AreTold i.list.items i.set };
}

impl Identifiers {
    pub fn new(alloc: Global) -> Identifiers
        ensures { result ≡ [] }
    {
        Identifiers {
            list: Vec::new(alloc),
            set: None,
            alloc,
        }
    }

    /// Whether the identifiers rise.
    pub fn rise(&self) -> bool
        ensures { IsTrue result → IsStrictlyIncreasing self.now }
    {
        self.set.is_none()
    }

    /// Whether this is one of the identifiers.
    pub fn contains(&self, identifier: u32) -> bool
        ensures { result ≡ list_any (λ x. identifier == x) self.now }
    {
        match &self.set {
            Some(set) => set.contains(&identifier),
            None => contains_rising(&self.list, identifier),
        }
    }

    /// Appends an identifier.
    #[inline(always)]
    pub fn push(&mut self, identifier: u32) -> Result<(), AllocError>
        ensures ok { OnOk result (self.new ≡ self.old ++ identifier ∷ []) }
        ensures err { OnErr result (self.new ≡ self.old) }
    {
        self.list.reserve(1)?;
        note(self.alloc, &self.list, &mut self.set, identifier)?;
        self.list.push_reserved(identifier);
        Ok(())
    }

    /// Returns the list of the identifiers.
    pub fn into_list(self) -> Vec<u32>
        ensures { result.items ≡ self }
    {
        let Identifiers {
            list,
            set: _,
            alloc: _,
        } = self;
        list
    }
}

/// Gets the set ready for one more identifier. If the identifiers still rise, no set is needed.
#[inline(always)]
fn note(
    alloc: Global,
    list: &[u32],
    set: &mut Option<BTreeSet<u32>>,
    identifier: u32,
) -> Result<(), AllocError>
    requires { AreTold list.now set.old }
    ensures ok { OnOk result (AreTold (list.now ++ identifier ∷ []) set.new) }
    ensures err { OnErr result (AreTold list.now set.new) }
{
    if let Some(set) = set {
        set.insert(identifier)?;
        return Ok(());
    }
    if is_above(list, identifier) {
        return Ok(());
    }
    let mut all = set_of(alloc, list)?;
    all.insert(identifier)?;
    *set = Some(all);
    Ok(())
}

fn set_of(alloc: Global, numbers: &[u32]) -> Result<BTreeSet<u32>, AllocError>
    ensures { IfOk result (λ set. (q : ℕ) → contains nat_cmp set q ≡ list_any (λ x. q == x) numbers.now) }
{
    numbers.iter().copied().collect(alloc)
}

/// Whether the number is above all of these, which rise.
fn is_above(numbers: &[u32], number: u32) -> bool
    requires { IsStrictlyIncreasing numbers.now }
    ensures { IsTrue result → IsStrictlyIncreasing (numbers.now ++ number ∷ []) }
{
    match numbers.last() {
        Some(last) => *last < number,
        None => true,
    }
}

/// Whether the number is one of these, which rise.
fn contains_rising(numbers: &[u32], number: u32) -> bool
    requires { IsStrictlyIncreasing numbers.now }
    ensures { result ≡ list_any (λ x. number == x) numbers.now }
{
    match numbers.last() {
        Some(last) if *last >= number => numbers.binary_search(&number).is_ok(),
        _ => false,
    }
}
