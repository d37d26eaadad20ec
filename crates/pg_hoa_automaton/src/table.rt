//! The table of steps by state and letter.

ghost use Rattle.std.specs.Prelude.{◌≡◌, map, option_map};
ghost use Rattle.pg_hoa_automaton.specs.Automata.{step};
ghost use Rattle.pg_hoa_automaton.specs.Mirrors.Tables.{numbered, next};

/// A step: the state that it leads to, and the place of its list of sets.
#[derive(Clone, Copy, Debug)]
pub struct Stored {
    pub target: u32,
    pub list: u32,
}

/// The steps by state and letter. The slot `state * letters + letter` has the number of the step in `steps`, counted
/// from 1, or 0 if there is none. The sets of a step are at its place in `lists`.
#[derive(Debug, Drop)]
pub struct Table {
    pub states: u32,
    pub letters: u32,
    pub slots: Vec<u32>,
    pub steps: Vec<Stored>,
    pub lists: Vec<Vec<u32>>,
}

/// Returns where the step with this number, counted from 1, leads, and its list of sets. None for 0, and if there is no
/// step with this number or no list at its place.
pub fn numbered<'a>(
    steps: &[Stored],
    lists: &'a [Vec<u32>],
    number: u32,
) -> Option<(u32, &'a [u32])>
    ensures { option_map (λ x. step x.0 x.1.now) result ≡ numbered steps.now (map (λ v. v.items) lists.now) number }
{
    if number == 0 {
        return None;
    }
    let stored = steps.get(number as usize - 1)?;
    let sets = lists.get(stored.list as usize)?;
    Some((stored.target, sets.as_slice()))
}

impl Table {
    /// Returns the number of states.
    pub fn states(&self) -> u32
        ensures { result ≡ self.now.states }
    {
        self.states
    }

    /// Returns the state to which the letter leads from the given state, and the sets met on the way, the least first.
    /// None if there is no step.
    pub fn next(&self, state: u32, letter: u32) -> Option<(u32, &[u32])>
        ensures { option_map (λ x. step x.0 x.1.now) result ≡ next self.now state letter }
    {
        if state >= self.states || letter >= self.letters {
            return None;
        }
        let slot = state as usize * self.letters as usize + letter as usize;
        let number = self.slots.get(slot)?;
        numbered(&self.steps, &self.lists, *number)
    }
}
