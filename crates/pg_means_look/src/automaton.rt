//! Deterministic parity automata, as tables.

ghost use Rattle.std.specs.Prelude.{◌≡◌, ◌+◌, ◌*◌};
ghost use Rattle.pg_means_look.specs.Mirrors.Tables.{edge_at, truth_at};

/// Where a letter leads from a state, and the priority met on the way.
#[derive(Clone, Copy, Debug, PartialEq, Eq)]
pub struct ParityEdge {
    pub target: u32,
    pub priority: u32,
}

/// A deterministic parity automaton in which every letter leads on from every state. It accepts a word if the greatest priority that
/// recurs is even. Past the ends of its lists, edges lead to state 0 with priority 0, and no proposition holds.
#[derive(Debug, Drop)]
pub struct ParityAutomaton {
    /// The number of letters, which are 0, 1, .. up to `letters - 1`.
    pub letters: u32,
    /// The state where a run starts.
    pub start: u32,
    /// The edges: the edge of a state and a letter is at `state * letters + letter`.
    pub edges: Vec<ParityEdge>,
    /// For each proposition, whether it holds at each letter.
    pub truths: Vec<Vec<bool>>,
}

impl ParityAutomaton {
    /// Returns the edge of the state at the letter; past the end of `edges`, one to state 0 with priority 0.
    pub fn edge(&self, state: u32, letter: u32) -> ParityEdge
        ensures { result ≡ edge_at self.now.edges.items (state * self.now.letters + letter) }
    {
        let place = state as usize * self.letters as usize + letter as usize;
        match self.edges.get(place) {
            Some(edge) => *edge,
            None => ParityEdge {
                target: 0,
                priority: 0,
            },
        }
    }
}

/// Whether the proposition holds at the letter.
pub(crate) fn holds(truths: &[Vec<bool>], proposition: u32, letter: u32) -> bool
    ensures { result ≡ truth_at truths.now proposition letter }
{
    match truths.get(proposition as usize) {
        Some(row) => row.get(letter as usize).copied().unwrap_or(false),
        None => false,
    }
}
