//! Makes the machine that follows a solution of the game of an automaton.

ghost use Rattle.std.specs.Prelude.{◌≡◌, ℕ, ◌+◌, ◌*◌, ◌<◌, ◌++◌, ◌∷◌, [], length, OnOk, IfOk, IfErr};
ghost use Rattle.pg_arena.specs.declared.player.Player.TheVariants.{Even};
ghost use Rattle.pg_arena.specs.Games.{IsWithinLimits};
ghost use Rattle.pg_check.specs.Soundness.{IsSound};
ghost use Rattle.pg_text.specs.Solutions.{IsSolution, winner};
ghost use Rattle.pg_hoa_automaton.specs.Automata.{IsAutomaton};
ghost use Rattle.pg_synth.specs.Answers.{IsSynthGame, IsMealyOf};
ghost use Rattle.pg_synth.specs.AutomatonGames.{StandsFor, input_letters};
ghost use Rattle.pg_synth.specs.Laws.{IsWonBy};
ghost use Rattle.pg_synth.specs.Machines.{Follows, FollowsAt};
ghost use Rattle.pg_synth.specs.Mirrors.Drafts.{IsLeastIfAny, IsWonAt, IsDraft, IsNumbered, state_of};
ghost use Rattle.pg_synth.specs.Mirrors.Layouts.{IsLayoutOf};
ghost use Rattle.pg_synth.specs.declared.fault.SynthFault.TheVariants.{OutOfMemory};
ghost use Rattle.pg_synth.specs.declared.place.Place.TheVariants.{Answer};

use crate::fault::SynthFault;
use crate::game::SynthGame;
use crate::layout::{Layout, count_controlled, layout_of};
use crate::lines::{first_answer, target};
use crate::mealy::{Mealy, Reply};
use indexmap::IndexSet;
use pg_arena::{Player, Vertex};
use pg_hoa_automaton::Automaton;
use pg_text::Solution;
use std::alloc::{AllocError, Global};

/// Returns the machine by which the controller follows a sound solution of the automaton's game, or `None` if and only if Odd wins the
/// vertex where the game begins. Its output letter is always the least one that leads to the chosen successor. Its states are the
/// automaton's states that it can reach, numbered in the order in which a breadth-first search meets them: the initial state first, and
/// for each state its input letters in rising order. The time is linear in the number of these states times letters.
///
/// `synth` must be the automaton's game, and the solution must have a choice wherever the winner owns the vertex. It fails only with
/// `OutOfMemory`.
pub fn mealy_of(
    alloc: Global,
    automaton: &Automaton,
    synth: &SynthGame,
    solution: &Solution,
) -> Result<Option<Mealy>, SynthFault>
    requires game { IsSynthGame automaton.now synth.now.game synth.now.initial }
    requires solution { IsSolution synth.now.game solution.now }
    requires sound { IsSound synth.now.game solution.now }
    ensures machine { IfOk result (IsMealyOf automaton.now synth.now.game synth.now.initial solution.now) }
    ensures memory { IfErr result (λ fault. fault ≡ OutOfMemory) }
{
    // called for what its contract says of the automaton
    let _states = automaton.states();
    match solution.winner(synth.initial) {
        Player::Odd => Ok(None),
        Player::Even => Ok(Some(controller(alloc, automaton, synth, solution)?)),
    }
}

/// Returns the machine, if Even wins.
fn controller(
    alloc: Global,
    automaton: &Automaton,
    synth: &SynthGame,
    solution: &Solution,
) -> Result<Mealy, AllocError>
    requires automaton { IsAutomaton automaton.now }
    requires limits { IsWithinLimits synth.now.game }
    requires won { IsWonBy automaton.now synth.now.game synth.now.initial solution.now Even }
    ensures { IfOk result (Follows automaton.now synth.now.game solution.now) }
{
    let layout = layout_of(alloc, automaton)?;
    let mut draft = MachineDraft::new(alloc, automaton.start())?;
    let mut number = 0;
    while number < draft.states.len() {
        draft.push_row(automaton, &layout, synth, solution, number)?;
        number += 1;
    }
    let outputs = count_controlled(automaton);
    let inputs = automaton.propositions() - outputs;
    let states = draft.states.len() as u32;
    Ok(Mealy::from_parts(states, inputs, outputs, draft.replies))
}

/// A machine that is being built.
#[derive(Drop)]
struct MachineDraft {
    /// The automaton's states, by their numbers in the machine.
    states: IndexSet<u32>,
    /// The replies so far, state by state and input letter by input letter.
    replies: Vec<Reply>,
}

impl MachineDraft {
    /// Returns a draft without replies, in which only the initial state has a number.
    fn new(alloc: Global, start: u32) -> Result<MachineDraft, AllocError>
        ensures states { IfOk result (λ draft. draft.states.keys ≡ start ∷ []) }
        ensures replies { IfOk result (λ draft. draft.replies.items ≡ []) }
    {
        let mut states = IndexSet::new(alloc);
        states.insert(start)?;
        let replies = Vec::new(alloc);
        Ok(MachineDraft { states, replies })
    }

    /// Appends the replies of the state with this number.
    fn push_row(
        &mut self,
        automaton: &Automaton,
        layout: &Layout,
        synth: &SynthGame,
        solution: &Solution,
        number: usize,
    ) -> Result<(), AllocError>
        requires laid { IsLayoutOf automaton.now layout.now }
        requires limits { IsWithinLimits synth.now.game }
        requires won { IsWonBy automaton.now synth.now.game synth.now.initial solution.now Even }
        requires draft { IsDraft automaton.now synth.now.game solution.now self.old.states.keys self.old.replies.items }
        requires number { number < length self.old.states.keys }
        requires whole { length self.old.replies.items ≡ number * input_letters automaton.now }
        ensures draft { OnOk result
            (IsDraft automaton.now synth.now.game solution.now self.new.states.keys self.new.replies.items) }
        ensures number { OnOk result (number < length self.new.states.keys) }
        ensures whole { OnOk result (length self.new.replies.items ≡ (number + 1) * input_letters automaton.now) }
    {
        let state = self.states.as_slice()[number];
        let first = synth
            .game
            .vertex_of(first_answer(automaton, layout, state))
            .unwrap();
        for input in 0..layout.inputs.len() as u32 {
            let vertex = Vertex(first.0 + input);
            let (output, target) = chosen_step(
                automaton, layout, synth, solution, state, input, vertex,
            );
            self.push(output, target)?;
        }
        Ok(())
    }

    /// Appends a reply, and gives the state to which it leads a number if it has none.
    fn push(&mut self, output: u32, target: u32) -> Result<(), AllocError>
        requires states { (k : ℕ) → k < length self.old.states.keys → state_of self.old.states.keys k < 65535 }
        requires target { target < 65535 }
        ensures { OnOk result ((number : ℕ) × IsNumbered self.old.states.keys target number self.new.states.keys
            × (self.new.replies.items ≡ self.old.replies.items ++ record { output = output; next = number } ∷ [])) }
    {
        let (number, _) = self.states.insert_full(target)?;
        let reply = Reply {
            output,
            next: number as u32,
        };
        self.replies.push(reply)?;
        Ok(())
    }
}

/// Returns the least output letter that leads to the chosen successor of an answer that Even wins, and the automaton's state there.
fn chosen_step(
    automaton: &Automaton,
    layout: &Layout,
    synth: &SynthGame,
    solution: &Solution,
    state: u32,
    input: u32,
    answer: Vertex,
) -> (u32, u32)
    requires laid { IsLayoutOf automaton.now layout.now }
    requires won { IsWonBy automaton.now synth.now.game synth.now.initial solution.now Even }
    requires answer { StandsFor automaton.now synth.now.game answer (Answer state input) }
    requires wins { winner solution.now answer ≡ Even }
    ensures follows { FollowsAt automaton.now synth.now.game solution.now state input result.0 result.1 }
    ensures won { IsWonAt automaton.now synth.now.game solution.now result.1 }
    ensures below { result.1 < automaton.now.states }
{
    let chosen = solution.choice(answer).unwrap();
    let identifier = synth.game.identifier(chosen);
    let output = least_output(automaton, layout, state, input, identifier).unwrap();
    let letter = layout.inputs[input as usize] + layout.outputs[output as usize];
    let (target, _) = automaton.next(state, letter).unwrap();
    (output, target)
}

/// Returns the least output letter that leads from a state and an input letter to the place with this identifier, if there is one.
fn least_output(
    automaton: &Automaton,
    layout: &Layout,
    state: u32,
    input: u32,
    identifier: u32,
) -> Option<u32>
    requires laid { IsLayoutOf automaton.now layout.now }
    requires state { state < automaton.now.states }
    requires input { input < input_letters automaton.now }
    ensures { IsLeastIfAny automaton.now state input identifier result }
{
    let part = layout.inputs[input as usize];
    for (output, other) in layout.outputs.iter().enumerate() {
        if target(automaton, layout, state, part + *other) == identifier {
            return Some(output as u32);
        }
    }
    None
}
