//! The game of steps, in which the controller answers input letters, and the measures of the states from which it wins.

use crate::numbers::{Allocated, NONE, at, count, is_marked, power, put, spend};
use crate::steps::{GameStep, Steps};
use pg_arena::Player;
use pg_search_rows::{Rows, ZEROS};
use pg_search_winners::{Graph, find_winners};
use std::alloc::Global;
use std::mem;

/// The rows of the states from which the controller wins, and `NONE` for the others.
#[derive(Drop)]
pub struct WinningRows {
    pub rows: Rows,
    pub found: Vec<u32>,
}

impl WinningRows {
    /// Returns the measures of the game of steps, or `None` if that takes too long.
    pub fn of(steps: &Steps, looks: &mut u64) -> Allocated<Option<WinningRows>> {
        let graph = graph_of(steps)?;
        let winners = find_winners(steps.alloc, &graph)?;
        let mut won = Vec::new(steps.alloc);
        for (v, winner) in winners.winner.iter().enumerate() {
            if *winner == Player::Even {
                won.push(count(v))?;
            }
        }
        let mut measures = WinningRows {
            rows: Rows::new(steps.alloc)?,
            found: vec![in steps.alloc; NONE; graph.len() as usize]?,
        };
        let is_done = measures.lift(&graph, won, &winners.choice, looks)?;
        Ok(Some(measures).filter(|_| is_done))
    }

    /// Finds the rows of the vertices that Even wins with its choices. Returns false if that takes too long.
    fn lift(
        &mut self,
        graph: &Graph,
        won: Vec<u32>,
        choices: &[u32],
        looks: &mut u64,
    ) -> Allocated<bool> {
        let alloc = *won.allocator();
        // a vertex that isn't won never waits again
        let mut waits = vec![in alloc; true; graph.len() as usize]?;
        for v in &won {
            put(&mut self.found, *v, ZEROS);
        }
        let mut waiting = won;
        let mut next = Vec::new(alloc);
        for _ in 0..u64::MAX {
            for v in &waiting {
                put(&mut waits, *v, false);
                let row = self.lifted(graph, *v, choices)?;
                if !spend(looks, graph.successors(*v).len() as u64) {
                    return Ok(false);
                }
                if !self.rows.is_under(at(&self.found, *v), row) {
                    continue;
                }
                put(&mut self.found, *v, row);
                for u in graph.predecessors(*v) {
                    if !is_marked(&waits, *u) {
                        put(&mut waits, *u, true);
                        next.push(*u)?;
                    }
                }
            }
            waiting.clear();
            if next.is_empty() {
                break;
            }
            mem::swap(&mut waiting, &mut next);
        }
        Ok(true)
    }

    /// Returns the least row that serves a vertex, given the rows of its successors.
    fn lifted(&mut self, graph: &Graph, v: u32, choices: &[u32]) -> Allocated<u32> {
        let mut most = at(&self.found, at(choices, v));
        for w in graph.successors(v) {
            let row = at(&self.found, *w);
            if graph.owner(v) == 1 && (most == NONE || self.rows.is_under(most, row)) {
                most = row;
            }
        }
        self.rows.step(most, graph.priority(v))
    }

    /// Whether a step from a state serves the state's row.
    pub fn serves(&mut self, state: u32, step: GameStep) -> Allocated<bool> {
        let row = at(&self.found, state);
        let there = at(&self.found, step.target);
        let arrival = self.rows.step(there, step.priority)?;
        Ok(row != NONE && there != NONE && !self.rows.is_under(row, arrival))
    }
}

/// Whether the controller wins from each state.
pub fn loses_none(steps: &Steps, looks: &mut u64) -> Allocated<bool> {
    let graph = graph_of(steps)?;
    spend(looks, (graph.edges() as u64).saturating_mul(8));
    let winners = find_winners(steps.alloc, &graph)?;
    let states = winners.winner.iter().take(steps.states as usize);
    Ok(states.copied().all(|it| it == Player::Even))
}

/// Takes away the steps to states where the controller loses. Returns for each place whether its step serves the measures: a controller
/// that takes only such steps wins. `None` if the controller loses the start, or measures take too long.
pub fn winning_moves(steps: &mut Steps, looks: &mut u64) -> Allocated<Option<Vec<bool>>> {
    let measures = WinningRows::of(steps, looks)?;
    let Some(mut measures) = measures.filter(|it| at(&it.found, steps.start) != NONE) else {
        return Ok(None);
    };
    let mut moves = Vec::new(steps.alloc);
    for place in 0..count(steps.table.len()) {
        let state = place.wrapping_shr(steps.inputs.wrapping_add(steps.outputs));
        let step = steps.at(place);
        moves.push(measures.serves(state, step)?)?;
        if at(&measures.found, step.target) == NONE {
            put(&mut steps.table, place, GameStep::NONE);
        }
    }
    Ok(Some(moves))
}

/// Returns the graph of the game: states, answers by points, the end of runs that have no edge, and then arrivals by steps. Where there is
/// nothing to answer, states lead to arrivals.
fn graph_of(steps: &Steps) -> Allocated<Graph> {
    let points = steps.point(steps.states, 0);
    let answers = if steps.outputs == 0 { 0 } else { points };
    let mut draft = GameDraft::new(steps, Player::Odd, answers)?;
    let rows = answers.max(steps.states).max(1);
    let letters = (steps.table.len() / rows as usize).max(1);
    for chunk in steps.table.chunks(letters) {
        draft.row.extend_from_slice(chunk)?;
        draft.lead()?;
    }
    draft.graph()
}

/// A graph that is being made: states, then the choices of their owner, the end of runs, and then arrivals by steps.
#[derive(Drop)]
pub struct GameDraft {
    alloc: Global,
    owners: Vec<Player>,
    offsets: Vec<u32>,
    successors: Vec<u32>,
    end: u32,
    arrivals: Vec<GameStep>,
    /// The steps that the next vertex leads to.
    pub row: Vec<GameStep>,
}

impl GameDraft {
    /// Begins a graph in which the states belong to `owner` and lead to `choices` vertices of the other player, as many each.
    pub fn new(steps: &Steps, owner: Player, choices: u32) -> Allocated<GameDraft> {
        let alloc = steps.alloc;
        let (target, priority) = (steps.states.saturating_add(choices), 1);
        let mut owners = vec![in alloc; owner; steps.states as usize]?;
        owners.resize(target as usize, owner.opponent())?;
        let mut offsets = Vec::new(alloc);
        let mut successors = Vec::new(alloc);
        let each = choices.checked_div(steps.states).unwrap_or(0).max(1);
        for choice in 0..choices {
            if choice % each == 0 {
                offsets.push(choice)?;
            }
            successors.push(steps.states.saturating_add(choice))?;
        }
        Ok(GameDraft {
            alloc,
            owners,
            offsets,
            successors,
            end: target,
            arrivals: vec![in alloc; GameStep { target, priority }; 1]?,
            row: Vec::new(alloc),
        })
    }

    /// Lets the next vertex lead to the steps of the row, and clears the row.
    pub fn lead(&mut self) -> Allocated<()> {
        self.offsets.push(count(self.successors.len()))?;
        self.row.sort_unstable();
        self.row.dedup();
        for step in &self.row {
            if step.target == NONE {
                self.successors.push(self.end)?;
            } else {
                let place = self.end.saturating_add(count(self.arrivals.len()));
                self.successors.push(place)?;
                self.arrivals.push(*step)?;
            }
        }
        self.row.clear();
        Ok(())
    }

    /// Returns the graph, once each vertex leads somewhere.
    pub fn graph(self) -> Allocated<Graph> {
        let GameDraft {
            alloc,
            mut owners,
            mut offsets,
            mut successors,
            end,
            arrivals,
            ..
        } = self;
        let mut priorities = vec![in alloc; 0u32; end as usize]?;
        for step in &arrivals {
            priorities.push(step.priority)?;
            owners.push(Player::Odd)?;
            offsets.push(count(successors.len()))?;
            successors.push(step.target)?;
        }
        Graph::new(alloc, priorities, &owners, &offsets, successors)
    }
}
