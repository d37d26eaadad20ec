//! Solves games over links to workers.

ghost use Rattle.std.specs.Prelude.{length, All, IfOk, IfSome};
ghost use Rattle.pg_arena.specs.Games.{HasPrioritiesUpTo, dual};
ghost use Rattle.pg_coord_partition.specs.Cuts.{IsEvenCut};
ghost use Rattle.pg_cli.specs.Linked.{IsLeastOverTold};
ghost use Rattle.pg_cli.specs.Mirrors.Finding.{IsFoundIf};

use pg_arena::{Game, dual};
use pg_cli_command::{ProposedCircuit, Solver, Untranslated};
use pg_cli_in_one_piece::InOnePiece;
use pg_coord::{Link, solve, solve_within};
use pg_coord_partition::fits_worker;
use pg_hoa::Automaton;
use pg_ltl::Formula;
use pg_map::MeasureMap;
use pg_measure::Bounds;
use pg_solver::{Found, Maps};
use pg_worker::Cut;
use std::alloc::{AllocError, Global};

/// The most lifts that a worker makes in a round.
const LIFTS: u32 = 4_096;

/// The most vertices of a game that is shared among workers in this process.
const MOST_VERTICES: usize = 256;

/// The most rounds that are made over workers in this process, and the most lifts that one of them makes in each.
const FEW: TurnLimit = TurnLimit {
    rounds: 8,
    lifts: 256,
};

/// The number of rounds that are made over programs for every game; a game has one more for each `VERTICES_A_ROUND` vertices.
const FIRST_ROUNDS: u64 = 32;

const VERTICES_A_ROUND: u64 = 512;

/// The most rounds that are made before a game is solved in one piece, and the most lifts that a worker makes in each.
#[derive(Clone, Copy)]
struct TurnLimit {
    rounds: u64,
    lifts: u32,
}

/// How many rounds are made over links before a game is solved in one piece.
#[derive(Clone, Copy)]
pub(crate) enum Rounds {
    /// A few, and none for a large game. This suits workers in this process, which take turns.
    Few,
    /// More for a larger game. This suits programs, for which each round is expensive.
    BySize,
    /// As many as `BySize`, but in `measure` as many as it takes.
    Any,
}

/// Whether a worker can keep a map of the game, and a map of its dual.
fn fit_workers(alloc: Global, game: &Game) -> Result<bool, AllocError> {
    let of_game = Bounds::of(alloc, game)?;
    let of_dual = Bounds::of_dual(alloc, game)?;
    let most = of_game.pairs().len().max(of_dual.pairs().len());
    Ok(fits_worker(game.len(), most))
}

impl Rounds {
    /// Returns the limits for a game that is shared among `links` links, or None if the game isn't shared.
    fn of(self, alloc: Global, game: &Game, links: usize) -> Result<Option<TurnLimit>, AllocError> {
        match self {
            _ if links == 0 => Ok(None),
            Rounds::Few => Ok((game.len() <= MOST_VERTICES).then_some(FEW)),
            Rounds::BySize | Rounds::Any => {
                let by_size = game.len() as u64 / VERTICES_A_ROUND;
                let limit = TurnLimit {
                    rounds: FIRST_ROUNDS.saturating_add(by_size),
                    lifts: LIFTS,
                };
                Ok(fit_workers(alloc, game)?.then_some(limit))
            }
        }
    }
}

/// Links among which games are cut evenly, and how many rounds are made over them.
#[derive(Drop)]
pub(crate) struct OverLinks<'a, L> {
    pub links: &'a mut [L],
    pub rounds: Rounds,
}

impl<L: Link> Solver for OverLinks<'_, L> {
    type Map = Found;

    ghost use Rattle.std.specs.Prelude.{◌≡◌, All};
    ghost use Rattle.pg_cli.specs.Linked.{IsLeastOverTold};
    ghost use Rattle.pg_cli.specs.Mirrors.Finding.{IsFoundIf};
    ghost use Rattle.pg_cli.specs.declared.over_links.Rounds.TheVariants.{Any};

    ghost finds = { λ solver. IsFoundIf (All L.is_honest solver.links.now) };

    ghost measures = { λ solver game map. solver.rounds ≡ Any
        → IsLeastOverTold L.told solver.links.now game map };

    fn measure(&mut self, alloc: Global, game: &Game) -> Result<Found, AllocError> {
        if let Rounds::Any = self.rounds {
            return Ok(Found::Rows(measure_over(alloc, game, self.links)?));
        }
        let Some(limit) = self.rounds.of(alloc, game, self.links.len())? else {
            return InOnePiece.measure(alloc, game);
        };
        match measure_within(alloc, game, self.links, limit)? {
            Some(map) => Ok(Found::Rows(map)),
            None => InOnePiece.measure(alloc, game),
        }
    }

    fn solve(&mut self, alloc: Global, game: &Game) -> Result<Maps<Found>, AllocError> {
        let Some(limit) = self.rounds.of(alloc, game, self.links.len())? else {
            return InOnePiece.solve(alloc, game);
        };
        match both_within(alloc, game, self.links, limit)? {
            Some(maps) => Ok(Maps {
                of_game: Found::Rows(maps.of_game),
                of_dual: Found::Rows(maps.of_dual),
            }),
            None => InOnePiece.solve(alloc, game),
        }
    }

    fn propose(
        &self,
        alloc: Global,
        automaton: &Automaton,
    ) -> Result<Vec<ProposedCircuit>, AllocError> {
        InOnePiece.propose(alloc, automaton)
    }

    fn translate(
        &self,
        alloc: Global,
        formula: &Formula,
        names: &[Vec<u8>],
    ) -> Result<Vec<u8>, Untranslated> {
        InOnePiece.translate(alloc, formula, names)
    }

    fn propose_environment(
        &self,
        alloc: Global,
        automaton: &Automaton,
    ) -> Result<Vec<ProposedCircuit>, AllocError> {
        InOnePiece.propose_environment(alloc, automaton)
    }

    ghost closed = { λ _ game map found. found.closed };
}

/// Returns the even cut of a game among `links` links.
fn cut_of(alloc: Global, game: &Game, links: usize) -> Result<Cut, AllocError>
    ensures { IfOk result (IsEvenCut (length game.now) links) }
{
    let Ok(workers) = u32::try_from(links) else {
        return Err(AllocError);
    };
    Cut::even(alloc, game.len() as u32, workers)
}

/// Finds a map of a game in as many rounds as it takes.
fn measure_over<L: Link>(
    alloc: Global,
    game: &Game,
    links: &mut [L],
) -> Result<MeasureMap, AllocError>
    ensures found { IfOk result (IsFoundIf (All L.is_honest links.old) game.now) }
    ensures told { IfOk result (IsLeastOverTold L.told links.old game.now) }
{
    let cut = cut_of(alloc, game, links.len())?;
    match solve(alloc, game, links, &cut, LIFTS) {
        Ok(solved) => Ok(solved.map),
        Err(_) => Err(AllocError),
    }
}

/// Finds a map of a game in at most `limit.rounds` rounds. Returns None if the rounds are given up.
fn measure_within<L: Link>(
    alloc: Global,
    game: &Game,
    links: &mut [L],
    limit: TurnLimit,
) -> Result<Option<MeasureMap>, AllocError>
    ensures found { IfOk result (λ o. IfSome o (IsFoundIf (All L.is_honest links.old) game.now)) }
    ensures honest { All L.is_honest links.old → All L.is_honest links.new }
{
    let cut = cut_of(alloc, game, links.len())?;
    match solve_within(alloc, game, links, &cut, limit.lifts, limit.rounds) {
        Ok(Some(solved)) => Ok(Some(solved.map)),
        Ok(None) => Ok(None),
        Err(_) => Err(AllocError),
    }
}

/// Finds a map of a game and a map of its dual, each in at most `limit.rounds` rounds. Returns None if the rounds are given up.
fn both_within<L: Link>(
    alloc: Global,
    game: &Game,
    links: &mut [L],
    limit: TurnLimit,
) -> Result<Option<Maps<MeasureMap>>, AllocError>
    requires { HasPrioritiesUpTo 65535 game.now }
    ensures of_game { IfOk result (λ o. IfSome o (λ maps. IsFoundIf (All L.is_honest links.old) game.now maps.of_game)) }
    ensures of_dual { IfOk result (λ o. IfSome o
        (λ maps. IsFoundIf (All L.is_honest links.old) (dual game.now) maps.of_dual)) }
{
    let Some(of_game) = measure_within(alloc, game, links, limit)? else {
        return Ok(None);
    };
    let Ok(dual) = dual(alloc, game) else {
        return Err(AllocError);
    };
    match measure_within(alloc, &dual, links, limit)? {
        Some(of_dual) => Ok(Some(Maps { of_game, of_dual })),
        None => Ok(None),
    }
}
