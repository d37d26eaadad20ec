//! The codes that the exports return, and the numbers of the commands. The header has them under the same names.

ghost use Rattle.std.specs.Prelude.{◌≡◌, unwrap_or};
ghost use Rattle.parsolve_c.specs.Codes.{code_of, game_code, vertex_of, game_vertex};

use parsolve_c_csr::{ArraysFault, GameFault};

pub const PARSOLVE_OK: u32 = 0;

pub const PARSOLVE_OUT_OF_MEMORY: u32 = 1;

/// The arrays' lengths don't fit together.
pub const PARSOLVE_LENGTHS: u32 = 2;

pub const PARSOLVE_NO_VERTEX: u32 = 3;

pub const PARSOLVE_TOO_MANY_VERTICES: u32 = 4;

pub const PARSOLVE_TOO_MANY_EDGES: u32 = 5;

/// A priority over 65,535.
pub const PARSOLVE_PRIORITY: u32 = 6;

/// An owner other than 0 and 1.
pub const PARSOLVE_OWNER: u32 = 7;

/// A start that is over the next one, or a next start past the end of the successors.
pub const PARSOLVE_START: u32 = 8;

pub const PARSOLVE_NO_SUCCESSOR: u32 = 9;

/// A successor that is no vertex.
pub const PARSOLVE_SUCCESSOR: u32 = 10;

/// `winners` or `strategy` isn't as long as the priorities.
pub const PARSOLVE_SOLUTION_LENGTHS: u32 = 11;

/// A winner other than 0 and 1.
pub const PARSOLVE_WINNER: u32 = 12;

/// A winner that owns its vertex and chooses no successor.
pub const PARSOLVE_CHOICE: u32 = 13;

/// From `parsolve_check`: an edge leads to a vertex with another winner.
pub const PARSOLVE_LEAVES: u32 = 14;

/// From `parsolve_check`: there is a cycle that its winner loses.
pub const PARSOLVE_CYCLE: u32 = 15;

/// From `parsolve_answer`: there is no such command.
pub const PARSOLVE_COMMAND: u32 = 16;

/// From `parsolve_answer`: the input has no answer, and the output is the line of the fault.
pub const PARSOLVE_FAULT: u32 = 17;

/// From `parsolve_answer`: the output is too short.
pub const PARSOLVE_TOO_SHORT: u32 = 18;

pub const PARSOLVE_COMMAND_MEASURE: u32 = 0;

pub const PARSOLVE_COMMAND_SOLVE: u32 = 1;

pub const PARSOLVE_COMMAND_CHECK: u32 = 2;

pub const PARSOLVE_COMMAND_REPLAY: u32 = 3;

pub const PARSOLVE_COMMAND_GAME: u32 = 4;

pub const PARSOLVE_COMMAND_SYNTH: u32 = 5;

/// `solve --any`.
pub const PARSOLVE_COMMAND_SOLVE_ANY: u32 = 6;

/// `verify`, by names.
pub const PARSOLVE_COMMAND_VERIFY: u32 = 7;

/// `synth --small`.
pub const PARSOLVE_COMMAND_SYNTH_SMALL: u32 = 8;

pub const PARSOLVE_COMMAND_AUTOMATON: u32 = 9;

pub const PARSOLVE_COMMAND_MEANS: u32 = 10;

/// `synth --counter`.
pub const PARSOLVE_COMMAND_SYNTH_COUNTER: u32 = 11;

/// `verify --ltl`.
pub const PARSOLVE_COMMAND_VERIFY_LTL: u32 = 12;

/// Returns the code of a fault of a game.
fn game_code(fault: GameFault) -> u32
    ensures { result ≡ game_code fault }
{
    match fault {
        GameFault::Lengths => PARSOLVE_LENGTHS,
        GameFault::NoVertex => PARSOLVE_NO_VERTEX,
        GameFault::TooManyVertices => PARSOLVE_TOO_MANY_VERTICES,
        GameFault::TooManyEdges => PARSOLVE_TOO_MANY_EDGES,
        GameFault::PriorityTooLarge(_) => PARSOLVE_PRIORITY,
        GameFault::BadOwner(_) => PARSOLVE_OWNER,
        GameFault::BadStart(_) => PARSOLVE_START,
        GameFault::NoSuccessor(_) => PARSOLVE_NO_SUCCESSOR,
        GameFault::UnknownSuccessor(_) => PARSOLVE_SUCCESSOR,
    }
}

/// Returns the code of a fault.
fn code_of(fault: ArraysFault) -> u32
    ensures { result ≡ code_of fault }
{
    match fault {
        ArraysFault::OutOfMemory => PARSOLVE_OUT_OF_MEMORY,
        ArraysFault::Game(fault) => game_code(fault),
        ArraysFault::SolutionLengths => PARSOLVE_SOLUTION_LENGTHS,
        ArraysFault::BadWinner(_) => PARSOLVE_WINNER,
        ArraysFault::BadChoice(_) => PARSOLVE_CHOICE,
    }
}

/// Returns the vertex that a fault of a game names, if it names one.
fn game_vertex(fault: GameFault) -> Option<u32>
    ensures { result ≡ game_vertex fault }
{
    match fault {
        GameFault::Lengths
        | GameFault::NoVertex
        | GameFault::TooManyVertices
        | GameFault::TooManyEdges => None,
        GameFault::PriorityTooLarge(v)
        | GameFault::BadOwner(v)
        | GameFault::BadStart(v)
        | GameFault::NoSuccessor(v)
        | GameFault::UnknownSuccessor(v) => Some(v),
    }
}

/// Returns the vertex that a fault names, if it names one.
fn vertex_of(fault: ArraysFault) -> Option<u32>
    ensures { result ≡ vertex_of fault }
{
    match fault {
        ArraysFault::OutOfMemory | ArraysFault::SolutionLengths => None,
        ArraysFault::Game(fault) => game_vertex(fault),
        ArraysFault::BadWinner(v) | ArraysFault::BadChoice(v) => Some(v),
    }
}

/// Returns the code of a fault, and writes the vertex that it names, if it names one, into `vertex`.
pub(crate) fn tell_fault(fault: ArraysFault, vertex: &mut u32) -> u32
    ensures code { result ≡ code_of fault }
    ensures vertex { vertex.new ≡ unwrap_or (vertex_of fault) vertex.old }
{
    if let Some(v) = vertex_of(fault) {
        *vertex = v;
    }
    code_of(fault)
}
