//! Parts of a game.

ghost use Rattle.std.specs.Prelude.{◌≡◌, ◌<◌, Some, None, length, replicate, slice_set, slice_index_or, IfOk, IfSome, IfNone};
ghost use Rattle.pg_map.specs.Lines.{line_of};

use pg_arena::{Player, Vertex};
use pg_map::Lines;
use std::alloc::{AllocError, Global};
use std::marker::Model;

/// The line of a vertex of a part.
#[derive(Drop)]
pub struct PartLine {
    priority: u32,
    owner: Player,
    successors: Vec<Vertex>,
}

impl Model for PartLine {
    ghost use Rattle.pg_map.specs.Lines.{Line, line_of};

    ghost Value = { Line };

    ghost view = { λ l. line_of l.priority l.owner l.successors.items };
}

impl PartLine {
    /// Makes the line of a vertex with these successors. It fails only if memory runs out.
    pub fn new(
        alloc: Global,
        priority: u32,
        owner: Player,
        successors: &[u32],
    ) -> Result<PartLine, AllocError>
        ensures { IfOk result (λ l. l ≡ line_of priority owner successors.now) }
    {
        let mut targets = Vec::with_capacity(alloc, successors.len())?;
        for w in successors {
            targets.push(Vertex(*w))?;
        }
        Ok(PartLine {
            priority,
            owner,
            successors: targets,
        })
    }
}

/// The lines of some of the vertices below a count.
#[derive(Drop)]
pub struct Part {
    lines: Vec<Option<PartLine>>,
}

impl Model for Part {
    ghost use Rattle.std.specs.Prelude.{List, Option};
    ghost use Rattle.pg_map.specs.Lines.{Line};

    ghost Value = { List (Option Line) };

    ghost view = { λ p. p.lines.items };
}

impl Part {
    /// Makes a part without lines, of vertices below `count`.
    pub fn new(alloc: Global, count: u32) -> Result<Part, AllocError>
        ensures { IfOk result (λ p. p ≡ replicate count None) }
    {
        let mut lines = Vec::with_capacity(alloc, count as usize)?;
        for _ in 0..count {
            lines.push(None)?;
        }
        Ok(Part { lines })
    }

    /// Sets the line of a vertex.
    pub(crate) fn put(&mut self, v: Vertex, line: PartLine)
        requires { v < length self.old }
        ensures { self.new ≡ slice_set self.old v (Some line) }
    {
        self.lines[v.0 as usize] = Some(line);
    }
}

impl Lines for Part {
    ghost use Rattle.std.specs.Prelude.{None, slice_index_or};

    ghost line = { λ p. λ v. slice_index_or p v None };

    fn holds(&self, v: Vertex) -> bool {
        match self.lines.get(v.0 as usize) {
            Some(line) => line.is_some(),
            None => false,
        }
    }

    fn priority(&self, v: Vertex) -> u32 {
        match &self.lines[v.0 as usize] {
            Some(line) => line.priority,
            None => 0,
        }
    }

    fn owner(&self, v: Vertex) -> Player {
        match &self.lines[v.0 as usize] {
            Some(line) => line.owner,
            None => Player::Even,
        }
    }

    fn successors(&self, v: Vertex) -> &[Vertex] {
        match &self.lines[v.0 as usize] {
            Some(line) => &line.successors,
            None => &[],
        }
    }
}
