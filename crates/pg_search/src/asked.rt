//! Claims that are asked for, level by level. The level of a claim is the priority of its row's last component above 0.

use pg_search_components::{at, count, put};
use pg_search_rows::{Side, ZEROS};
use std::alloc::{AllocError, Global};
use std::mem;

/// A claim that is asked for: each closed map has at least this row at the vertex.
#[derive(Clone, Copy)]
pub(crate) struct Asked {
    pub vertex: u32,
    pub row: u32,
}

#[derive(Drop)]
pub(crate) struct Levels {
    /// The odd priorities, in ascending order; `lists` has what is asked for at each.
    pub priorities: Vec<u32>,
    lists: Vec<Vec<Asked>>,
    /// The row that was last asked for at each vertex.
    lasts: Vec<u32>,
}

impl Levels {
    /// Returns the levels of a side, with nothing asked for.
    pub fn new(alloc: Global, side: &Side) -> Result<Levels, AllocError> {
        let mut priorities = Vec::new(alloc);
        for v in 0..side.len() {
            let priority = side.state(v).priority();
            if priority % 2 == 1 {
                priorities.push(priority)?;
            }
        }
        priorities.sort_unstable();
        priorities.dedup();
        let mut lists = Vec::with_capacity(alloc, priorities.len())?;
        for _ in 0..priorities.len() {
            lists.push(Vec::new(alloc))?;
        }
        Ok(Levels {
            priorities,
            lists,
            lasts: vec![in alloc; ZEROS; side.len() as usize]?,
        })
    }

    /// Returns no levels: nothing can be asked for.
    pub fn none(alloc: Global) -> Levels {
        Levels {
            priorities: Vec::new(alloc),
            lists: Vec::new(alloc),
            lasts: Vec::new(alloc),
        }
    }

    /// Asks for a claim, unless it was the last one asked for at its vertex.
    pub fn ask(&mut self, side: &Side, asked: Asked) -> Result<(), AllocError> {
        if at(&self.lasts, asked.vertex) == asked.row {
            return Ok(());
        }
        put(&mut self.lasts, asked.vertex, asked.row);
        self.put(side.rows.node(asked.row).priority, asked)
    }

    /// Asks for a vertex's row up to one component more than in `last`, if that was asked for last.
    pub fn ask_next(&mut self, side: &Side, last: Asked) -> Result<(), AllocError> {
        let Asked { vertex, row } = last;
        if at(&self.lasts, vertex) != row {
            return Ok(());
        }
        let row = side.rows.after(row, side.row(vertex));
        self.ask(side, Asked { vertex, row })
    }

    /// Adds a claim to the level of a priority, if there is one.
    pub fn put(&mut self, priority: u32, asked: Asked) -> Result<(), AllocError> {
        let level = self.priorities.partition_point(|it| *it < priority);
        if at(&self.priorities, count(level)) == priority && level < self.lists.len() {
            self.lists[level].push(asked)?;
        }
        Ok(())
    }

    /// Returns the claims that are asked for at a level.
    pub fn asked(&self, level: u32) -> &[Asked] {
        match self.lists.get(level as usize) {
            Some(list) => list,
            None => &[],
        }
    }

    /// Takes out the claims that are asked for at a level, and returns them.
    pub fn take(&mut self, alloc: Global, level: u32) -> Vec<Asked> {
        if (level as usize) < self.lists.len() {
            mem::replace(&mut self.lists[level as usize], Vec::new(alloc))
        } else {
            Vec::new(alloc)
        }
    }
}
