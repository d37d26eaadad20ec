//! The ladder of a side: its rows in order, so that each is the least step of the one before it at a priority.

use pg_search_components::{Edges, NONE, TargetRows as Children, at, count, is_marked, put};
use pg_search_rows::{Rows, Side, TOP, ZEROS};
use std::alloc::{AllocError, Global};

#[derive(Drop)]
pub(crate) struct RowLadder {
    /// The priority of each step.
    pub steps: Vec<u32>,
    /// The rank of each row that is in the ladder.
    ranks: Vec<u32>,
    /// The rows that go on from each row, in ascending order of the priority of their last component.
    children: Children,
}

/// Returns the rows of the vertices, and those that must be in a ladder with them: all rows on the way to one of these, and those with a
/// lesser last component. They are in ascending order of the priority of the last component, and then of that component.
fn rows_in_use(alloc: Global, side: &Side) -> Result<Vec<u32>, AllocError> {
    let rows = &side.rows;
    let mut is_used = vec![in alloc; false; rows.len() as usize]?;
    for v in 0..side.len() {
        put(&mut is_used, side.row(v), true);
    }
    let mut used = Vec::new(alloc);
    for row in (1..rows.len()).rev() {
        if is_marked(&is_used, row) {
            let node = rows.node(row);
            put(&mut is_used, node.less, true);
            put(&mut is_used, node.parent, true);
            used.push(row)?;
        }
    }
    used.sort_unstable_by_key(|row| {
        let node = rows.node(*row);
        (node.priority as u64) << 32 | node.component as u64
    });
    Ok(used)
}

impl RowLadder {
    /// Returns the ladder of all rows of a side.
    pub fn new(alloc: Global, side: &Side) -> Result<RowLadder, AllocError> {
        let rows = &side.rows;
        let used = rows_in_use(alloc, side)?;
        let mut children = Children::with_capacity(alloc, 0)?;
        children.clear(rows.len())?;
        for row in &used {
            children.count(rows.node(*row).parent);
        }
        children.make_room()?;
        for row in used.iter().rev() {
            children.put(rows.node(*row).parent, *row);
        }
        let mut ladder = RowLadder {
            steps: Vec::with_capacity(alloc, used.len())?,
            ranks: vec![in alloc; NONE; rows.len() as usize]?,
            children,
        };
        ladder.walk(alloc, rows)?;
        Ok(ladder)
    }

    /// Ranks the rows: each before those that go on from it.
    fn walk(&mut self, alloc: Global, rows: &Rows) -> Result<(), AllocError> {
        let mut open = vec![in alloc; ZEROS; 1]?;
        for _ in 0..u64::MAX {
            let Some(row) = open.pop() else {
                break;
            };
            if row != ZEROS {
                self.steps.push(rows.node(row).priority)?;
            }
            put(&mut self.ranks, row, count(self.steps.len()));
            for child in self.children.targets(row).iter().rev() {
                open.push(*child)?;
            }
        }
        Ok(())
    }

    /// Returns the rank of a row, or of top.
    pub fn rank(&self, row: u32) -> u32 {
        if row == TOP {
            count(self.steps.len()).saturating_add(1)
        } else {
            at(&self.ranks, row)
        }
    }

    /// Returns the first of the greatest steps in the block of a priority that begins at a row, or `NONE`.
    pub fn hint(&self, rows: &Rows, row: u32, priority: u32) -> u32 {
        let children = self.children.targets(row);
        let end = children.partition_point(|it| rows.node(*it).priority < priority);
        let Some(last) = children.get(end.wrapping_sub(1)).copied() else {
            return NONE;
        };
        let greatest = rows.node(last).priority;
        let first = children.partition_point(|it| rows.node(*it).priority < greatest);
        match children.get(first).copied() {
            Some(child) => self.rank(child).wrapping_sub(1),
            None => NONE,
        }
    }
}
