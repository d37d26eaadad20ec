//! Rows of least measures, as nodes of a tree.
//!
//! A node is the row of its parent with one more component above 0, at a lesser priority. Equal rows are one node, so two rows are
//! compared by walking to where the ways to them part. The zeros are the root and cost nothing.

use pg_search_components::{at, count, put};
use std::alloc::{AllocError, Global};

/// Stands for top in place of a row.
pub const TOP: u32 = u32::MAX;

/// The row in which all components are 0.
pub const ZEROS: u32 = 0;

/// How many places the table of rows has at first: a power of two.
const FIRST_PLACES: usize = 64;

#[derive(Clone, Copy)]
pub struct RowNode {
    pub parent: u32,
    /// The odd priority of the last component above 0, and that component.
    pub priority: u32,
    pub component: u32,
    /// The row in which that component is one less, and the row in which it is one greater (`ZEROS` if there is none yet).
    pub less: u32,
    more: u32,
    depth: u32,
    /// A row far up, so that long ways are walked in few steps. Its depth depends on the depth of this row alone.
    jump: u32,
}

impl RowNode {
    const ROOT: RowNode = RowNode {
        parent: ZEROS,
        priority: u32::MAX,
        component: 0,
        less: ZEROS,
        more: ZEROS,
        depth: 0,
        jump: ZEROS,
    };
}

#[derive(Drop)]
pub struct Rows {
    nodes: Vec<RowNode>,
    /// The rows whose last component is 1, at places that their parents and priorities determine.
    table: Vec<u32>,
}

impl Rows {
    /// Makes rows of which only the zeros are there.
    pub fn new(alloc: Global) -> Result<Rows, AllocError> {
        Ok(Rows {
            nodes: vec![in alloc; RowNode::ROOT; 1]?,
            table: vec![in alloc; ZEROS; FIRST_PLACES]?,
        })
    }

    /// Returns the number of rows.
    pub fn len(&self) -> u32 {
        count(self.nodes.len())
    }

    #[inline(always)]
    pub fn node(&self, row: u32) -> RowNode {
        if (row as usize) < self.nodes.len() {
            self.nodes[row as usize]
        } else {
            RowNode::ROOT
        }
    }

    /// Returns the row with all components of lesser priorities set to 0.
    #[inline(always)]
    pub fn cut(&self, row: u32, priority: u32) -> u32 {
        let mut row = row;
        let mut node = self.node(row);
        for _ in 0..u64::MAX {
            if node.priority >= priority {
                break;
            }
            let far = self.node(node.jump);
            row = if far.priority < priority {
                node.jump
            } else {
                node.parent
            };
            node = self.node(row);
        }
        row
    }

    /// Returns the deepest row on the way to this one whose depth is at most `depth`.
    #[inline(always)]
    fn up(&self, row: u32, depth: u32) -> u32 {
        let mut row = row;
        let mut node = self.node(row);
        for _ in 0..u64::MAX {
            if node.depth <= depth {
                break;
            }
            let far = self.node(node.jump);
            row = if far.depth >= depth {
                node.jump
            } else {
                node.parent
            };
            node = self.node(row);
        }
        row
    }

    /// Returns the first rows that differ on the ways to two rows, or the lesser one twice if it is on the way to the other.
    #[inline(always)]
    fn parting(&self, row: u32, other: u32) -> (u32, u32) {
        let depth = self.node(row).depth.min(self.node(other).depth);
        let mut one = self.up(row, depth);
        let mut two = self.up(other, depth);
        for _ in 0..u64::MAX {
            let (x, y) = (self.node(one), self.node(two));
            if x.parent == y.parent {
                break;
            }
            if x.jump != y.jump {
                one = x.jump;
                two = y.jump;
            } else {
                one = x.parent;
                two = y.parent;
            }
        }
        (one, two)
    }

    /// Whether one row, or top, is less than another.
    #[inline(always)]
    pub fn is_under(&self, row: u32, other: u32) -> bool {
        row != other && (other == TOP || row != TOP && self.is_row_under(row, other))
    }

    fn is_row_under(&self, row: u32, other: u32) -> bool {
        let (one, two) = self.parting(row, other);
        if one == two {
            return self.node(row).depth < self.node(other).depth;
        }
        self.is_before(one, two)
    }

    /// Whether a row is less than another that agrees with it in all but their last components.
    #[inline(always)]
    fn is_before(&self, row: u32, other: u32) -> bool {
        let (x, y) = (self.node(row), self.node(other));
        if x.priority != y.priority {
            x.priority < y.priority
        } else {
            x.component < y.component
        }
    }

    /// Returns the first row on the way to `row` that is at least `low`, or `None` if `row` itself isn't.
    #[inline(always)]
    pub fn first_from(&self, low: u32, row: u32) -> Option<u32> {
        if row == low || self.node(row).parent == low {
            return Some(low);
        }
        self.find_first_from(low, row)
    }

    fn find_first_from(&self, low: u32, row: u32) -> Option<u32> {
        let (one, two) = self.parting(low, row);
        let is_enough = if one == two {
            self.node(low).depth <= self.node(row).depth
        } else {
            self.is_before(one, two)
        };
        if is_enough { Some(two) } else { None }
    }

    /// Returns the first row on the way to `row` that comes after `before`.
    pub fn after(&self, before: u32, row: u32) -> u32 {
        self.up(row, self.node(before).depth.saturating_add(1))
    }

    /// Returns the least step of a row at a priority.
    #[inline(always)]
    pub fn step(&mut self, row: u32, priority: u32) -> Result<u32, AllocError> {
        let row = self.cut(row, priority);
        if row == TOP || priority % 2 == 0 {
            return Ok(row);
        }
        let node = self.node(row);
        if node.priority != priority {
            return self.child(row, priority);
        }
        if node.more != ZEROS {
            return Ok(node.more);
        }
        self.add_more(row, node)
    }

    fn add(&mut self, node: RowNode) -> Result<u32, AllocError> {
        let row = count(self.nodes.len());
        self.nodes.push(node)?;
        Ok(row)
    }

    /// Adds the row with the last component one greater, and returns it.
    fn add_more(&mut self, row: u32, node: RowNode) -> Result<u32, AllocError> {
        let more = self.add(RowNode {
            component: node.component.saturating_add(1),
            less: row,
            more: ZEROS,
            ..node
        })?;
        if (row as usize) < self.nodes.len() {
            self.nodes[row as usize].more = more;
        }
        Ok(more)
    }

    /// Returns where in the table the row with one more component, which is 1, stands or will stand.
    #[inline(always)]
    fn place(&self, parent: u32, priority: u32) -> u32 {
        let mask = count(self.table.len()).saturating_sub(1);
        let both = (parent as u64) << 32 | priority as u64;
        let mixed = both.wrapping_mul(0x9e37_79b9_7f4a_7c15) >> 32;
        let mut place = (mixed & 0xffff_ffff) as u32 & mask;
        for _ in 0..u64::MAX {
            let row = at(&self.table, place);
            let node = self.node(row);
            if row == ZEROS || node.parent == parent && node.priority == priority {
                break;
            }
            place = place.wrapping_add(1) & mask;
        }
        place
    }

    /// Returns the row with one more component, which is 1, and adds it if it isn't there.
    fn child(&mut self, row: u32, priority: u32) -> Result<u32, AllocError> {
        let place = self.place(row, priority);
        let there = at(&self.table, place);
        if there != ZEROS {
            return Ok(there);
        }
        let parent = self.node(row);
        let far = self.node(parent.jump);
        let further = self.node(far.jump);
        let is_even = parent.depth.wrapping_sub(far.depth) == far.depth.wrapping_sub(further.depth);
        let child = self.add(RowNode {
            parent: row,
            priority,
            component: 1,
            less: row,
            more: ZEROS,
            depth: parent.depth.saturating_add(1),
            jump: if is_even { far.jump } else { row },
        })?;
        put(&mut self.table, place, child);
        if self.nodes.len() > self.table.len() / 2 {
            self.grow()?;
        }
        Ok(child)
    }

    /// Enlarges the table.
    fn grow(&mut self) -> Result<(), AllocError> {
        let places = self.table.len().saturating_mul(4);
        self.table.clear();
        self.table.resize(places, ZEROS)?;
        for row in 1..self.len() {
            let node = self.node(row);
            if node.component == 1 {
                let place = self.place(node.parent, node.priority);
                put(&mut self.table, place, row);
            }
        }
        Ok(())
    }

    /// Whether a successor with the row `successor` serves a vertex with the given priority and the row `row`.
    #[inline(always)]
    pub fn serves(&self, row: u32, successor: u32, priority: u32) -> bool {
        if successor == ZEROS || row == TOP {
            return true;
        }
        if priority % 2 == 1 {
            self.is_under(successor, row)
        } else {
            !self.is_under(row, self.cut(successor, priority))
        }
    }

    /// Returns the row whose step at a priority is at least this one, as are the steps of all rows that aren't less.
    #[inline(always)]
    pub fn low(&self, row: u32, priority: u32) -> u32 {
        let node = self.node(row);
        if node.priority == priority {
            node.less
        } else {
            row
        }
    }
}
