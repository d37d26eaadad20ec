//! Priority promotion (Massimo Benerecetti, Daniele Dell'Erba and Fabio Mogavero, Solving Parity Games via Priority Promotion, 2018),
//! on a part of the graph.
//!
//! A region consists of free vertices: those of the greatest priority, its heads, and what their player attracts to these. Regions
//! are made until one is closed: its player can stay there, and the opponent can't go from there to a free vertex. If the opponent
//! can go to earlier regions, the closed region joins the last of these, and what came between is free again. If it can't, the
//! player wins the region.

use crate::graph::Graph;
use crate::table::{Attraction, FIRST, FREE, RegionTable};
use pg_search_components::{NONE, at, count, from, put};
use std::alloc::{AllocError, Global};

/// A region of a player.
#[derive(Clone, Copy)]
struct PromotedRegion {
    player: u32,
    /// Its place on the stack, from `FIRST` on, which marks its vertices.
    mark: u32,
    /// Where its vertices begin, heads first, and the number of heads.
    begin: usize,
    heads: usize,
    /// The place after its first head in the part.
    place: u32,
}

#[derive(Drop)]
pub(crate) struct Promotion {
    /// What is known of the vertices here: who won them, or which region they are in.
    table: RegionTable,
    /// The place after the next head in the part.
    place: u32,
    /// The regions, and the vertices of all of them.
    regions: Vec<PromotedRegion>,
    vertices: Vec<u32>,
}

impl Promotion {
    pub fn new(alloc: Global, graph: &Graph) -> Result<Promotion, AllocError> {
        Ok(Promotion {
            table: RegionTable::new(alloc, graph)?,
            place: 0,
            regions: Vec::new(alloc),
            vertices: Vec::new(alloc),
        })
    }

    /// Begins with a part, whose vertices are given by rising priority.
    pub fn begin(&mut self, part: &[u32]) {
        for v in part {
            self.table.mark(*v, FREE);
        }
        self.begin_again(part);
    }

    /// Frees the vertices that aren't won.
    fn begin_again(&mut self, part: &[u32]) {
        self.place = count(part.len());
        self.regions.clear();
        self.vertices.clear();
        for v in part {
            if self.table.region(*v) >= FIRST {
                self.table.mark(*v, FREE);
            }
        }
        self.table.look(part.len());
    }

    /// Continues with the part until all is won, and then puts each vertex into its winner's region. Returns false if that takes
    /// more than `looks` looks.
    pub fn run(
        &mut self,
        graph: &Graph,
        table: &mut RegionTable,
        part: &[u32],
        looks: u64,
    ) -> Result<bool, AllocError> {
        let most = self.table.looks.saturating_add(looks);
        for _ in 0..u64::MAX {
            if self.table.looks > most {
                break;
            }
            match self.regions.last().copied() {
                Some(last) if self.is_closed(graph, last) => match self.way_out(graph, last) {
                    0 => self.win(graph, part, last)?,
                    mark => self.promote(graph, last, mark)?,
                },
                _ => {
                    if !self.descend(graph, part)? {
                        self.show(table, part);
                        return Ok(true);
                    }
                }
            }
        }
        Ok(false)
    }

    /// Puts each vertex into its winner's region, and sets what is chosen there.
    fn show(&self, table: &mut RegionTable, part: &[u32]) {
        for v in part {
            table.mark(*v, FIRST.saturating_add(self.table.region(*v)));
            put(&mut table.choices, *v, at(&self.table.choices, *v));
        }
    }

    /// Makes the next region. Returns false if no vertex is free.
    fn descend(&mut self, graph: &Graph, part: &[u32]) -> Result<bool, AllocError> {
        let before = self.place;
        let mut region = PromotedRegion {
            player: 0,
            mark: FIRST.saturating_add(count(self.regions.len())),
            begin: self.vertices.len(),
            heads: 0,
            place: before,
        };
        let mut priority = NONE;
        for place in (0..before).rev() {
            let v = at(part, place);
            if priority != NONE && graph.priority(v) != priority {
                break;
            }
            self.place = place;
            if self.table.region(v) == FREE {
                if priority == NONE {
                    priority = graph.priority(v);
                    region.place = place.saturating_add(1);
                }
                self.table.mark(v, region.mark);
                put(&mut self.table.choices, v, NONE);
                self.vertices.push(v)?;
            }
        }
        self.table.look(before.saturating_sub(self.place) as usize);
        region.player = priority % 2;
        region.heads = self.vertices.len().saturating_sub(region.begin);
        self.regions.push(region)?;
        self.attract(graph, region, region.begin)?;
        Ok(region.heads > 0)
    }

    /// Attracts free vertices to the vertices of the last region, from a place on.
    fn attract(
        &mut self,
        graph: &Graph,
        region: PromotedRegion,
        from: usize,
    ) -> Result<(), AllocError> {
        let attraction = Attraction {
            player: region.player,
            low: FREE,
            mark: region.mark,
        };
        self.table
            .attract(graph, &mut self.vertices, from, attraction)
    }

    /// Whether the last region is closed, which its heads decide. If it is, the choices of its player at the heads are set.
    fn is_closed(&mut self, graph: &Graph, region: PromotedRegion) -> bool {
        for head in from(&self.vertices, region.begin).iter().take(region.heads) {
            let row = graph.successors(*head);
            self.table.look(row.len());
            if graph.owner(*head) != region.player {
                if self.table.first_from(row, FREE).is_some() {
                    return false;
                }
                continue;
            }
            let mut choice = NONE;
            for w in row {
                if self.table.region(*w) == region.mark {
                    choice = *w;
                }
            }
            if choice == NONE {
                return false;
            }
            put(&mut self.table.choices, *head, choice);
        }
        true
    }

    /// Returns the mark of the last of the earlier regions to which the opponent can go from the last region, or 0 if there is
    /// none.
    fn way_out(&mut self, graph: &Graph, region: PromotedRegion) -> u32 {
        let mut way = 0;
        for v in from(&self.vertices, region.begin) {
            if graph.owner(*v) == region.player {
                continue;
            }
            let row = graph.successors(*v);
            self.table.look(row.len());
            for w in row {
                let mark = self.table.region(*w);
                if mark >= FIRST && mark < region.mark {
                    way = way.max(mark);
                }
            }
            if way.saturating_add(1) == region.mark {
                break;
            }
        }
        way
    }

    /// Joins the last region to an earlier one, and frees what is between.
    fn promote(
        &mut self,
        graph: &Graph,
        region: PromotedRegion,
        mark: u32,
    ) -> Result<(), AllocError> {
        let level = mark.saturating_sub(FIRST) as usize;
        let end = match self.regions.get(level.saturating_add(1)) {
            Some(next) => next.begin,
            None => region.begin,
        };
        self.regions.truncate(level.saturating_add(1));
        let mut to = end;
        for place in end..self.vertices.len() {
            let v = at(&self.vertices, count(place));
            if place < region.begin {
                self.table.mark(v, FREE);
            } else {
                self.table.mark(v, mark);
                put(&mut self.vertices, count(to), v);
                to = to.saturating_add(1);
            }
        }
        self.table.look(self.vertices.len().saturating_sub(end));
        self.vertices.truncate(to);
        let Some(target) = self.regions.last().copied() else {
            return Ok(());
        };
        self.place = target.place;
        self.attract(graph, target, end)
    }

    /// Gives a region to its player, with all that the region attracts, and begins again with the rest.
    fn win(
        &mut self,
        graph: &Graph,
        part: &[u32],
        region: PromotedRegion,
    ) -> Result<(), AllocError> {
        let player = region.player;
        for v in from(&self.vertices, region.begin) {
            self.table.mark(*v, player);
        }
        let attraction = Attraction {
            player,
            low: FIRST,
            mark: player,
        };
        self.table
            .attract(graph, &mut self.vertices, region.begin, attraction)?;
        self.begin_again(part);
        Ok(())
    }
}
