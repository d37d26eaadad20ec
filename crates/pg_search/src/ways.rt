//! Ways from the heads of a part to its greatest way out, and the claims along them.

use crate::greatest::ExitEdge;
use pg_search_components::{NONE, at, item, put};
use pg_search_rows::{RowClaim, Side, ZEROS};
use std::alloc::{AllocError, Global};

/// A component in an order: the place where it begins, how many heads come first, and the place before which it ends.
#[derive(Clone, Copy)]
pub(crate) struct OrderedComponent {
    pub begin: u32,
    pub heads: u32,
    pub end: u32,
}

/// How a vertex was found.
#[derive(Clone, Copy)]
struct Visit {
    /// The part in which it was last found on the search back; `next` is where the way out goes on from it.
    part: u32,
    next: u32,
    /// The turn in which it was last found on the search forward; `before` is the vertex that it was found from.
    turn: u32,
    before: u32,
    /// Its row that was claimed last.
    row: u32,
}

impl Visit {
    const NOT: Visit = Visit {
        part: NONE,
        next: NONE,
        turn: 0,
        before: NONE,
        row: ZEROS,
    };
}

/// A search from both ends: forward from a head, and back from the way out.
#[derive(Drop)]
pub(crate) struct Ways {
    part: OrderedComponent,
    out: ExitEdge,
    found: Vec<Visit>,
    turn: u32,
    fore: Vec<u32>,
    back: Vec<u32>,
    /// How many of the vertices found on the search back were looked at.
    looked: usize,
    way: Vec<u32>,
    claims: Vec<RowClaim>,
}

impl Ways {
    pub fn new(alloc: Global, vertices: u32) -> Result<Ways, AllocError> {
        Ok(Ways {
            part: OrderedComponent {
                begin: 0,
                heads: 0,
                end: 0,
            },
            out: ExitEdge::NOWHERE,
            found: vec![in alloc; Visit::NOT; vertices as usize]?,
            turn: 0,
            fore: Vec::new(alloc),
            back: Vec::new(alloc),
            looked: 0,
            way: Vec::new(alloc),
            claims: Vec::new(alloc),
        })
    }

    #[inline(always)]
    fn found(&self, v: u32) -> Visit {
        item(&self.found, v, Visit::NOT)
    }

    /// Returns the claims in their order.
    pub fn into_claims(self) -> Vec<RowClaim> {
        let Ways { claims, .. } = self;
        claims
    }

    /// Claims a row of a vertex, unless it is zeros or was the last one claimed there.
    pub fn claim(&mut self, v: u32, row: u32) -> Result<(), AllocError> {
        let found = self.found(v);
        if row == ZEROS || found.row == row {
            return Ok(());
        }
        put(&mut self.found, v, Visit { row, ..found });
        self.claims.push(RowClaim {
            vertex: v,
            row,
            span: 0,
        })?;
        Ok(())
    }

    /// Begins a part with its greatest way out.
    pub fn begin(&mut self, part: OrderedComponent, out: ExitEdge) -> Result<(), AllocError> {
        self.part = part;
        self.out = out;
        self.back.clear();
        self.looked = 0;
        self.find_back(out.from, out.to)
    }

    /// Notes that the way out is known from a vertex, and goes on to `next`.
    fn find_back(&mut self, v: u32, next: u32) -> Result<(), AllocError> {
        let found = Visit {
            part: self.part.begin,
            next,
            ..self.found(v)
        };
        put(&mut self.found, v, found);
        self.back.push(v)?;
        Ok(())
    }

    /// Notes that the search forward found `v` from `before`.
    fn find_fore(&mut self, v: u32, before: u32) -> Result<(), AllocError> {
        let found = Visit {
            turn: self.turn,
            before,
            ..self.found(v)
        };
        put(&mut self.found, v, found);
        self.fore.push(v)?;
        Ok(())
    }

    fn is_inside(&self, places: &[u32], v: u32) -> bool {
        let place = at(places, v);
        self.part.begin <= place && place < self.part.end
    }

    /// Claims the row of the way out along a way to it from a head. Returns false if none is found.
    pub fn show(&mut self, side: &mut Side, places: &[u32], head: u32) -> Result<bool, AllocError> {
        if self.found(head).part != self.part.begin && !self.join(side, places, head)? {
            return Ok(false);
        }
        self.way.clear();
        let mut v = head;
        for _ in 0..u64::MAX {
            let found = self.found(v);
            if v == self.out.to || found.row == self.out.row || v == NONE {
                break;
            }
            self.way.push(v)?;
            v = found.next;
        }
        for _ in 0..u64::MAX {
            let Some(v) = self.way.pop() else {
                break;
            };
            self.claim(v, self.out.row)?;
        }
        Ok(true)
    }

    /// Searches from both ends until the way out is known from a head. Returns false if the searches don't meet, or that takes too long.
    fn join(&mut self, side: &mut Side, places: &[u32], head: u32) -> Result<bool, AllocError> {
        self.turn = self.turn.wrapping_add(1);
        self.fore.clear();
        self.find_fore(head, NONE)?;
        for place in 0..usize::MAX {
            let Some(v) = self.fore.get(place).copied() else {
                break;
            };
            if side.is_late() {
                break;
            }
            if self.go_on(side, places, v)? || self.go_back(side, places)? {
                return Ok(true);
            }
        }
        Ok(false)
    }

    /// Goes forward from a vertex. Returns true if the searches meet.
    fn go_on(&mut self, side: &mut Side, places: &[u32], v: u32) -> Result<bool, AllocError> {
        let state = side.state(v);
        for w in side.successors(v) {
            if state.is_mine() && state.to != *w {
                continue;
            }
            let found = self.found(*w);
            if found.part == self.part.begin {
                self.connect(v, *w)?;
                return Ok(true);
            }
            if found.turn != self.turn && self.is_inside(places, *w) {
                self.find_fore(*w, v)?;
            }
        }
        Ok(false)
    }

    /// Goes back from the next vertex from which the way out is known. Returns true if the searches meet.
    fn go_back(&mut self, side: &mut Side, places: &[u32]) -> Result<bool, AllocError> {
        let Some(w) = self.back.get(self.looked).copied() else {
            return Ok(false);
        };
        self.looked = self.looked.saturating_add(1);
        for v in side.predecessors(w) {
            let state = side.state(*v);
            let found = self.found(*v);
            if found.part == self.part.begin
                || !self.is_inside(places, *v)
                || state.is_mine() && state.to != w
            {
                continue;
            }
            self.find_back(*v, w)?;
            if found.turn == self.turn {
                self.connect(found.before, *v)?;
                return Ok(true);
            }
        }
        Ok(false)
    }

    /// Notes that the way out is known from the edge where the searches met, and from all vertices before it.
    fn connect(&mut self, from: u32, to: u32) -> Result<(), AllocError> {
        let mut v = from;
        let mut next = to;
        for _ in 0..u64::MAX {
            if v == NONE {
                break;
            }
            self.find_back(v, next)?;
            next = v;
            v = self.found(v).before;
        }
        Ok(())
    }
}
