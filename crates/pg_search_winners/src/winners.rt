//! The winners of a graph.

use crate::graph::Graph;
use crate::solver::{Orders, WinnersSearch};
use pg_arena::Player;
use pg_check_order::Span;
use pg_search_components::{NONE, at, count, put};
use std::alloc::{AllocError, Global};

/// Who wins each vertex, how, and an order that shows it.
///
/// The vertices that a player wins stand in its list. Their edges count where the loser owns the vertex, and where the winner chose
/// them. An edge that counts leads from a place to a place of the same list that is before the sum of its place and the span of its
/// vertex. A vertex with a span has a priority of its winner's parity; up to the end of the span no priority is greater, and no
/// span that begins there ends after it. So the greatest priority of each cycle is the winner's.
#[derive(Drop)]
pub struct Winners {
    pub winner: Vec<Player>,
    /// What the winner chooses at each of its own vertices, and `NONE` at the loser's.
    pub choice: Vec<u32>,
    /// The vertices that Even wins, in order.
    pub of_even: Vec<u32>,
    /// The vertices that Odd wins, in order.
    pub of_odd: Vec<u32>,
    /// The span of each vertex, or 0 if it has none.
    pub span: Vec<u32>,
    /// Whether each vertex stands in a list, which is always so unless all methods gave up.
    pub is_ordered: bool,
}

/// Who wins each vertex, as in `Winners`, but in one order: what Even wins, and after it what Odd wins.
#[derive(Drop)]
pub struct WinningOrder {
    /// The place of each vertex, if each stands in the order, which is always so unless all methods gave up.
    pub places: Vec<u32>,
    /// For each place, the height of the vertex there, which is even where the priority is the winner's, and the place before which
    /// its edges lead.
    pub spans: Vec<Span>,
    /// The place where what Odd wins begins.
    pub split: u32,
    /// What the winner chooses at each of its own vertices.
    pub choices: Vec<u32>,
}

/// Finds the winners of a graph in which each vertex has a successor.
pub fn find_winners(alloc: Global, graph: &Graph) -> Result<Winners, AllocError> {
    let mut solver = WinnersSearch::new(alloc, graph)?;
    solver.run()?;
    let (table, orders) = solver.into_parts();
    let spans = find_spans(alloc, graph.priorities(), &orders)?;
    let mut span = vec![in alloc; 0; table.regions.len()]?;
    let mut place = 0u32;
    for v in orders.even.iter().chain(&orders.odd) {
        put(&mut span, *v, end_of(&spans, place).saturating_sub(place));
        place = place.saturating_add(1);
    }
    let mut winner = Vec::with_capacity(alloc, table.regions.len())?;
    for region in &table.regions {
        winner.push(match *region {
            0 => Player::Even,
            _ => Player::Odd,
        })?;
    }
    Ok(Winners {
        winner,
        choice: table.choices,
        of_even: orders.even,
        of_odd: orders.odd,
        span,
        is_ordered: count(spans.len()) == graph.len(),
    })
}

/// Finds the winners of a graph in which each vertex has a successor, in one order. The graph is freed as soon as they are found.
pub fn find_order(alloc: Global, graph: Graph) -> Result<WinningOrder, AllocError> {
    let mut solver = WinnersSearch::new(alloc, &graph)?;
    solver.run()?;
    let (table, orders) = solver.into_parts();
    let spans = find_spans(alloc, &graph.into_priorities(), &orders)?;
    let split = count(orders.even.len());
    // the place shows the region
    let mut places = table.regions;
    place_from(0, &orders.even, &mut places);
    place_from(split, &orders.odd, &mut places);
    Ok(WinningOrder {
        places,
        spans,
        split,
        choices: table.choices,
    })
}

/// Gives vertices consecutive places, from a first one on.
fn place_from(first: u32, vertices: &[u32], places: &mut [u32]) {
    let mut place = first;
    for v in vertices {
        put(places, *v, place);
        place = place.saturating_add(1);
    }
}

/// Returns the spans of all places: those of Even's list, and after them those of Odd's.
fn find_spans(alloc: Global, priorities: &[u32], orders: &Orders) -> Result<Vec<Span>, AllocError> {
    let mut spans = Vec::with_capacity(alloc, priorities.len())?;
    add_spans(alloc, priorities, &orders.even, 2, &mut spans)?;
    add_spans(alloc, priorities, &orders.odd, 1, &mut spans)?;
    Ok(spans)
}

/// Appends the spans of a player's list. The heights are the priorities plus `raised`; the spans of even heights reach up to the
/// next greater height in the list.
fn add_spans(
    alloc: Global,
    priorities: &[u32],
    list: &[u32],
    raised: u32,
    spans: &mut Vec<Span>,
) -> Result<(), AllocError> {
    let first = count(spans.len());
    for v in list {
        spans.push(Span {
            priority: at(priorities, *v).saturating_add(raised),
            end: 0,
        })?;
    }
    let all = count(spans.len());
    // of the later places, those before which no greater height stands
    let mut greatest: Vec<u32> = Vec::new(alloc);
    for place in (first..all).rev() {
        let height = height_of(spans, place);
        let mut end = all;
        for _ in 0..list.len() {
            let Some(next) = greatest.last().copied() else {
                break;
            };
            if height_of(spans, next) > height {
                end = next;
                break;
            }
            greatest.pop();
        }
        greatest.push(place)?;
        if let Some(span) = spans.get_mut(place as usize) {
            span.end = if height % 2 == 0 { end } else { place };
        }
    }
    Ok(())
}

/// Returns the height at a place, or `NONE` past the last place.
#[inline(always)]
fn height_of(spans: &[Span], place: u32) -> u32 {
    match spans.get(place as usize) {
        Some(span) => span.priority,
        None => NONE,
    }
}

/// Returns the end of the span of a place.
#[inline(always)]
fn end_of(spans: &[Span], place: u32) -> u32 {
    match spans.get(place as usize) {
        Some(span) => span.end,
        None => place,
    }
}
