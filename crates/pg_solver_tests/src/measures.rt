//! Bounds and measures, over a vertex of priority 3, two of priority 1, and two of even priorities.

ghost use Rattle.std.specs.Prelude.{◌≡◌};

use pg_arena::{GameBuilder, Player};
use pg_map::Join;
use pg_measure::{Bounds, Measure, View};
use std::alloc::{AllocError, Global};
use std::cmp::Ordering;
use std::test::Fail;

fn bounds(alloc: Global) -> Result<Bounds, Fail> {
    let mut builder = GameBuilder::new(alloc);
    for (identifier, priority) in [(10, 1), (8, 1), (9, 4), (7, 3), (11, 0)] {
        builder.add(identifier, priority, Player::Even, &[7], None)?;
    }
    Ok(Bounds::of(alloc, &builder.finish()?)?)
}

#[test]
fn bounds_are_the_odd_priorities(rt: HostRuntime) -> Result<(), Fail> {
    let bounds = bounds(rt.alloc())?;
    assert!(rt; bounds.pairs() == [(3, 1), (1, 2)].as_slice());
    assert_eq!(rt; bounds.width_from(2), 1);
    Ok(())
}

/// Whether the list fits and its least step at `p` is this measure.
fn steps_to(
    alloc: Global,
    bounds: &Bounds,
    from: &[u32],
    p: u32,
    to: View,
) -> Result<bool, AllocError> {
    let measure = Measure::from_list(alloc, from)?;
    Ok(measure.fits(bounds) && measure.least_step(p, bounds)?.view() == to)
}

#[test]
fn steps_carry(rt: HostRuntime) -> Result<(), Fail> {
    let bounds = bounds(rt.alloc())?;
    assert!(rt; steps_to(rt.alloc(), &bounds, &[0, 2], 1, View::List(&[1, 0]))?);
    assert!(rt; steps_to(rt.alloc(), &bounds, &[1, 2], 1, View::Top)?);
    assert!(rt; steps_to(rt.alloc(), &bounds, &[1, 2], 2, View::List(&[1, 0]))?);
    Ok(())
}

/// Whether the measure is below top, is top once top is joined with it, and is set to it again.
fn comes_to(measure: &mut Measure, top: &Measure, bounds: &Bounds) -> bool
    requires { measure.old.width ≡ top.now.width }
{
    let is_below = *measure < *top && measure.at_most(top);
    let is_before = measure.order_from(top, 2, bounds) == Ordering::Less;
    let is_joined = measure.join_with(top).is_ok() && *measure == *top && measure.list().is_none();
    measure.set(View::Top);
    is_below && is_before && is_joined && measure.view() == View::Top
}

#[test]
fn measures_are_ordered_and_join(rt: HostRuntime) -> Result<(), Fail> {
    let bounds = bounds(rt.alloc())?;
    let mut measure = Measure::zero(rt.alloc(), &bounds)?;
    let top = Measure::top(rt.alloc(), &bounds)?;
    assert!(rt; comes_to(&mut measure, &top, &bounds));
    Ok(())
}
