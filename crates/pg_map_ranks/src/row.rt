//! Rows, written one at a time.

ghost use Rattle.std.specs.Prelude.{◌≡◌, ◌≤◌, length};
ghost use Rattle.pg_map_ranks.specs.Ladders.{row};
ghost use Rattle.pg_map_ranks.specs.Mirrors.Rungs.{AreOrigins, AreCounts};

use pg_measure::Bounds;

/// Writes the row of a rank, from its last step back: a component was made by the last step at its priority that no step at a
/// greater priority follows. Each component above 0 is looked at once.
pub(crate) fn write_row(
    bounds: &Bounds,
    steps: &[u32],
    origins: &[u32],
    counts: &[u32],
    rank: u32,
    list: &mut [u32],
)
    requires origins { AreOrigins steps.now origins.now }
    requires counts { AreCounts bounds.now steps.now counts.now }
    requires rank { rank ≤ length steps.now }
    requires size { length list.old ≡ length bounds.now }
    ensures { list.new ≡ row bounds.now steps.now rank }
{
    let _pairs = bounds.pairs();
    list.fill(0);
    let mut k = rank as usize;
    while k > 0 {
        let at = bounds.width_from(steps[k - 1]) - 1;
        list[at] = counts[k - 1];
        k = origins[k - 1] as usize;
    }
}
