//! Laws that follow from the definitions. Each function states one in its contract, and does nothing.

ghost use Rattle.pg_world.specs.Laws.{SameTaken, NeverAbove, SpellsOneScript};

use crate::map_laws::of_maps;

/// Replicas that took the same updates have equal maps, whatever the order and the repeats, within one world or in two
/// worlds with the same bounds and number of vertices.
pub fn same_taken()
    ensures { SameTaken }
{}

/// After any list of events each replica has a map, the join of the updates that it took, and that map is never above the
/// least progress measure.
pub fn never_above()
    ensures { NeverAbove }
{
    of_maps();
}

/// For a given game, a text spells at most one script.
pub fn one_script()
    ensures { SpellsOneScript }
{}
