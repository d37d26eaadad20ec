//! The laws of measures and maps that the proofs use.

ghost use Rattle.pg_world.specs.Mirrors.MapLaws.{MapLaws};

/// States all of these laws. It does nothing.
pub fn of_maps()
    ensures { MapLaws }
{
    pg_measure::laws::order_is_total();
    pg_map::laws::zero_map_is_least();
    pg_map::laws::game_lines();
    pg_map::laws::lift_stays_under();
}
