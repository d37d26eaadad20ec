//! The number of propositions that each player sets.

ghost use Rattle.std.specs.Prelude.{◌≡◌, ◌≤◌, length};
ghost use Rattle.pg_synth.specs.Letters.{inputs};

/// Returns how many propositions the environment sets.
pub(crate) fn count_inputs(controllable: &[bool]) -> u32
    requires { length controllable.now ≤ 16 }
    ensures value { result ≡ inputs controllable.now }
    ensures few { result ≤ length controllable.now }
{
    match controllable {
        [] => 0,
        [first, rest @ ..] => {
            let others = count_inputs(rest);
            if *first { others } else { others + 1 }
        }
    }
}
