//! An automaton that is read, and outputs that are named apart from a text. `tests/reading.py` and rows of the program show
//! more of them.

use pg_hoa::{Automaton, Shape, read_automaton, with_outputs};
use std::test::Fail;

/// Whether each accessor returns what the text has. The only step meets the sets of the state and of the edge.
fn is_read(automaton: &Automaton) -> bool {
    automaton.states() == 3
        && automaton.start() == 2
        && automaton.sets() == 2
        && automaton.shape() == Shape::MaxEven
        && automaton.propositions() == 2
        && automaton.proposition(1) == b"b c".as_slice()
        && controls_the_second(automaton)
        && automaton.next(2, 1) == Some((1, [0, 1].as_slice()))
        && automaton.next(2, 3).is_none()
}

/// Whether there are two propositions, of which only the second one is the controller's.
fn controls_the_second(automaton: &Automaton) -> bool {
    automaton.propositions() == 2 && !automaton.controllable(0) && automaton.controllable(1)
}

#[test]
fn an_automaton_is_read(rt: HostRuntime) -> Result<(), Fail> {
    let text = b"HOA: v1 States: 3 Start: 2 AP: 2 \"a\" \"b c\" controllable-AP: 1 \
        Acceptance: 2 Fin(1) & Inf(0) --BODY-- State: 2 {1} [0&!1] 1 {0} --END--";
    let automaton = read_automaton(rt.alloc(), text)?;
    assert!(rt; is_read(&automaton));
    Ok(())
}

#[test]
fn outputs_are_named(rt: HostRuntime) -> Result<(), Fail> {
    let plain = b"HOA: v1 Start: 0 AP: 2 \"a\" \"b\" Acceptance: 1 Inf(0) --BODY-- --END--";
    let text = with_outputs(rt.alloc(), plain, &[b"b"])
        .ok()
        .ok_or("refused")?;
    let automaton = read_automaton(rt.alloc(), &text)?;
    assert!(rt; controls_the_second(&automaton));
    Ok(())
}
