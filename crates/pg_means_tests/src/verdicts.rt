//! Verdicts on an automaton that says `a U b`, which can be worked out by hand, and the texts of two of them.

use pg_hoa::read_automaton;
use pg_ltl::read_formula;
use pg_means::{FormulaVerdict, means};
use pg_means_texts::{compare, write_compared};
use std::alloc::Global;
use std::test::Fail;

/// There is a b, and a holds until then.
const UNTIL: &[u8] =
    b"HOA: v1 Start: 0 AP: 2 \"a\" \"b\" Acceptance: 1 Inf(0) --BODY-- State: 0 [0&!1] 0 [1] 1 State: 1 [t] 1 {0} --END--";

/// Returns the verdict on the automaton and a formula whose propositions are a and b.
fn verdict_on(alloc: Global, formula: &[u8]) -> Result<FormulaVerdict, Fail> {
    let automaton = read_automaton(alloc, UNTIL)?;
    let (_, formula) = read_formula(alloc, formula)?;
    Ok(means(alloc, &automaton, &formula, 2, &[0, 1])?)
}

#[test]
fn verdicts_are_right(rt: HostRuntime) -> Result<(), Fail> {
    assert!(rt; matches!(verdict_on(rt.alloc(), b"a U b")?, FormulaVerdict::Same));
    assert!(rt;
        matches!(
            verdict_on(rt.alloc(), b"a W b")?,
            FormulaVerdict::Differs(false, _, _)
        )
    );
    Ok(())
}

/// Returns the text of the verdict on the automaton and a formula.
fn text_on(alloc: Global, formula: &[u8]) -> Result<Vec<u8>, Fail> {
    let compared = compare(alloc, UNTIL, formula)?;
    let mut output = Vec::new(alloc);
    write_compared(&compared, &mut output)?;
    Ok(output)
}

/// The automaton and the formula differ on the words on which a always holds and b never comes.
#[test]
fn texts_are_compared(rt: HostRuntime) -> Result<(), Fail> {
    let same = text_on(rt.alloc(), b"b R (a | b) & F b")?;
    assert_eq!(rt; same.as_slice(), b"SAME\n".as_slice());
    let differs = text_on(rt.alloc(), b"a W b")?;
    assert!(rt;
        differs
            .as_slice()
            .starts_with(b"DIFFERS\nthe formula holds\n")
    );
    assert!(rt; differs.as_slice().ends_with(b"loop\na\n"));
    Ok(())
}
