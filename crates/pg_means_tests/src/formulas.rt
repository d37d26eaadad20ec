//! A formula, and its normal form.

use pg_ltl::{FormulaNode, NormalNode, Prefix, normal_form, read_formula};
use std::test::Fail;

/// The negation says that a never holds.
#[test]
fn a_formula_is_read_and_brought_to_normal_form(rt: HostRuntime) -> Result<(), Fail> {
    let (names, formula) = read_formula(rt.alloc(), b"F a")?;
    assert!(rt; matches!(names.as_slice(), [name] if name.as_slice() == b"a".as_slice()));
    let root = formula.nodes.get(formula.root);
    assert!(rt; matches!(root, Some(FormulaNode::One(Prefix::Finally, _))));
    let negation = normal_form(rt.alloc(), &formula, false)?;
    let root = negation.nodes.get(negation.root);
    assert!(rt; matches!(root, Some(NormalNode::Release(_, _))));
    Ok(())
}
