//! The size of a product.

ghost use Rattle.pg_ltl.specs.Mirrors.Nodes.{AreNormalNodes};

use crate::product::product_of;
use crate::proposal::SearchFault;
use pg_ltl::NormalNode;
use pg_means_look::ParityAutomaton;
use std::alloc::Global;

/// The number of nodes and of edges of a product.
#[derive(Clone, Copy, Debug)]
pub struct ProductSize {
    pub nodes: usize,
    pub edges: usize,
}

/// Returns the size of the product of an automaton and the tableau of the formula at the place `root` of a list, as `propose` builds it.
/// Fails as `propose` does.
pub fn size_of(
    alloc: Global,
    automaton: &ParityAutomaton,
    nodes: &[NormalNode],
    root: usize,
    parity: u32,
) -> Result<ProductSize, SearchFault>
    requires { AreNormalNodes nodes.now }
{
    let product = product_of(alloc, automaton, nodes, root, parity)?;
    Ok(ProductSize {
        nodes: product.len(),
        edges: product.edges(),
    })
}
