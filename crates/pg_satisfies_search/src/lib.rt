//! Proposes evidence that every run of a circuit satisfies a formula, or inputs on which a run doesn't. The search looks for a run that
//! satisfies the formula's negation, in the product of the circuit and the negation's tableau. Of a proposal it is promised only that the
//! search is safe and ends: whoever wants to rely on a proposal must check it.
#![tactic(auto)]

mod bits;
mod budget;
mod choices;
mod cone;
mod formulas;
mod guide;
mod lanes;
mod lasso;
mod machine;
mod numbers;
mod pieces;
mod product;
mod proposal;
mod rails;
mod ranks;
mod selection;
mod signals;
mod tableau;
mod trace;

pub use budget::{Limits, SearchLimit};
pub use guide::{EmptyProduct, SearchGuide};
pub use lasso::InputLasso;
pub use pieces::CircuitPieces;
pub use proposal::{SatisfactionProposal, propose};
