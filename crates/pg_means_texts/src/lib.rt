//! Whether the automaton that a text spells accepts exactly the words that satisfy the formula that another text spells.
#![tactic(auto)]

mod comparison;
mod fault;
mod names;
mod sizes;
mod writing;

pub use comparison::{Compared, compare};
pub use fault::CompareFault;
pub use pg_means::{FormulaVerdict, MeansFault, ProductSizes};
pub use sizes::product_sizes;
pub use writing::write_compared;
