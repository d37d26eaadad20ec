//! Formulas of linear temporal logic: as they are written, their negation normal forms, and the choices of their tableaux.
#![tactic(auto)]

mod fault;
mod formula;
pub mod laws;
mod normal;
mod normalizing;
mod noting;
mod pair;
mod reader;
mod reading;
mod token;
mod word;

pub use fault::FormulaFault;
pub use formula::{Formula, FormulaNode, Infix, Prefix};
pub use normal::{NormalForm, NormalNode};
pub use normalizing::normal_form;
pub use reader::read_formula;
pub use token::FormulaToken;
