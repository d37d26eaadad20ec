//! The verdict on an automaton and a formula.

ghost use Rattle.std.specs.Prelude.{◌≡◌, ◌<◌, ◌≤◌, All, IfOk, MatchOption};
ghost use Rattle.pg_hoa_automaton.specs.Formulas as conditions;
ghost use Rattle.pg_hoa_automaton.specs.Shapes.{FitsShape};
ghost use Rattle.pg_ltl.specs.Mirrors.Views.{written, form};
ghost use Rattle.pg_means_look.specs.Certificates.{Certificate, IsEmptyBy};
ghost use Rattle.pg_means_look.specs.Mirrors.Views.{automaton_of};
ghost use Rattle.pg_means_look.specs.Mirrors.Places.{IsShown};
ghost use Rattle.pg_means.specs.Verdicts.{Says};

use crate::completed::completed;
use crate::fault::MeansFault;
use crate::simplified::simple_form;
use pg_hoa_automaton::Automaton;
use pg_ltl::{Formula, NormalForm};
use pg_means_look::{ParityAutomaton, is_shown, shows_empty};
use pg_means_search::{Lasso, Proposed, propose};
use std::alloc::Global;

/// Whether an automaton and a formula agree on every word.
#[derive(Debug, Drop)]
pub enum FormulaVerdict {
    /// The automaton accepts exactly the words that satisfy the formula.
    Same,
    /// They differ on the lasso of these letters, which repeats those from the place at the end on for ever. If the flag is set, the
    /// automaton accepts the word and it doesn't satisfy the formula; otherwise it satisfies the formula and the automaton rejects it.
    Differs(bool, Vec<u32>, usize),
}

/// Returns a word that satisfies the formula and that the automaton accepts, for the parity 0, or rejects, for the parity 1; or `None` if
/// there is no such word.
fn word_of(
    alloc: Global,
    automaton: &ParityAutomaton,
    formula: &NormalForm,
    parity: u32,
) -> Result<Option<Lasso>, MeansFault>
    requires { parity < 2 }
    ensures { IfOk result (λ found. MatchOption found
        ((cert : Certificate) × IsEmptyBy (automaton_of automaton.now) (form formula.now) parity cert)
        (λ lasso. IsShown (automaton_of automaton.now) (form formula.now) parity lasso.letters.items lasso.back)) }
{
    match propose(alloc, automaton, &formula.nodes, formula.root, parity)? {
        Proposed::Empty(proposal) => {
            let empty = shows_empty(
                alloc,
                automaton,
                &formula.nodes,
                formula.root,
                &proposal.certificate,
                &proposal,
                parity,
            )?;
            if empty {
                return Ok(None);
            }
        }
        Proposed::Word(lasso) => {
            let shown = is_shown(
                alloc,
                automaton,
                &formula.nodes,
                formula.root,
                &lasso.letters,
                lasso.back,
                parity,
            )?;
            if shown {
                return Ok(Some(lasso));
            }
        }
    }
    Err(MeansFault::Undecided)
}

/// Decides whether the automaton accepts exactly the words that satisfy the formula, over the given number of propositions, at most 16,
/// the first of which are the automaton's own. `places` has for each proposition of the formula its place among all propositions; a
/// proposition of the formula without an entry never holds.
///
/// Fails with `OutOfMemory` if an allocation fails, with `TooLarge` if a limit is exceeded, and with `Undecided` if no verdict could be
/// proved.
pub fn means(
    alloc: Global,
    automaton: &Automaton,
    formula: &Formula,
    propositions: u32,
    places: &[u32],
) -> Result<FormulaVerdict, MeansFault>
    requires few { propositions ≤ 16 }
    requires places { All (λ place. place < propositions) places.now }
    ensures { IfOk result (λ verdict. (condition : conditions.Formula) → FitsShape condition automaton.now.sets automaton.now.shape
        → Says automaton.now condition propositions places.now (written formula.now) verdict) }
{
    // called for what its contract says of the automaton
    let _states = automaton.states();
    let complete = completed(alloc, automaton, propositions, places)?;
    let no = simple_form(alloc, formula, false)?;
    if let Some(lasso) = word_of(alloc, &complete, &no, 0)? {
        return Ok(FormulaVerdict::Differs(true, lasso.letters, lasso.back));
    }
    let yes = simple_form(alloc, formula, true)?;
    if let Some(lasso) = word_of(alloc, &complete, &yes, 1)? {
        return Ok(FormulaVerdict::Differs(false, lasso.letters, lasso.back));
    }
    Ok(FormulaVerdict::Same)
}
