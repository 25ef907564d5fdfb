// Quantifiers and their ranges (ACSL 2.2.2).
ghost use Rattle.std.specs.Prelude.{◌≡◌, ◌+ℤ◌, pos, IfOk};
ghost use Rattle.std.specs.Option.{option_map};
ghost use Rattle.acsl_encode.specs.Encode as spec;
ghost use Rattle.annotation_heads.specs.Nodes.{between, quantifier};
ghost use Rattle.qed_terms.specs.Tree.{Tree, num};
ghost use Rattle.annotation_heads.specs.View.{view_ends, view_terms};
ghost use Rattle.c_kinds.specs.Models.{high, low};
ghost use Rattle.qed_terms.specs.View.{formula_tree, term_tree};
ghost use Rattle.term_drafts.specs.Drafts.{TermIs};

use crate::pairs::both_integers;
use crate::terms::Terms;
use c_kinds::{Machdep, range};
use qed_terms::{Formula, Term, TermOp};
use std::alloc::Global;
use term_drafts::{TermDraft, both, number, over, ready};
use wp_base::{Kind, NoMemory, Str, box_three};

/// A range from one end up to below the other one.
#[derive(Drop)]
pub struct Ends {
    pub low: Term,
    pub high: Term,
}

/// One more.
pub fn one_more(alloc: Global, term: Term) -> TermDraft
    ensures { TermIs result (spec.one_more (term_tree term)) }
{
    over(alloc, TermOp::Add, ready(term), number(1))
}

#[tactic(auto, using(term_drafts::proofs::Drafted::draft_laws))]
fn low_end(alloc: Global, is_out: bool, term: Term) -> TermDraft
    ensures { TermIs result (spec.low_end is_out (term_tree term)) }
{
    if is_out {
        let made = one_more(alloc, term)?;
        return Ok(made);
    }
    Ok(term)
}

#[tactic(auto, using(term_drafts::proofs::Drafted::draft_laws))]
fn high_end(alloc: Global, is_out: bool, term: Term) -> TermDraft
    ensures { TermIs result (spec.high_end is_out (term_tree term)) }
{
    if is_out {
        return Ok(term);
    }
    let made = one_more(alloc, term)?;
    Ok(made)
}

/// All that a kind holds.
pub fn kind_ends(model: Machdep, kind: Kind) -> Result<Ends, NoMemory>
    ensures { IfOk result (λ ends. view_ends ends ≡ record { low = num (low model kind); high = num (high model kind +ℤ pos 1) }) }
{
    let range = range(model, kind);
    let Some(high) = range.high.checked_add(1) else {
        return Err(NoMemory);
    };
    Ok(Ends {
        low: Term::number(range.low),
        high: Term::number(high),
    })
}

#[tactic(auto, using(term_drafts::proofs::Drafted::draft_laws))]
fn ends_at(low: TermDraft, high: TermDraft) -> Result<Ends, NoMemory>
    ensures { (l h : Tree) → TermIs low l → TermIs high h → IfOk result (λ ends. view_ends ends ≡ record { low = l; high = h }) }
{
    let (low, high) = both(low, high)?;
    Ok(Ends { low, high })
}

// The ends, each itself left out or not.
fn ends_of(
    alloc: Global,
    low_out: bool,
    high_out: bool,
    low: Term,
    high: Term,
) -> Result<Ends, NoMemory>
    ensures { IfOk result (λ ends. view_ends ends ≡ record { low = spec.low_end low_out (term_tree low); high = spec.high_end high_out (term_tree high) }) }
{
    let low = low_end(alloc, low_out, low);
    let high = high_end(alloc, high_out, high);
    let ends = ends_at(low, high)?;
    Ok(ends)
}

/// From one number to another one, each itself left out or not.
#[tactic(auto, using(crate::proofs::Paired::range_laws))]
pub fn ends_between(
    alloc: Global,
    low_out: bool,
    high_out: bool,
    low: Terms,
    high: Terms,
) -> Result<Option<Ends>, NoMemory>
    ensures { IfOk result (λ ends. option_map view_ends ends ≡ between low_out high_out (spec.as_integer (view_terms low)) (spec.as_integer (view_terms high))) }
{
    let Some(both) = both_integers(alloc, low, high)? else {
        return Ok(None);
    };
    let ends = ends_of(alloc, low_out, high_out, both.first, both.second)?;
    Ok(Some(ends))
}

#[tactic(auto, using(qed_terms::proofs::Equations::tree_laws))]
fn over_range(
    alloc: Global,
    is_every: bool,
    name: Str,
    ends: Ends,
    body: Formula,
) -> Result<Formula, NoMemory>
    ensures { IfOk result (λ formula. formula_tree formula ≡ spec.over (quantifier is_every name) (view_ends ends) (formula_tree body)) }
{
    let (low, high, body) = box_three(alloc, ends.low, ends.high, body)?;
    if is_every {
        Ok(Formula::Forall(name, low, high, body))
    } else {
        Ok(Formula::Exists(name, low, high, body))
    }
}

/// That it is true for every number of a range, or for some.
#[tactic(auto, using(crate::proofs::Given::given_laws))]
pub fn quantified(
    alloc: Global,
    is_every: bool,
    name: Str,
    ends: Option<Ends>,
    body: Terms,
) -> Result<Terms, NoMemory>
    ensures { IfOk result (λ made. view_terms made ≡ spec.quantified (quantifier is_every name) (option_map view_ends ends) (spec.as_formula (view_terms body))) }
{
    let body = body.into_formula(alloc)?;
    let Some(ends) = ends else {
        return Ok(Terms::Nothing);
    };
    let Some(body) = body else {
        return Ok(Terms::Nothing);
    };
    let formula = over_range(alloc, is_every, name, ends, body)?;
    Ok(Terms::Truth(formula))
}
