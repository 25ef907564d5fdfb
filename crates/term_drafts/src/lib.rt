//! Floor 4, logic: terms and formulas made of parts that may lack memory.
#![tactic(auto)]

mod drafts;

pub use drafts::{
    FormulaDraft, TermDraft, both, chosen, conjunction, copied, disjunction, equivalence,
    formula_copied, formula_ready, implication, negation, number, over, over_one, ready, relation,
};
