//! Floor 4, logic: the normal form of formulas, and its laws.
#![tactic(auto)]

mod normal_form;
mod walk;

pub use normal_form::{
    each_has_normal, normal, normal_free_names, normal_is_one, normal_is_settled,
    normal_keeps_meaning, normal_plain, normal_quantifiers, normal_term, plain_setting,
    plain_settings_are_regular, plain_worlds_suit, settings_suit,
};
