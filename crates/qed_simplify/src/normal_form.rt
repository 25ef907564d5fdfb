// The normal form of a formula, and its laws.
ghost use Rattle.std.specs.Prelude.{◌≡◌, true, IfOk};
ghost use Rattle.qed_terms.specs.Meaning.{World, Values, truth};
ghost use Rattle.qed_terms.specs.Setting.{is_regular};
ghost use Rattle.qed_terms.specs.View.{formula_tree, term_tree, view_setting};
ghost use Rattle.qed_rules.specs.Rules.{step};
ghost use Rattle.qed_simplify.specs.Normal.{EachHasNormal, Normal, NormalFreeNames, NormalIsOne, NormalIsSettled, NormalKeepsMeaning, NormalQuantifiers, PlainSettingsAreRegular, PlainWorldsSuit, SettingsSuit, Suits, plain};

use crate::walk::{normalise, normalise_term};
use qed_terms::{Formula, Setting, Term};
use std::alloc::Global;
use wp_base::{List, NoMemory};

/// The normal form of a formula in a regular setting: kids first, from the left, and at each node the first rule of the table
/// that changes it, whose result is brought to normal form in the same way.
pub fn normal(alloc: Global, formula: &Formula, world: &Setting) -> Result<Formula, NoMemory>
    requires { is_regular (view_setting world.now) ≡ true }
    ensures normal { IfOk result (λ r. Normal (step (view_setting world.now)) (formula_tree formula.now) (formula_tree r)) }
    ensures same { IfOk result (λ r. (w : World) → Suits (view_setting world.now) w → (env : Values) → truth w env (formula_tree r) ≡ truth w env (formula_tree formula.now)) }
{
    let normal = normalise(alloc, world, formula)?;
    Ok(normal)
}

/// The normal form of a term, in the same way.
pub fn normal_term(alloc: Global, term: &Term, world: &Setting) -> Result<Term, NoMemory>
    requires { is_regular (view_setting world.now) ≡ true }
    ensures { IfOk result (λ r. Normal (step (view_setting world.now)) (term_tree term.now) (term_tree r)) }
{
    let normal = normalise_term(alloc, world, term)?;
    Ok(normal)
}

/// The normal form of a formula by no logic functions, where `long` has 64 bits.
pub fn normal_plain(alloc: Global, formula: &Formula) -> Result<Formula, NoMemory>
    ensures { IfOk result (λ r. Normal (step (plain 64)) (formula_tree formula.now) (formula_tree r)) }
{
    let world = plain_setting(alloc, 64);
    let normal = normal(alloc, formula, &world)?;
    Ok(normal)
}

/// A setting without logic functions.
pub fn plain_setting(alloc: Global, long_bits: u8) -> Setting
    ensures { view_setting result ≡ plain long_bits }
{
    Setting {
        long_bits,
        logic: List::new(alloc),
    }
}

/// Each tree has a normal form in a regular setting.
pub fn each_has_normal()
    ensures { EachHasNormal }
{}

/// A tree has one normal form.
pub fn normal_is_one()
    ensures { NormalIsOne }
{}

/// A normal form is its own.
pub fn normal_is_settled()
    ensures { NormalIsSettled }
{}

/// A normal form has no free name that its tree hasn't.
pub fn normal_free_names()
    ensures { NormalFreeNames }
{}

/// A normal form has no more quantifiers above relations than its tree.
pub fn normal_quantifiers()
    ensures { NormalQuantifiers }
{}

/// A normal form means what the tree means, where logic functions don't tell memories apart that hold the same.
pub fn normal_keeps_meaning()
    ensures { NormalKeepsMeaning }
{}

/// The world of a regular setting suits it: its normal forms mean what their trees mean there.
pub fn settings_suit()
    ensures { SettingsSuit }
{}

/// A setting without logic functions is suited by each world of its width that doesn't tell memories apart that hold the same.
pub fn plain_worlds_suit()
    ensures { PlainWorldsSuit }
{}

/// A setting without logic functions is regular.
pub fn plain_settings_are_regular()
    ensures { PlainSettingsAreRegular }
{}
