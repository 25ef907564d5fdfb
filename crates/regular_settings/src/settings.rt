// The functions of a setting.
ghost use Rattle.std.specs.Prelude.{◌≡◌, ◌≤◌, [], length, map, take};
ghost use Rattle.std.specs.List.{list_any};
ghost use Rattle.std.specs.Str.{bytes_eq};
ghost use Rattle.qed_terms.specs.Setting.{Logic};
ghost use Rattle.qed_terms.specs.View.{view_logic};
ghost use Rattle.regular_settings.specs.Shapes as spec;

use crate::bodies::{Uses, is_plain};
use crate::params::{all_differ, are_params, is_int_param};
use goal_words::is_name;
use qed_terms::LogicFn;

// Whether one of the functions has this name.
#[tactic(auto, using(crate::proofs::Passing::any_laws))]
fn is_named(functions: &[LogicFn], name: &[u8]) -> bool
    ensures { result ≡ list_any (λ (g : Logic). bytes_eq g.name name.now) (map view_logic functions.now) }
{
    for at in 0..functions.len() {
        if functions[at].name.bytes() == name {
            return true;
        }
    }
    false
}

fn are_bodies(before: &[LogicFn], function: &LogicFn) -> bool
    ensures { result ≡ spec.are_bodies (map view_logic before.now) (view_logic function.now) }
{
    let params = function.params.as_slice();
    let base = Uses {
        params,
        before,
        own: None,
    };
    let step = Uses {
        params,
        before,
        own: Some(function),
    };
    is_plain(&function.base, base) && is_plain(&function.step, step)
}

fn is_shaped(before: &[LogicFn], function: &LogicFn) -> bool
    ensures { result ≡ spec.is_shaped_after (map view_logic before.now) (view_logic function.now) }
{
    let name = function.name.bytes();
    let params = function.params.as_slice();
    is_name(name)
        && !is_named(before, name)
        && are_params(params)
        && all_differ(params)
        && is_int_param(params, function.number as usize)
        && are_bodies(before, function)
}

// The function at a place, after those before it.
fn is_shaped_at(functions: &[LogicFn], at: usize, function: &LogicFn) -> bool
    requires { at ≤ length functions.now }
    ensures { result ≡ spec.is_shaped_after (map view_logic (take at functions.now)) (view_logic function.now) }
{
    is_shaped(&functions[..at], function)
}

/// Whether each function is as a regular setting asks, after those before it.
#[tactic(auto, using(crate::proofs::Passing::shaped_laws))]
pub fn are_shaped(functions: &[LogicFn]) -> bool
    ensures { result ≡ spec.are_shaped_after [] (map view_logic functions.now) }
{
    for at in 0..functions.len() {
        if !is_shaped_at(functions, at, &functions[at]) {
            return false;
        }
    }
    true
}
