// What stands of a definition before its body: its result, its form, and its parameters (ACSL 2.6.1, 2.6.6).
ghost use Rattle.std.specs.Prelude.{◌≡◌, IfOk, Some, map};
ghost use Rattle.std.specs.Option.{option_map};
ghost use Rattle.acsl_definitions.specs.Definitions as spec;
ghost use Rattle.acsl_names.specs.Names.{view_around};
ghost use Rattle.c_answers.specs.Answers.{Gives};
ghost use Rattle.c_syntax.specs.View.{view_ctype, view_logic, view_logic_body, view_var};

use crate::types::{result_type, spelled_type};
use acsl_guards::{calls_itself, is_integer, is_recursive_form};
use acsl_names::{Around, Bound};
use acsl_preds::{bind, enter};
use acsl_terms::misshapen;
use acsl_trees::TermType;
use c_answers::refused;
use c_syntax::{CType, LogicBody, LogicDecl, VarDecl};
use name_table::Scopes;
use std::alloc::Global;
use wp_base::{List, NoMemory, Rule, Stop};

/// The types of the parameters of a definition, by their names, and that of its result.
#[derive(Drop)]
pub(crate) struct Header {
    pub params: Bound,
    pub result: Option<TermType>,
}

// ---- a definition that calls itself

fn is_recursive_function(logic: &LogicDecl, ty: &CType, body: &LogicBody) -> bool
    ensures { result ≡ spec.has_form (view_logic logic.now) (Some (view_ctype ty.now)) (view_logic_body body.now) }
{
    match body {
        LogicBody::Term(term) => is_integer(ty) && is_recursive_form(&logic.params, term),
        LogicBody::Pred(_) => true,
    }
}

fn has_form(logic: &LogicDecl) -> bool
    ensures { result ≡ spec.has_form (view_logic logic.now) (option_map view_ctype logic.now.result) (view_logic_body logic.now.body) }
{
    match &logic.result {
        Some(ty) => is_recursive_function(logic, ty, &logic.body),
        None => true,
    }
}

fn form_checked(alloc: Global, logic: &LogicDecl) -> Result<(), Stop>
    ensures { Gives (λ _. tt) result (spec.form_checked (view_logic logic.now)) }
{
    if calls_itself(alloc, logic)? && !has_form(logic) {
        return Err(misshapen(logic.line));
    }
    Ok(())
}

// ---- parameters

fn param_type(
    alloc: Global,
    around: &Around<'_>,
    names: &Bound,
    param: &VarDecl,
) -> Result<TermType, Stop>
    ensures { Gives (λ t. t) result (spec.param_type (view_around around.now) names.now (view_var param.now)) }
{
    if !names.scopes.is_free(&param.name) {
        return Err(refused(Rule::Name, param.line));
    }
    spelled_type(alloc, around, param.line, &param.ty)
}

#[tactic(auto, using(c_answers::proofs::After::after_laws))]
fn param_typed(
    alloc: Global,
    around: &Around<'_>,
    names: &mut Bound,
    param: &VarDecl,
) -> Result<(), Stop>
    ensures { Gives (λ _. names.new) result (spec.param_typed (view_around around.now) names.old (view_var param.now)) }
{
    let ty = param_type(alloc, around, names, param)?;
    bind(alloc, names, &param.name, ty)?;
    Ok(())
}

fn no_params(alloc: Global) -> Result<Bound, NoMemory>
    ensures { IfOk result (λ names. names ≡ spec.no_params) }
{
    let mut names = Bound {
        scopes: Scopes::new(alloc),
        types: List::new(alloc),
    };
    enter(alloc, &mut names)?;
    Ok(names)
}

#[tactic(auto, using(crate::proofs::Params::param_laws))]
fn params_typed(alloc: Global, around: &Around<'_>, params: &[VarDecl]) -> Result<Bound, Stop>
    ensures { Gives (λ names. names) result (spec.params_typed (view_around around.now) spec.no_params (map view_var params.now)) }
{
    let mut names = no_params(alloc)?;
    for param in params {
        param_typed(alloc, around, &mut names, param)?;
    }
    Ok(names)
}

// ---- the whole

/// What stands of a definition before its body, or the first fault in it.
#[tactic(auto, using(c_answers::proofs::After::after_laws))]
pub(crate) fn header_typed(
    alloc: Global,
    around: &Around<'_>,
    logic: &LogicDecl,
) -> Result<Header, Stop>
    ensures { Gives (λ h. h) result (spec.header_typed (view_around around.now) (view_logic logic.now)) }
{
    let ty = result_type(alloc, around, logic.line, &logic.result)?;
    form_checked(alloc, logic)?;
    let params = params_typed(alloc, around, logic.params.as_slice())?;
    Ok(Header { params, result: ty })
}
