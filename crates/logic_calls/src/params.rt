// Parameters of functions in formulas, which are names.
ghost use Rattle.std.specs.Prelude.{◌≡◌, ◌++◌, ◌∷◌, [], map, IfOk, OnOk};
ghost use Rattle.acsl_encode.specs.Setting as spec;
ghost use Rattle.annotation_words.specs.View.{view_called, view_global, view_named};
ghost use Rattle.regular_settings.specs.View.{param, params};

use annotation_words::{Called, GlobalName, Named};
use logic_bodies::name_term;
use qed_terms::Term;
use std::alloc::Global;
use wp_base::{List, NoMemory, Str};

#[tactic(auto, using(crate::proofs::Parameters::one_put))]
fn put_name(alloc: Global, name: &Str, out: &mut List<Term>) -> Result<(), NoMemory>
    ensures { OnOk result (params out.new ≡ params out.old ++ spec.integer_param name.now ∷ []) }
{
    let term = name_term(alloc, name)?;
    out.push(term)?;
    Ok(())
}

#[tactic(auto, using(crate::proofs::Parameters::two_put))]
fn put_names(alloc: Global, first: &Str, second: &Str, out: &mut List<Term>) -> Result<(), NoMemory>
    ensures { OnOk result (params out.new ≡ params out.old ++ spec.integer_param first.now ∷ spec.integer_param second.now ∷ []) }
{
    put_name(alloc, first, out)?;
    put_name(alloc, second, out)?;
    Ok(())
}

fn put_parameter(alloc: Global, parameter: &Named, out: &mut List<Term>) -> Result<(), NoMemory>
    ensures { OnOk result (params out.new ≡ params out.old ++ spec.params_of (view_named parameter.now)) }
{
    match parameter {
        Named::Integer(name) => put_name(alloc, name, out),
        Named::Pointer(block, offset) => put_names(alloc, block, offset, out),
    }
}

fn put_global(alloc: Global, global: &GlobalName, out: &mut List<Term>) -> Result<(), NoMemory>
    ensures { OnOk result (params out.new ≡ params out.old ++ spec.global_params (view_global global.now)) }
{
    match global {
        GlobalName::Integer(_, _, name) => put_name(alloc, name, out),
        GlobalName::Pointer(_, block, offset) => put_names(alloc, block, offset, out),
    }
}

#[tactic(auto, using(crate::proofs::Parameters::param_laws))]
fn put_params(alloc: Global, names: &[Named], out: &mut List<Term>) -> Result<(), NoMemory>
    ensures { OnOk result (params out.new ≡ params out.old ++ spec.all_params spec.params_of (map view_named names.now)) }
{
    for at in 0..names.len() {
        put_parameter(alloc, &names[at], out)?;
    }
    Ok(())
}

#[tactic(auto, using(crate::proofs::Parameters::global_laws))]
fn put_globals(alloc: Global, globals: &[GlobalName], out: &mut List<Term>) -> Result<(), NoMemory>
    ensures { OnOk result (params out.new ≡ params out.old ++ spec.all_params spec.global_params (map view_global globals.now)) }
{
    for at in 0..globals.len() {
        put_global(alloc, &globals[at], out)?;
    }
    Ok(())
}

/// The parameters of a function that is given no memories, and those for the variables that it is given.
#[tactic(auto, using(crate::proofs::Parameters::params_made))]
pub fn params_in(alloc: Global, called: &Called) -> Result<List<Term>, NoMemory>
    requires { called.now.memories ≡ [] }
    ensures { IfOk result (λ made. params made ≡ spec.params_in (view_called called.now)) }
{
    let mut made = List::new(alloc);
    put_params(alloc, called.params.as_slice(), &mut made)?;
    put_globals(alloc, called.globals.as_slice(), &mut made)?;
    Ok(made)
}
