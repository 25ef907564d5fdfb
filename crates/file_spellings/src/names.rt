// How a typed file spells its logic functions with their parameters, and its variables.
ghost use Rattle.std.specs.Prelude.{◌≡◌, ◌++◌, map, IfOk, OnOk};
ghost use Rattle.annotation_words.specs.View.{view_named};
ghost use Rattle.c_syntax.specs.View.{view_logic, view_var};
ghost use Rattle.file_spellings.specs.Spelled as spec;
ghost use Rattle.logic_calls.specs.View.{view_names, view_spelling};
ghost use Rattle.slot_names.specs.Bases as bases;
ghost use Rattle.typed_unit.specs.View.{view_annotated, view_part, view_typed};

use annotation_words::Named;
use c_scopes::Object;
use c_syntax::{LogicDecl, VarDecl};
use logic_calls::{FileNames, Spelling};
use std::alloc::Global;
use typed_unit::{Annotated, Part, Typed};
use wp_base::{List, NoMemory, Str};

// A name, with `%` before it where that is wanted.
fn shown_as(alloc: Global, is_hidden: bool, name: &Str) -> Result<Str, NoMemory>
    ensures { IfOk result (λ made. made ≡ bases.shown_as is_hidden name.now) }
{
    let mut bytes = Vec::new(alloc);
    if is_hidden {
        bytes.push(b'%')?;
    }
    bytes.extend_from_slice(name.bytes())?;
    Ok(Str::from_vec(bytes))
}

fn is_among(name: &Str, names: &[Str]) -> bool
    ensures { result ≡ bases.is_among name.now names.now }
{
    names.iter().any(|other| name.bytes() == other.bytes())
}

// ---- variables

fn object_names(alloc: Global, objects: &[Object]) -> Result<List<Str>, NoMemory>
    ensures { IfOk result (λ made. made ≡ map spec.object_name objects.now) }
{
    let mut made = List::new(alloc);
    for object in objects {
        made.push(object.name.copy(alloc)?)?;
    }
    Ok(made)
}

// ---- logic functions

fn param_named(alloc: Global, file: &[Str], param: &VarDecl) -> Result<Named, NoMemory>
    ensures { IfOk result (λ made. view_named made ≡ spec.param_named file.now (view_var param.now)) }
{
    let is_hidden = is_among(&param.name, file);
    let name = shown_as(alloc, is_hidden, &param.name)?;
    Ok(Named::Integer(name))
}

#[tactic(auto, using(crate::proofs::Spelling_all::param_laws))]
fn params_named(alloc: Global, file: &[Str], params: &[VarDecl]) -> Result<List<Named>, NoMemory>
    ensures { IfOk result (λ made. map view_named made ≡ map (spec.param_named file.now) (map view_var params.now)) }
{
    let mut made = List::new(alloc);
    for at in 0..params.len() {
        made.push(param_named(alloc, file, &params[at])?)?;
    }
    Ok(made)
}

fn spelling_of(alloc: Global, file: &[Str], logic: &LogicDecl) -> Result<Spelling, NoMemory>
    ensures { IfOk result (λ made. view_spelling made ≡ spec.spelling_of file.now (view_logic logic.now)) }
{
    let name = logic.name.copy(alloc)?;
    let params = params_named(alloc, file, logic.params.as_slice())?;
    Ok(Spelling { name, params })
}

// The logic function that a declaration is.
#[tactic(auto, using(crate::proofs::Spelling_all::put_laws))]
fn put_spelling(
    alloc: Global,
    file: &[Str],
    annotated: &Annotated<'_>,
    out: &mut List<Spelling>,
) -> Result<(), NoMemory>
    ensures { OnOk result (map view_spelling out.new ≡ map view_spelling out.old ++ spec.spelled_by file.now (view_annotated annotated.now)) }
{
    match annotated {
        Annotated::Function(_, _, _, _) => Ok(()),
        Annotated::Logic(logic) => {
            out.push(spelling_of(alloc, file, logic)?)?;
            Ok(())
        }
    }
}

#[tactic(auto, using(crate::proofs::Spelling_all::part_laws))]
fn spelled_parts(
    alloc: Global,
    file: &[Str],
    parts: &[Part<'_>],
) -> Result<List<Spelling>, NoMemory>
    ensures { IfOk result (λ made. map view_spelling made ≡ spec.spelled_parts file.now (map view_part parts.now)) }
{
    let mut made = List::new(alloc);
    for at in 0..parts.len() {
        put_spelling(alloc, file, &parts[at].decl, &mut made)?;
    }
    Ok(made)
}

/// The names of a typed file: those of its logic functions, in the order of their definitions, and those of its variables.
pub fn file_names(alloc: Global, typed: &Typed<'_>) -> Result<FileNames, NoMemory>
    ensures { IfOk result (λ made. view_names made ≡ spec.file_names (view_typed typed.now)) }
{
    let variables = object_names(alloc, typed.file.globals.as_slice())?;
    let functions = spelled_parts(alloc, variables.as_slice(), typed.parts.as_slice())?;
    Ok(FileNames {
        functions,
        variables,
    })
}
