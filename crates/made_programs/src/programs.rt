// Functions and files (C11 6.9).
ghost use Rattle.std.specs.Prelude.{◌≡◌, IfOk, length, map};
ghost use Rattle.std.specs.Option.{option_map};
ghost use Rattle.acsl_clauses.specs.Typed.{view_clause};
ghost use Rattle.acsl_typing.specs.Annotations.{view_annotations};
ghost use Rattle.c_programs.specs.Files as spec;
ghost use Rattle.made_programs.specs.Texts.{all_notes, view_text};
ghost use Rattle.program_trees.specs.View.{view_facts, view_function, view_program};
ghost use Rattle.typed_unit.specs.View.{view_typed};

use crate::annotated::{Text, clauses_for, notes_of, text_of};
use crate::definitions::meant_of;
use crate::values::{valued_in, values_of};
use crate::variables::variables_of;
use acsl_clauses::TypedClause;
use acsl_notes::Note;
use acsl_typing::Annotations;
use c_scopes::{Signature, Structure};
use call_clusters::clusters_of;
use placed_bodies::{body_placed, contract_of};
use program_trees::{Facts, Function, Program};
use std::alloc::Global;
use typed_prog::CoreType;
use typed_unit::Typed;
use wp_base::{CellKind, List, NoMemory};

// ---- functions

// There are fewer parameters than a number has room for, since each has a token of the text.
fn params_of(signature: &Signature) -> Result<u32, NoMemory>
    ensures { IfOk result (λ params. params ≡ length signature.now.params) }
{
    let count = signature.params.len();
    if count > u32::MAX as usize {
        return Err(NoMemory);
    }
    Ok(count as u32)
}

fn result_of(ty: &CoreType) -> Option<CellKind>
    ensures { result ≡ spec.result_of ty.now }
{
    if ty.is_void() {
        return None;
    }
    match ty.kind() {
        Some(kind) => Some(CellKind::Of(kind)),
        None => Some(CellKind::Ptr),
    }
}

fn function_with<'a, 'b>(
    alloc: Global,
    structs: &[Structure],
    signature: &Signature,
    clauses: &[TypedClause],
    text: Text<'a, 'b, '_>,
) -> Result<Function<'a>, NoMemory>
    ensures { IfOk result (λ made. view_function made ≡ spec.function_with structs.now signature.now (map view_clause clauses.now) (view_text text.entry)) }
{
    let params = params_of(signature)?;
    let values = values_of(alloc, signature.params.len(), text.body)?;
    let variables = variables_of(
        alloc,
        structs,
        text.body.plain.as_slice(),
        values.as_slice(),
        text.body.locals.as_slice(),
    )?;
    let contract = contract_of(alloc, clauses)?;
    let body = body_placed(alloc, &text.body.stmt, text.notes, params)?;
    Ok(Function {
        params,
        variables,
        result: result_of(&signature.result),
        contract,
        body,
        end: text.body.end,
    })
}

fn function_of<'a, 'b>(
    alloc: Global,
    typed: &'a Typed<'b>,
    annotations: &Annotations,
    notes: &[&[Note]],
    number: u32,
    signature: &Signature,
) -> Result<Option<Function<'a>>, NoMemory>
    ensures { IfOk result (λ made. option_map view_function made ≡ option_map (spec.function_with typed.now.file.structs signature.now (spec.clauses_for number (view_typed typed.now).parts (view_annotations annotations.now).items)) (spec.text_of number (view_typed typed.now).bodies (all_notes notes.now))) }
{
    match text_of(number, typed.bodies.as_slice(), notes) {
        Some(text) => {
            let clauses = clauses_for(number, typed.parts.as_slice(), annotations.items.as_slice());
            let structs = typed.file.structs.as_slice();
            Ok(Some(function_with(alloc, structs, signature, clauses, text)?))
        }
        None => Ok(None),
    }
}

#[tactic(auto, using(crate::proofs::Listing::function_laws), unfolding(c_programs::specs::Files::functions_of))]
fn functions_of<'a, 'b>(
    alloc: Global,
    typed: &'a Typed<'b>,
    annotations: &Annotations,
) -> Result<List<Option<Function<'a>>>, NoMemory>
    ensures { IfOk result (λ made. map (option_map view_function) made ≡ spec.functions_of (view_typed typed.now) (view_annotations annotations.now)) }
{
    let notes = notes_of(alloc, typed.parts.as_slice(), annotations.items.as_slice())?;
    let signatures = typed.file.functions.as_slice();
    let mut made = List::new(alloc);
    for i in 0..signatures.len() {
        if i > u32::MAX as usize {
            return Err(NoMemory);
        }
        made.push(function_of(
            alloc,
            typed,
            annotations,
            notes.as_slice(),
            i as u32,
            &signatures[i],
        )?)?;
    }
    Ok(made)
}

// ---- files

#[tactic(auto, using(crate::proofs::Listing::struct_laws))]
fn structs_of(alloc: Global, structs: &[Structure]) -> Result<List<List<CellKind>>, NoMemory>
    ensures { IfOk result (λ made. made ≡ map spec.cells_in structs.now) }
{
    let mut made = List::new(alloc);
    for i in 0..structs.len() {
        let cells = Vec::from_slice(alloc, structs[i].layout.cells.as_slice())?;
        made.push(List::from_vec(cells))?;
    }
    Ok(made)
}

fn facts_of(
    alloc: Global,
    typed: &Typed<'_>,
    annotations: &Annotations,
    functions: &[Option<Function<'_>>],
) -> Result<Facts, NoMemory>
    requires { map (option_map view_function) functions.now ≡ spec.functions_of (view_typed typed.now) (view_annotations annotations.now) }
    ensures { IfOk result (λ facts. view_facts facts ≡ spec.facts_of (view_typed typed.now) (view_annotations annotations.now)) }
{
    let structs = typed.file.structs.as_slice();
    let valued = valued_in(alloc, typed.inits.as_slice())?;
    let globals = variables_of(
        alloc,
        structs,
        typed.plain.as_slice(),
        valued.as_slice(),
        typed.file.globals.as_slice(),
    )?;
    let cells = structs_of(alloc, structs)?;
    let definitions = meant_of(
        alloc,
        annotations.definitions.items.as_slice(),
        annotations.items.as_slice(),
    )?;
    let clusters = clusters_of(alloc, functions)?;
    Ok(Facts {
        model: typed.model,
        globals,
        structs: cells,
        definitions,
        clusters,
    })
}

/// The program that a typed file is, with its annotations, whose definitions are expanded. Expressions are borrowed of the file.
#[tactic(auto, using(crate::proofs::Joining::program_is), unfolding(c_programs::specs::Files::program_of))]
pub fn program_of<'a, 'b>(
    alloc: Global,
    typed: &'a Typed<'b>,
    annotations: &Annotations,
) -> Result<Program<'a>, NoMemory>
    ensures { IfOk result (λ program. view_program program ≡ spec.program_of (view_typed typed.now) (view_annotations annotations.now)) }
{
    let functions = functions_of(alloc, typed, annotations)?;
    let facts = facts_of(alloc, typed, annotations, functions.as_slice())?;
    Ok(Program { facts, functions })
}
