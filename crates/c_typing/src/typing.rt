// Files (C11 6.9).
ghost use Rattle.std.specs.Prelude.{◌≡◌, IfOk, OnOk, map};
ghost use Rattle.c_answers.specs.Answers.{Gives};
ghost use Rattle.c_syntax.specs.View.{view_decl, view_logic, view_program};
ghost use Rattle.c_typing.specs.Typing as spec;
ghost use Rattle.c_typing.specs.View.{view_facts, view_unit};
ghost use Rattle.typed_unit.specs.View.{view_typed};

use crate::facts::{Facts, facts_of};
use c_decls::{enum_declared, globals_declared, struct_declared, typedef_declared};
use c_functions::{Functions, count, declare_function};
use c_kinds::Machdep;
use c_scopes::{File, Local, Scope};
use c_syntax::{Decl, LogicDecl, Program};
use c_taken::taken_locals;
use c_variables::Context;
use std::alloc::Global;
use typed_prog::{CoreType, Value};
use typed_unit::{Annotated, Part, Typed};
use wp_base::{List, NoMemory, Stop};

/// What stands of a file so far.
#[derive(Drop)]
pub(crate) struct Unit<'a> {
    pub context: Context,
    pub inits: List<Option<Value>>,
    pub functions: Functions<'a>,
}

fn at_start<'a>(alloc: Global, model: Machdep) -> Unit<'a>
    ensures { view_unit result ≡ spec.at_start model }
{
    Unit {
        context: Context {
            model,
            scope: Scope {
                file: File::new(alloc),
                local: Local::new(alloc),
            },
            sizes: List::new(alloc),
            globals: List::new(alloc),
            locals: List::new(alloc),
            taken: List::new(alloc),
            result: CoreType::void(alloc),
        },
        inits: List::new(alloc),
        functions: Functions {
            bodies: List::new(alloc),
            parts: List::new(alloc),
        },
    }
}

// The definition of a predicate or of a logic function, as spelled.
fn add_logic<'a>(alloc: Global, unit: &mut Unit<'a>, logic: &'a LogicDecl) -> Result<(), NoMemory>
    ensures { OnOk result (view_unit unit.new ≡ spec.with_logic (view_unit unit.old) (view_logic logic.now)) }
{
    let names = count(unit.context.scope.file.names.len())?;
    let tags = count(unit.context.scope.file.tags.len())?;
    let decl = Annotated::Logic(logic);
    unit.functions.parts.push(Part { names, tags, decl })?;
    Ok(())
}

#[tactic(auto, using(c_answers::proofs::After::after_laws), unfolding(crate::specs::Typing::declaration))]
fn declaration<'a>(
    alloc: Global,
    facts: &Facts,
    unit: &mut Unit<'a>,
    decl: &'a Decl,
) -> Result<(), Stop>
    ensures { Gives (λ _. view_unit unit.new) result (spec.declaration (view_facts facts.now) (view_unit unit.old) (view_decl decl.now)) }
{
    match decl {
        Decl::Struct(decl) => struct_declared(alloc, &mut unit.context, decl),
        Decl::Enum(decl) => enum_declared(alloc, &mut unit.context, decl),
        Decl::Typedef(decl) => typedef_declared(alloc, &mut unit.context, decl),
        Decl::Globals(decls) => {
            let (context, inits) = (&mut unit.context, &mut unit.inits);
            globals_declared(alloc, context, &facts.taken, inits, decls.as_slice())
        }
        Decl::Function(function) => {
            let taken = taken_locals(alloc, function)?;
            let (context, so_far) = (&mut unit.context, &mut unit.functions);
            declare_function(alloc, context, so_far, &facts.bodied, taken, function)
        }
        Decl::Logic(logic) => Ok(add_logic(alloc, unit, logic)?),
    }
}

#[tactic(auto, using(crate::proofs::Decls::decls_laws))]
fn declarations<'a>(
    alloc: Global,
    facts: &Facts,
    unit: &mut Unit<'a>,
    decls: &'a [Decl],
) -> Result<(), Stop>
    ensures { Gives (λ _. view_unit unit.new) result (spec.declarations (view_facts facts.now) (view_unit unit.old) (map view_decl decls.now)) }
{
    for i in 0..decls.len() {
        declaration(alloc, facts, unit, &decls[i])?;
    }
    Ok(())
}

fn finished<'a>(unit: Unit<'a>) -> Typed<'a>
    ensures { view_typed result ≡ spec.finished (view_unit unit.entry) }
{
    let Unit {
        context,
        inits,
        functions,
    } = unit;
    let Functions { bodies, parts } = functions;
    let Context {
        model,
        scope,
        sizes: _,
        globals,
        locals: _,
        taken: _,
        result: _,
    } = context;
    let Scope { file, local: _ } = scope;
    Typed {
        model,
        file,
        plain: globals,
        inits,
        bodies,
        parts,
    }
}

/// The file with its names replaced by what they stand for and each expression with its type, or its first fault, in the order of the text, among
/// declarations and code. Its annotations are those of the program, which it borrows.
#[tactic(auto, using(c_answers::proofs::After::after_laws), unfolding(crate::specs::Typing::typed_program))]
pub fn type_program(alloc: Global, program: &Program, model: Machdep) -> Result<Typed<'_>, Stop>
    ensures { Gives view_typed result (spec.typed_program model (view_program program.now)) }
{
    let facts = facts_of(alloc, program)?;
    let mut unit = at_start(alloc, model);
    declarations(alloc, &facts, &mut unit, program.decls.as_slice())?;
    Ok(finished(unit))
}
