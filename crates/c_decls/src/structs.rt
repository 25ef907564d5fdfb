// Declarations of structs (C11 6.7.2.1).
ghost use Rattle.std.specs.Prelude.{◌≡◌, ◌≤◌, length, map};
ghost use Rattle.c_answers.specs.Answers.{Gives};
ghost use Rattle.c_decls.specs.Structs as spec;
ghost use Rattle.c_kinds.specs.Layouts.{all_cells};
ghost use Rattle.c_syntax.specs.View.{view_struct, view_var};

use c_answers::refused;
use c_kinds::{MOST_CELLS, cells_of};
use c_scopes::{Field, Structure, cells_with, extent};
use c_syntax::{StructDecl, VarDecl};
use c_variables::{Context, variable};
use name_table::Table;
use std::alloc::Global;
use wp_base::{Layout, List, Rule, Stop, Str};

/// The fields of a struct so far: their names, what is declared of each, the layout of each, and how many cells they have.
#[derive(Drop)]
pub struct Fields {
    pub names: Table<bool>,
    pub fields: List<Field>,
    pub parts: List<Layout>,
    pub cells: u32,
}

// One field more.
#[tactic(auto, using(c_answers::proofs::After::after_laws), unfolding(crate::specs::Structs::with_field))]
fn declare_field(
    alloc: Global,
    context: &Context,
    fields: &mut Fields,
    decl: &VarDecl,
) -> Result<(), Stop>
    ensures { Gives (λ _. fields.new) result (spec.with_field context.now fields.old (view_var decl.now)) }
{
    let is_new = fields.names.declare(alloc, &decl.name, true)?;
    let ty = variable(
        alloc,
        context.model,
        context.sizes.as_slice(),
        &context.scope,
        is_new,
        decl.line,
        &decl.ty,
    )?;
    let part = extent(alloc, &context.scope.file.structs, decl.line, &ty)?;
    fields.cells = cells_with(decl.line, fields.cells, &part)?;
    fields.parts.push(part)?;
    fields.fields.push(Field {
        name: decl.name.copy(alloc)?,
        ty: ty.ty,
        is_const: ty.is_const,
    })?;
    Ok(())
}

// All fields of a struct.
#[tactic(auto, using(crate::proofs::Turns::turn_laws))]
fn all_fields(alloc: Global, context: &Context, decls: &[VarDecl]) -> Result<Fields, Stop>
    ensures { Gives (λ fields. fields) result (spec.all_fields context.now (map view_var decls.now)) }
{
    let mut fields = Fields {
        names: Table::new(alloc),
        fields: List::new(alloc),
        parts: List::new(alloc),
        cells: 0,
    };
    for decl in decls {
        declare_field(alloc, context, &mut fields, decl)?;
    }
    Ok(fields)
}

// The struct whose tag was declared last has these fields.
fn complete(alloc: Global, context: &mut Context, name: &Str, fields: Fields) -> Result<(), Stop>
    requires { length (all_cells fields.parts) ≤ MOST_CELLS }
    ensures { Gives (λ _. context.new) result (Ok (spec.completed context.old name.now fields)) }
{
    let layout = cells_of(alloc, &fields.parts)?;
    context.sizes.push(fields.cells)?;
    context.scope.file.complete_struct(Structure {
        name: name.copy(alloc)?,
        fields: fields.fields,
        layout,
    })?;
    Ok(())
}

/// Declares a struct with its fields, or tells the first fault: its tag is declared already, or that of a field. After a fault the context
/// may only be dropped.
#[tactic(auto, using(c_answers::proofs::After::after_laws, crate::proofs::Sizing::fields_within), unfolding(crate::specs::Structs::struct_declared))]
pub fn struct_declared(alloc: Global, context: &mut Context, decl: &StructDecl) -> Result<(), Stop>
    ensures { Gives (λ _. context.new) result (spec.struct_declared context.old (view_struct decl.now)) }
{
    let is_new = context.scope.file.declare_struct(alloc, &decl.name)?;
    if !is_new {
        return Err(refused(Rule::Name, decl.line));
    }
    let fields = all_fields(alloc, context, decl.fields.as_slice())?;
    complete(alloc, context, &decl.name, fields)
}
