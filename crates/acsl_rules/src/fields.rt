// Fields of structs (ACSL 2.2.3).
ghost use Rattle.std.specs.Prelude.{◌≡◌, IfOk};
ghost use Rattle.acsl_rules.specs.Objects as spec;
ghost use Rattle.acsl_trees.specs.Operands.{view_operand};
ghost use Rattle.acsl_trees.specs.Tree.{view_tree};
ghost use Rattle.c_answers.specs.Answers.{Gives};

use crate::makers::one;
use crate::operators::dereferenced;
use acsl_trees::{Head, Label, Operand, Sort, Tree};
use c_answers::refused;
use c_scopes::{File, Structure, field_number};
use std::alloc::Global;
use typed_prog::CoreType;
use wp_base::{Line, NoMemory, Rule, Stop, Str};

/// A field of a struct: its number there, its first cell, and its type.
#[derive(Drop)]
pub(crate) struct Member {
    pub number: u32,
    pub offset: u32,
    pub ty: CoreType,
}

fn member_at(
    alloc: Global,
    structure: &Structure,
    number: Option<usize>,
) -> Result<Option<Member>, NoMemory>
    ensures { IfOk result (λ f. f ≡ spec.member_at structure.now number) }
{
    let Some(number) = number else {
        return Ok(None);
    };
    let Some(field) = structure.fields.get(number) else {
        return Ok(None);
    };
    let Some(offset) = structure.layout.fields.get(number) else {
        return Ok(None);
    };
    let Ok(number) = u32::try_from(number) else {
        return Err(NoMemory);
    };
    Ok(Some(Member {
        number,
        offset: *offset,
        ty: field.ty.copy(alloc)?,
    }))
}

// The field of this name of a struct of the file; none where the struct lacks it.
#[tactic(auto, unfolding(crate::specs::Objects::member_named))]
fn member_named(
    alloc: Global,
    file: &File,
    name: &Str,
    structure: u32,
) -> Result<Option<Member>, NoMemory>
    ensures { IfOk result (λ f. f ≡ spec.member_named file.now name.now structure) }
{
    match file.structs.get(structure as usize) {
        Some(structure) => { member_at(alloc, structure, field_number(&structure.fields, name)) }
        None => Ok(None),
    }
}

fn member_by(
    alloc: Global,
    line: Line,
    tree: Tree,
    label: Option<Label>,
    member: Option<Member>,
) -> Result<Operand, Stop>
    ensures { Gives view_operand result (spec.member_by line (view_tree tree) label member) }
{
    let Some(member) = member else {
        return Err(refused(Rule::Name, line));
    };
    let Member { number, offset, ty } = member;
    let tree = one(alloc, Head::Field { number, offset }, tree)?;
    Ok(Operand {
        tree,
        sort: Sort::Object(ty, label),
    })
}

fn member_of(
    alloc: Global,
    file: &File,
    line: Line,
    name: &Str,
    tree: Tree,
    label: Option<Label>,
    structure: Option<u32>,
) -> Result<Operand, Stop>
    ensures { Gives view_operand result (spec.member_of file.now line name.now (view_tree tree) label structure) }
{
    match structure {
        Some(number) => {
            let member = member_named(alloc, file, name, number)?;
            member_by(alloc, line, tree, label, member)
        }
        None => Err(refused(Rule::Typing, line)),
    }
}

fn dotted(alloc: Global, file: &File, line: Line, name: &Str, of: Operand) -> Result<Operand, Stop>
    ensures { Gives view_operand result (spec.dotted file.now line name.now (view_operand of)) }
{
    let Operand { tree, sort } = of;
    match sort {
        Sort::Object(ty, label) => {
            member_of(alloc, file, line, name, tree, label, ty.structure())
        }
        Sort::Integer(_) => Err(refused(Rule::Typing, line)),
        Sort::Pointer(_, _) => Err(refused(Rule::Typing, line)),
        Sort::Unknown => Ok(Operand {
            tree,
            sort: Sort::Unknown,
        }),
    }
}

/// `.` and `->`.
#[tactic(auto, using(c_answers::proofs::After::after_laws), unfolding(crate::specs::Objects::field))]
pub fn field(
    alloc: Global,
    file: &File,
    line: Line,
    name: &Str,
    arrow: bool,
    of: Operand,
) -> Result<Operand, Stop>
    ensures { Gives view_operand result (spec.field file.now line name.now arrow (view_operand of)) }
{
    if arrow {
        let of = dereferenced(alloc, line, of)?;
        return dotted(alloc, file, line, name, of);
    }
    dotted(alloc, file, line, name, of)
}
