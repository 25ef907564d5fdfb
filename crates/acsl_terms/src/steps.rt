// What stands around terms that were typed (ACSL 2.2.2, 2.2.3).
ghost use Rattle.std.specs.Prelude.{◌≡◌};
ghost use Rattle.acsl_names.specs.Counting.{ended};
ghost use Rattle.acsl_names.specs.Names.{type_named, view_around};
ghost use Rattle.acsl_terms.specs.Steps as spec;
ghost use Rattle.acsl_trees.specs.Operands.{view_operand};
ghost use Rattle.acsl_trees.specs.Tree.{view_tree};
ghost use Rattle.c_answers.specs.Answers.{Gives};
ghost use Rattle.c_syntax.specs.View.{view_ctype};

use crate::leaves::{misshapen, void_pointer};
use acsl_names::{Around, Limit, Reading, ended};
use acsl_rules::{cast, labelled, unary};
use acsl_trees::{Head, Label, Operand, Tree};
use c_scopes::{Resolved, is_void_pointer, type_of};
use c_syntax::{CType, UnOp};
use std::alloc::Global;
use typed_prog::{CoreType, Variable};
use wp_base::{Line, Stop};

fn local_by(head: Head) -> Option<u32>
    ensures { result ≡ spec.local_by head }
{
    match head {
        Head::Variable(Variable::Local(number)) => Some(number),
        _ => None,
    }
}

/// The local that a term is by its very name.
#[tactic(auto, using(crate::proofs::Naming::local_is))]
pub fn local_of(tree: &Tree) -> Option<u32>
    ensures { result ≡ spec.local_of (view_tree tree.now) }
{
    local_by(tree.head)
}

fn may_address(around: &Around<'_>, reading: Reading, op: UnOp, local: Option<u32>) -> bool
    ensures { result ≡ spec.may_address (view_around around.now) reading op local }
{
    match local {
        Some(local) => op != UnOp::AddressOf || around.has_address(reading, local),
        None => true,
    }
}

/// A prefix operator; a parameter has no address in a contract.
#[tactic(auto, using(c_answers::proofs::After::after_laws), unfolding(crate::specs::Steps::prefixed))]
pub(crate) fn prefixed(
    alloc: Global,
    around: &Around<'_>,
    reading: Reading,
    line: Line,
    op: UnOp,
    of: Operand,
) -> Result<Operand, Stop>
    ensures { Gives view_operand result (spec.prefixed (view_around around.now) reading line op (view_operand of)) }
{
    let may_address = may_address(around, reading, op, local_of(&of.tree));
    let made = unary(alloc, line, op, of)?;
    if may_address {
        Ok(made)
    } else {
        Err(misshapen(line))
    }
}

/// The type of a cast with its names looked up, or their fault against the limit.
#[tactic(auto, using(crate::proofs::Closing::ended_gives))]
pub(crate) fn cast_names(
    alloc: Global,
    around: &Around<'_>,
    line: Line,
    ty: &CType,
    before: Limit,
    at: Limit,
) -> Result<Option<Resolved>, Stop>
    ensures { Gives (λ t. t) result (ended before at at (type_named (view_around around.now) line (view_ctype ty.now))) }
{
    ended(before, at, at, around.type_named(alloc, line, ty))
}

#[tactic(auto, using(c_answers::proofs::After::after_laws))]
fn cast_type(
    alloc: Global,
    line: Line,
    is_void_pointer: bool,
    named: Option<Resolved>,
) -> Result<CoreType, Stop>
    ensures { Gives (λ ty. ty) result (spec.cast_type line is_void_pointer named) }
{
    if is_void_pointer {
        return Ok(void_pointer(alloc)?);
    }
    Ok(type_of(line, named)?.ty)
}

/// A cast, in whose type the names were looked up.
#[tactic(auto, using(c_answers::proofs::After::after_laws), unfolding(crate::specs::Steps::cast_with))]
pub(crate) fn cast_with(
    alloc: Global,
    around: &Around<'_>,
    line: Line,
    ty: &CType,
    named: Option<Resolved>,
    of: Operand,
) -> Result<Operand, Stop>
    ensures { Gives view_operand result (spec.cast_with (view_around around.now) line (view_ctype ty.now) named (view_operand of)) }
{
    let is_void_pointer = is_void_pointer(alloc, around.file, line, ty)?;
    let to = cast_type(alloc, line, is_void_pointer, named)?;
    cast(alloc, around.model, line, &to, is_void_pointer, of)
}

/// A term under a label, or the fault that the label may not stand there.
#[tactic(auto, unfolding(crate::specs::Steps::labelled_by))]
pub(crate) fn labelled_by(
    alloc: Global,
    line: Line,
    label: Option<Label>,
    of: Operand,
) -> Result<Operand, Stop>
    ensures { Gives view_operand result (spec.labelled_by line label (view_operand of)) }
{
    match label {
        Some(label) => labelled(alloc, label, of),
        None => Err(misshapen(line)),
    }
}
