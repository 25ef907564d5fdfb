// Temporaries in expressions.
ghost use Rattle.std.specs.Prelude.{◌≡◌, OnOk};
ghost use Rattle.std.specs.Option.{option_map};
ghost use Rattle.temporary_kinds.specs.Kinds as spec;
ghost use Rattle.temporary_kinds.specs.View.{Tells};
ghost use Rattle.typed_prog.specs.Tree.{values_of};
ghost use Rattle.typed_prog.specs.View.{view_value, view_value_node, view_values};
ghost use Rattle.value_terms.specs.Typed as typed;

use crate::found::mention;
use typed_prog::{CoreType, Value, ValueNode};
use wp_base::{CellKind, Kind, NoMemory};

/// The kind of what an expression of this type gives.
pub(crate) fn kind_given(ty: &CoreType) -> CellKind
    ensures { result ≡ typed.kind_given ty.now }
{
    if ty.is_pointer() {
        return CellKind::Ptr;
    }
    match ty.kind() {
        Some(kind) => CellKind::Of(kind),
        None => CellKind::Of(Kind::Int),
    }
}

/// An expression.
#[cycle(mention_value)]
pub(crate) fn mention_value(
    value: &Value,
    kinds: &mut Vec<Option<CellKind>>,
) -> Result<(), NoMemory>
    ensures { OnOk result (Tells kinds.old.items kinds.new.items (spec.value_kind (view_value value.now)) (spec.value_count (view_value value.now))) }
{
    mention_node(&value.node, &value.ty, kinds)?;
    Ok(())
}

#[cycle(mention_value)]
#[tactic(auto, using(crate::proofs::Expressions::node_laws, typed_prog::proofs::Equations::view_laws))]
fn mention_node(
    node: &ValueNode,
    ty: &CoreType,
    kinds: &mut Vec<Option<CellKind>>,
) -> Result<(), NoMemory>
    ensures { OnOk result (Tells kinds.old.items kinds.new.items (spec.node_kind ty.now (view_value_node node.now)) (spec.node_count (view_value_node node.now))) }
{
    match node {
        ValueNode::Temporary(number) => {
            mention(kinds, *number, Some(kind_given(ty)))?;
            Ok(())
        }
        ValueNode::Apply(_, operands) => {
            mention_values(operands.as_slice(), kinds)?;
            Ok(())
        }
        ValueNode::Constant(_) => Ok(()),
        ValueNode::Null => Ok(()),
        ValueNode::Logic(_, _, _) => Ok(()),
        ValueNode::Choose(_, _, _) => Ok(()),
        ValueNode::Effect(_, _) => Ok(()),
    }
}

/// Expressions, one after the other.
#[cycle(mention_value)]
#[tactic(auto, using(crate::proofs::Expressions::list_laws, crate::proofs::Telling::onward_laws))]
pub(crate) fn mention_values(
    values: &[Value],
    kinds: &mut Vec<Option<CellKind>>,
) -> Result<(), NoMemory>
    ensures { OnOk result (Tells kinds.old.items kinds.new.items (spec.values_kind (values_of (view_values values.now))) (spec.values_count (values_of (view_values values.now)))) }
{
    for at in 0..values.len() {
        mention_value(&values[at], kinds)?;
    }
    Ok(())
}

/// The expression of a statement that may have one.
#[tactic(auto, using(crate::proofs::Telling::nothing_told))]
pub(crate) fn mention_given(
    value: &Option<Value>,
    kinds: &mut Vec<Option<CellKind>>,
) -> Result<(), NoMemory>
    ensures { OnOk result (Tells kinds.old.items kinds.new.items (spec.given_kind (option_map view_value value.now)) (spec.given_count (option_map view_value value.now))) }
{
    match value {
        None => Ok(()),
        Some(value) => {
            mention_value(value, kinds)?;
            Ok(())
        }
    }
}
