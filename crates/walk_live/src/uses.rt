// Temporaries that expressions use.
ghost use Rattle.std.specs.Prelude.{◌≡◌, ◌||◌, ℕ};
ghost use Rattle.program_steps.specs.Temporaries as spec;
ghost use Rattle.typed_prog.specs.Tree.{values_of};
ghost use Rattle.typed_prog.specs.View.{view_value, view_values};
ghost use Rattle.walk_live.specs.Bits.{bits};

use crate::sets::mark;
use typed_prog::{Value, ValueNode};

/// Those of an expression.
#[cycle(uses)]
#[tactic(auto, using(typed_prog::proofs::Equations::view_laws))]
pub(crate) fn mark_uses(value: &Value, set: &mut Vec<bool>)
    ensures { (c : ℕ) (f : spec.Temporaries) → set.old.items ≡ bits c f → set.new.items ≡ bits c (λ n. spec.uses (view_value value.now) n || f n) }
{
    match &value.node {
        ValueNode::Temporary(number) => mark(*number, set),
        ValueNode::Apply(_, operands) => mark_all(operands.as_slice(), set),
        ValueNode::Constant(_) => {}
        ValueNode::Null => {}
        ValueNode::Logic(_, _, _) => {}
        ValueNode::Choose(_, _, _) => {}
        ValueNode::Effect(_, _) => {}
    }
}

/// Those of several.
#[cycle(uses)]
pub(crate) fn mark_all(values: &[Value], set: &mut Vec<bool>)
    ensures { (c : ℕ) (f : spec.Temporaries) → set.old.items ≡ bits c f → set.new.items ≡ bits c (λ n. spec.some_use (values_of (view_values values.now)) n || f n) }
{
    for value in values {
        mark_uses(value, set);
    }
}
