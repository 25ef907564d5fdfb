// Values on their way to a temporary.
ghost use Rattle.std.specs.Prelude.{◌≡◌, IfOk};
ghost use Rattle.c_runs.specs.Core as core;
ghost use Rattle.core_trees.specs.View.{view_cores};
ghost use Rattle.normal_steps.specs.Into.{view_put};

use crate::pushes::push;
use core_trees::{Core, Target};
use typed_prog::Value;
use wp_base::{Line, List, NoMemory};

/// What goes to a temporary, whose number isn't known yet.
#[derive(Drop)]
pub enum Put {
    /// A value that was made.
    Made(Value),
    /// What the function with this number returns, called at this line with these arguments.
    Called(u32, Line, List<Value>),
}

/// The statement that puts it into the temporary is pushed.
#[tactic(auto, using(core_trees::proofs::Equations::core_laws))]
pub fn push_put(put: Put, slot: u32, out: &mut List<Core>) -> Result<(), NoMemory>
    ensures { IfOk result (λ _. view_cores out.new ≡ core.join (view_cores out.old) (core.one (view_put put slot))) }
{
    match put {
        Put::Made(value) => push(Core::Set(slot, value), out),
        Put::Called(function, line, arguments) => push(
            Core::Call(Target::Temporary(slot), function, line, arguments),
            out,
        ),
    }
}
