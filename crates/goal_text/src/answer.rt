// Why there is no goal.
ghost use Rattle.std.specs.Prelude.{◌≡◌};
ghost use Rattle.goal_text.specs.declared.answer.GoalText.TheVariants as end;

use std::alloc::{AllocError, AllocFailed};
use thiserror::Error;
use wp_base::NoMemory;

/// Why no goal was read.
#[derive(Clone, Copy, Debug, PartialEq, Eq, Error)]
pub enum GoalText {
    #[error("this is no text of a goal")]
    NotAGoal,
    #[error("out of memory")]
    NoMemory,
}

impl From<NoMemory> for GoalText {
    ghost from_gives = { λ _ answer. answer ≡ end.NoMemory };

    fn from(_: NoMemory) -> Self {
        GoalText::NoMemory
    }
}

impl From<AllocError> for GoalText {
    ghost from_gives = { λ _ answer. answer ≡ end.NoMemory };

    fn from(_: AllocError) -> Self {
        GoalText::NoMemory
    }
}

impl<T: Drop> From<AllocFailed<T>> for GoalText {
    ghost from_gives = { λ _ answer. answer ≡ end.NoMemory };

    fn from(_: AllocFailed<T>) -> Self {
        GoalText::NoMemory
    }
}
