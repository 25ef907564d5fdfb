// What is asked of loops and calls.
ghost use Rattle.std.specs.Prelude.{ℕ, Bool, List};
ghost use Rattle.typed_prog.specs.Tree.{Values};
ghost use Rattle.c_runs.specs.Program.{Loop};
ghost use Rattle.c_runs.specs.Checks.{Check};
ghost use Rattle.c_runs.specs.Tree.{Goal, Steps};
ghost use Rattle.memory_words.specs.Points.{Point};

/// What is asked of the loops and the calls of a function, so that their words do what they do.
pub trait OtherStatements {
    /// Of a loop that stands there.
    ghost loop_fits: { Point → Loop → Steps → Type 0 };
    /// Of a call that stands there, behind which these temporaries are used.
    ghost call_fits: { Point → (ℕ → Bool) → List Check → Goal → ℕ → ℕ → Values → Type 0 };
}
