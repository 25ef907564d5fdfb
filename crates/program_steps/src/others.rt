// What is asked of loops and calls.
ghost use Rattle.std.specs.Prelude.{ℕ, Bool, List};
ghost use Rattle.typed_prog.specs.Tree.{Values};
ghost use Rattle.c_runs.specs.Program.{Loop};
ghost use Rattle.c_runs.specs.Checks.{Check};
ghost use Rattle.c_runs.specs.Tree.{Goal, Steps};
ghost use Rattle.program_steps.specs.Temporaries.{Temporaries};

/// What is asked of the loops and the calls of a function, so that their words do what they do.
pub trait OtherStatements {
    /// Of a loop, where these variables are in scope and these temporaries are used behind the blocks around.
    ghost loop_fits: { (ℕ → Bool) → List Temporaries → Loop → Steps → Type 0 };
    /// Of a call, behind which these temporaries are used.
    ghost call_fits: { (ℕ → Bool) → List Temporaries → Temporaries → List Check → Goal → ℕ → ℕ → Values → Type 0 };
}
