// What is read is spelled so, and what is spelled is read, where the tokens behind it may follow.
ghost use Rattle.parse_exprs.specs.Exactness.{CondIsExact, ExprIsExact};

/// `expr_at` reads exactly what is spelled.
pub fn expr_is_exact()
    ensures { ExprIsExact }
{}

/// `cond_at` reads exactly what is spelled.
pub fn cond_is_exact()
    ensures { CondIsExact }
{}
