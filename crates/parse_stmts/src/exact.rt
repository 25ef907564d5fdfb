// What is read is spelled so, and what is spelled is read.
ghost use Rattle.parse_stmts.specs.Exactness.{BlockIsExact};

/// `block_at` reads exactly what is spelled.
pub fn block_is_exact()
    ensures { BlockIsExact }
{}
