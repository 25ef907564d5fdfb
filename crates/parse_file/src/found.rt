// What a declaration gives.

use c_syntax::Decl;
use wp_base::{Line, List, Str};

/// Where a function, its parameters and its statements begin.
#[derive(Drop)]
pub struct Lines {
    pub first: Line,
    pub params: List<Line>,
    pub stmts: List<Line>,
}

/// Declarations that stand together, the typedef names that are new, and the lines of a function.
#[derive(Drop)]
pub struct Found {
    pub decls: List<Decl>,
    pub names: List<Str>,
    pub lines: List<Lines>,
}
