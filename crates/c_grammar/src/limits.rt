// Limits: how many forms may be open, and how much stands in a file.

/// At most so many forms are open at each token.
pub const DEEPEST: u32 = 200;

/// At most so many more open within one bracket or brace of a declaration.
pub const MOST_WITHIN: u32 = 199;

/// Functions of a file.
pub const MOST_FUNCTIONS: usize = 500;

/// Parameters of a function.
pub const MOST_PARAMS: usize = 32;

/// Statements of a function.
pub const MOST_STMTS: usize = 2000;
