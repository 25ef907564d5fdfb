// What stands around a place of a file (C11 6.2.1).

use c_kinds::Machdep;
use c_scopes::Scope;
use typed_prog::CoreType;
use wp_base::List;

/// What is known at a place of a file: what is declared so far, and what its expressions are typed with.
#[derive(Drop)]
pub struct Context {
    pub model: Machdep,
    pub scope: Scope,
    /// How many cells each struct of the file has, by its number.
    pub sizes: List<u32>,
    /// Which variables of the file are plain, by their numbers: no array, no struct, and their address is never taken.
    pub globals: List<bool>,
    /// Which locals of the function are plain, by their numbers, its parameters first.
    pub locals: List<bool>,
    /// The address of which locals of the function is taken, those that are declared further on among them.
    pub taken: List<bool>,
    /// The type of the function's results.
    pub result: CoreType,
}
