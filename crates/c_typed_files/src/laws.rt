// What is so of the typed form of a file, in other words than the definition's own.
ghost use Rattle.c_typed_files.specs.Files.{TypedFilesAreInOrder};

/// What a file is typed as is one by the rules of its declarations: each in what those before it declared, variables with constants of their types,
/// functions with the types of all their declarations, and bodies of typed statements.
#[tactic(auto, using(crate::proofs::Files::typed_files_are_in_order))]
pub fn typed_files_are_in_order()
    ensures { TypedFilesAreInOrder }
{}
