// What is so of programs that are made of typed files.
ghost use Rattle.c_programs.specs.FileLaws.{BodiesAreNoted, BodiesArePlaced};
ghost use Rattle.c_programs.specs.Laws.{ContractsAreRead, LoopsAreRead, NotesArePlaced};

/// A statement whose annotations are typed takes those that were typed where it stands, each loop its own clauses and each assertion its own
/// predicate, and leaves those behind.
#[tactic(auto, using(crate::proofs::Notes::notes_are_placed))]
pub fn notes_are_placed()
    ensures { NotesArePlaced }
{}

/// A contract is what its clauses make one by one from the end: none is lost, each stands in its part and in its order.
#[tactic(auto, using(crate::proofs::Reading::contracts_are_read))]
pub fn contracts_are_read()
    ensures { ContractsAreRead }
{}

/// What is claimed of a loop is what its clauses make one by one from the end; what it assigns has the line of its own clause.
#[tactic(auto, using(crate::proofs::Reading::loops_are_read))]
pub fn loops_are_read()
    ensures { LoopsAreRead }
{}

/// The body of a function in a typed file has the annotations that were typed of it.
#[tactic(auto, using(crate::proofs::FileNotes::bodies_are_noted))]
pub fn bodies_are_noted()
    ensures { BodiesAreNoted }
{}

/// A body takes all annotations that were typed of it, each where it stands.
#[tactic(auto, using(crate::proofs::FileNotes::bodies_are_placed))]
pub fn bodies_are_placed()
    ensures { BodiesArePlaced }
{}
