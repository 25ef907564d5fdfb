// Laws of the definitions, each the contract of a function that does nothing.
ghost use Rattle.same_terms.specs.Laws.{ClashRefutes, RowsAgree, SameMeans, WrittenIsForm};

/// Where the literals of a branch are true, same terms mean the same.
#[tactic(auto, using(crate::proofs::Stated::same_mean))]
pub fn same_means()
    ensures { SameMeans }
{}

/// Where literals clash, they aren't all true.
pub fn clash_refutes()
    ensures { ClashRefutes }
{}

/// On rows that stand for the terms of a branch, two places are same exactly where their terms are.
pub fn rows_agree()
    ensures { RowsAgree }
{}

/// The term of a form over plain atoms is written as this form.
#[tactic(auto, using(crate::proofs::Forms::written_is_form))]
pub fn written_is_form()
    ensures { WrittenIsForm }
{}
