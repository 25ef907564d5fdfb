// How a function that is called sees the terms in its caller's slots (ACSL 2.3.1).
ghost use Rattle.std.specs.Prelude.{◌≡◌, map};
ghost use Rattle.acsl_trees.specs.Tree as acsl;
ghost use Rattle.c_runs.specs.Program as program;
ghost use Rattle.call_walks.specs.View.{entered_over, returned_over};
ghost use Rattle.core_trees.specs.View.{view_variables};
ghost use Rattle.program_steps.specs.Terms as terms;
ghost use Rattle.qed_terms.specs.View.{term_tree};
ghost use Rattle.walk_frames.specs.Labelled.{reading_in};

use annotation_words::{Locals, Seen, SlotAt};
use core_trees::FunctionVariable;
use qed_terms::Term;
use walk_frames::Labels;
use wp_base::{Kind, List};

/// Where a function with these variables is entered, in a state with these slots.
pub(crate) fn entered<'a>(
    variables: &'a List<FunctionVariable>,
    file: &'a [Term],
    arguments: &'a [Term],
) -> Labels<'a>
    ensures { (p : program.Facts) (texts : terms.Texts) (a : acsl.Tree) → reading_in p texts result a ≡ entered_over p texts (view_variables variables.now) (map term_tree file.now) (map term_tree arguments.now) a }
{
    let seen = Seen {
        file,
        locals: Locals::Arguments(variables, arguments),
    };
    Labels {
        here: seen,
        pre: seen,
        post: seen,
        loop_entry: seen,
        result: None,
    }
}

/// Where it has returned; its result is in this slot, of a kind if it is an integer.
pub(crate) fn returned<'a>(
    variables: &'a List<FunctionVariable>,
    kind: Option<Kind>,
    answer: usize,
    now: &'a [Term],
    before: &'a [Term],
    arguments: &'a [Term],
) -> Labels<'a>
    ensures { (p : program.Facts) (texts : terms.Texts) (a : acsl.Tree) → reading_in p texts result a ≡ returned_over p texts (view_variables variables.now) kind answer (map term_tree now.now) (map term_tree before.now) (map term_tree arguments.now) a }
{
    let present = Seen {
        file: now,
        locals: Locals::Arguments(variables, arguments),
    };
    let past = Seen {
        file: before,
        locals: Locals::Arguments(variables, arguments),
    };
    Labels {
        here: present,
        pre: past,
        post: present,
        loop_entry: past,
        result: Some(SlotAt {
            slots: now,
            at: answer,
            kind,
        }),
    }
}
