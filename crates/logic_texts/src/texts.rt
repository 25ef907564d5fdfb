// The names of binders, by a table, and how logic functions are called.
ghost use Rattle.std.specs.Prelude.{◌≡◌};
ghost use Rattle.acsl_trees.specs.Tree.{view_tree};
ghost use Rattle.annotation_words.specs.View.{called_in};
ghost use Rattle.binder_names.specs.Tables.{named_in};
ghost use Rattle.binder_tables.specs.View.{view_table};

use acsl_trees::Tree;
use annotation_words::Called;
use binder_tables::Table;
use walk_frames::Texts;
use wp_base::Str;

/// Binders have their names of a table, and these logic functions call themselves, by their numbers (ACSL 2.6.3).
#[derive(Clone, Copy)]
pub struct LogicTexts<'t, 'a> {
    pub table: &'t Table<'a>,
    pub known: &'t [Option<Called>],
}

impl<'t, 'a> Texts for LogicTexts<'t, 'a> {
    ghost text = { λ x. record { binders = named_in (view_table x.table.now); called = called_in x.known.now } };

    fn binders<'b>(&'b self, tree: &Tree) -> &'b [Str] {
        self.table.binders(tree)
    }

    fn called<'b>(&'b self) -> &'b [Option<Called>] {
        self.known
    }
}
