// Tables of annotations with their binders.
ghost use Rattle.std.specs.Prelude.{◌≡◌};
ghost use Rattle.acsl_trees.specs.Tree.{view_tree};
ghost use Rattle.binder_names.specs.Tables as spec;
ghost use Rattle.binder_names.specs.Trees.{same_tree};
ghost use Rattle.binder_tables.specs.View.{view_entries, view_entry, view_table};

use crate::entries::Entry;
use crate::names::are_c_names;
use crate::same::is_same_tree;
use acsl_trees::Tree;
use wp_base::Str;

/// The annotations of a file, with the names of their binders.
#[derive(Drop)]
pub struct Table<'a> {
    pub(crate) entries: Vec<Entry<'a>>,
}

fn is_of(entry: &Entry<'_>, tree: &Tree) -> bool
    ensures { result ≡ same_tree (view_entry entry.now).tree (view_tree tree.now) }
{
    is_same_tree(entry.tree, tree)
}

fn names_in<'t>(entry: &'t Entry<'_>) -> &'t [Str]
    ensures { result.now ≡ (view_entry entry.now).binders }
{
    entry.binders.as_slice()
}

fn named_in<'t>(entries: &'t [Entry<'_>], tree: &Tree) -> &'t [Str]
    ensures { result.now ≡ spec.named_in (view_entries entries.now) (view_tree tree.now) }
{
    for at in 0..entries.len() {
        let found = is_of(&entries[at], tree);
        if found {
            return names_in(&entries[at]);
        }
    }
    &[]
}

fn has_names(entry: &Entry<'_>) -> bool
    ensures { result ≡ spec.has_names (view_entry entry.now) }
{
    are_c_names(entry.binders.as_slice())
}

fn all_have_names(entries: &[Entry<'_>]) -> bool
    ensures { result ≡ spec.is_named_table (view_entries entries.now) }
{
    for at in 0..entries.len() {
        let fits = has_names(&entries[at]);
        if !fits {
            return false;
        }
    }
    true
}

impl Table<'_> {
    /// The names of the binders of an annotation; none where it isn't there.
    pub fn binders<'t>(&'t self, tree: &Tree) -> &'t [Str]
        ensures { result.now ≡ spec.named_in (view_table self.now) (view_tree tree.now) }
    {
        named_in(self.entries.as_slice(), tree)
    }

    /// Whether all binders have names of C.
    pub fn is_named(&self) -> bool
        ensures { result ≡ spec.is_named_table (view_table self.now) }
    {
        all_have_names(self.entries.as_slice())
    }
}
