// The kind of the cells of a memory, by the name under its stores.
ghost use Rattle.std.specs.Prelude.{◌≡◌};
ghost use Rattle.qed_terms.specs.Names as words;
ghost use Rattle.instance_rows.specs.Accesses.{kind_under, memory_kind, named_kind};
ghost use Rattle.branch_accesses.specs.Heads.{is_store, kind_in_head, kind_of_name};

use goal_words::{kind_of, name_sort};
use qed_terms::{Head, Sort, TermOp, TermStore};
use wp_base::CellKind;

/// The kind of cells that a word names.
#[tactic(auto, using(crate::proofs::NameLaws::named_laws))]
pub fn named_kind(word: &[u8]) -> Option<CellKind>
    ensures { result ≡ named_kind word.now }
{
    const BLOCKS: &[u8] = b"ptrb";
    const OFFSETS: &[u8] = b"ptro";
    if word == BLOCKS {
        return Some(CellKind::Ptr);
    }
    if word == OFFSETS {
        return Some(CellKind::Ptr);
    }
    Some(CellKind::Of(kind_of(word)?))
}

fn after_colon(bytes: &[u8]) -> &[u8]
    ensures { result.now ≡ words.after_colon bytes.now }
{
    for i in 0..bytes.len() {
        if bytes[i] == b':' {
            return &bytes[i + 1..];
        }
    }
    &[]
}

fn is_memory_name(name: &[u8]) -> bool
    ensures { result ≡ words.is_memory_name name.now }
{
    match name_sort(name) {
        Sort::Memory => true,
        Sort::Int | Sort::Table => false,
    }
}

/// The kind of the cells of the memory of this name.
pub fn memory_kind(name: &[u8]) -> Option<CellKind>
    ensures { result ≡ memory_kind name.now }
{
    if !is_memory_name(name) {
        return None;
    }
    named_kind(after_colon(name))
}

fn kind_of_name(name: &[u8], sort: Sort) -> Option<CellKind>
    ensures { result ≡ kind_of_name name.now sort }
{
    match sort {
        Sort::Memory => memory_kind(name),
        Sort::Int | Sort::Table => None,
    }
}

fn kind_in_head(head: &Head) -> Option<CellKind>
    ensures { result ≡ kind_in_head head.now }
{
    match head {
        Head::Var(name, sort) => kind_of_name(name.bytes(), *sort),
        _ => None,
    }
}

fn is_store(head: &Head) -> bool
    ensures { result ≡ is_store head.now }
{
    match head {
        Head::Term(TermOp::Store) => true,
        _ => false,
    }
}

/// The kind of the cells of a memory, by the name under its stores.
#[tactic(auto, using(crate::proofs::NameLaws::under_laws))]
pub fn kind_under<S: TermStore>(store: &S, memory: S::Id) -> Option<CellKind>
    requires { S.held store.now memory }
    ensures { result ≡ kind_under (S.tree store.now memory) }
{
    let kids = store.kids(memory);
    if is_store(store.head(memory)) {
        if kids.len() == 0 {
            return None;
        }
        return kind_under(store, kids[0]);
    }
    if kids.len() == 0 {
        return kind_in_head(store.head(memory));
    }
    None
}
