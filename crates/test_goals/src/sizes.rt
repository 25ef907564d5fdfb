// Sizes, fresh names and stores.

use qed_terms::{
    FormOp, Formula, Fresh, Head, Term, TermOp, TermStore, TreeStore, intern_formula, intern_term,
};
use std::alloc::Global;
use test_lines::Page;
use wp_base::{NoMemory, Str};

fn tell(page: &mut Page, what: &str, holds: bool) {
    page.put(what);
    page.put(if holds { " yes\n" } else { " no\n" });
}

// A sum of two numbers: three heads.
fn sum(alloc: Global) -> Result<Term, NoMemory> {
    Term::over(alloc, TermOp::Add, Term::number(2), Term::number(1))
}

pub fn tell_sizes(alloc: Global, page: &mut Page) -> Result<(), NoMemory> {
    let term = sum(alloc)?;
    tell(page, "sum larger than 2", term.is_larger_than(2));
    tell(page, "sum larger than 3", term.is_larger_than(3));
    let range = Formula::relation(alloc, FormOp::AtMost, Term::number(0), term)?;
    tell(page, "range larger than 4", range.is_larger_than(4));
    tell(page, "range larger than 5", range.is_larger_than(5));
    tell(page, "room of 7 leaves 2", range.room_after(7) == Some(2));
    tell(page, "room of 4 leaves none", range.room_after(4) == None);
    Ok(())
}

pub fn tell_names(alloc: Global, page: &mut Page) -> Result<(), NoMemory> {
    let mut fresh = Fresh::new(alloc);
    for base in ["p:b", "p:o", "p:b", "x", "M:int", "x"] {
        let base = Str::from_bytes(alloc, base.as_bytes())?;
        let name = fresh.name(&base)?;
        page.put("name");
        page.put_name(name.bytes());
        page.put("\n");
    }
    Ok(())
}

// The number of kids of a difference in a store.
fn kids_of_a_difference(alloc: Global) -> Result<usize, NoMemory> {
    let difference = Term::over(alloc, TermOp::Sub, Term::number(2), Term::number(1))?;
    let mut store = TreeStore::new(alloc);
    let id = intern_term(alloc, &mut store, &difference)?;
    Ok(store.kids(id).len())
}

// Whether the head of a comparison in a store is that of the comparison.
fn is_head_kept(alloc: Global) -> Result<bool, NoMemory> {
    let less = Formula::relation(alloc, FormOp::Less, Term::number(1), Term::number(2))?;
    let mut store = TreeStore::new(alloc);
    let id = intern_formula(alloc, &mut store, &less)?;
    Ok(matches!(store.head(id), Head::Form(FormOp::Less)))
}

pub fn tell_stores(alloc: Global, page: &mut Page) -> Result<(), NoMemory> {
    page.put("kids of a difference ");
    page.put_number(kids_of_a_difference(alloc)?);
    page.put("\n");
    tell(page, "head of a comparison", is_head_kept(alloc)?);
    Ok(())
}
