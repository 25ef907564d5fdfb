// Terms in their order.

use qed_terms::{Formula, Sort, Term, TermOp};
use std::alloc::Global;
use wp_base::{Kind, Layout, List, NoMemory, Str};

/// A list that is being filled. That memory ran out is told at its end alone.
#[derive(Drop)]
pub struct Filling<T: Drop> {
    items: List<T>,
    lacks_memory: bool,
}

impl<T: Drop> Filling<T> {
    pub fn new(alloc: Global) -> Filling<T> {
        Filling {
            items: List::new(alloc),
            lacks_memory: false,
        }
    }

    pub fn put(&mut self, item: Result<T, NoMemory>) {
        match item {
            Ok(item) => {
                if self.items.push(item).is_err() {
                    self.lacks_memory = true;
                }
            }
            Err(NoMemory) => self.lacks_memory = true,
        }
    }

    pub fn into_items(self) -> Result<List<T>, NoMemory> {
        let Filling {
            items,
            lacks_memory,
        } = self;
        if lacks_memory {
            return Err(NoMemory);
        }
        Ok(items)
    }
}

pub fn name(alloc: Global, bytes: &[u8], sort: Sort) -> Result<Term, NoMemory> {
    Ok(Term::Var(Str::from_bytes(alloc, bytes)?, sort))
}

/// One variable of sort int.
pub fn one_int(alloc: Global) -> Result<List<Term>, NoMemory> {
    let mut kids = List::new(alloc);
    kids.push(name(alloc, b"x", Sort::Int)?)?;
    Ok(kids)
}

pub fn layout(alloc: Global, writable: bool, count: u32) -> Layout {
    Layout {
        count,
        cells: List::new(alloc),
        writable,
    }
}

fn call(alloc: Global, name: &[u8]) -> Result<Term, NoMemory> {
    Ok(Term::App(Str::from_bytes(alloc, name)?, List::new(alloc)))
}

fn sum(alloc: Global, left: i128, right: i128) -> Result<Term, NoMemory> {
    Term::over(alloc, TermOp::Add, Term::number(left), Term::number(right))
}

fn over(alloc: Global, op: TermOp) -> Result<Term, NoMemory> {
    match one_int(alloc) {
        Ok(kids) => Ok(Term::Op(op, kids)),
        Err(NoMemory) => Err(NoMemory),
    }
}

fn put_first(alloc: Global, terms: &mut Filling<Term>) {
    terms.put(Ok(Term::number(-5)));
    terms.put(Ok(Term::number(3)));
    terms.put(Ok(Term::number(10)));
    terms.put(name(alloc, b"a", Sort::Int));
    terms.put(name(alloc, b"a", Sort::Memory));
    terms.put(name(alloc, b"ab", Sort::Int));
    terms.put(name(alloc, b"b", Sort::Int));
    terms.put(Ok(Term::Op(TermOp::Add, List::new(alloc))));
    terms.put(sum(alloc, 2, 9));
    terms.put(sum(alloc, 2, 10));
}

fn put_over_numbers(alloc: Global, terms: &mut Filling<Term>) {
    terms.put(over(alloc, TermOp::Add));
    terms.put(over(alloc, TermOp::Sub));
    terms.put(over(alloc, TermOp::Mul));
    terms.put(over(alloc, TermOp::Neg));
    terms.put(over(alloc, TermOp::Div));
    terms.put(over(alloc, TermOp::Mod));
    terms.put(over(alloc, TermOp::Wrap(Kind::Bool)));
    terms.put(over(alloc, TermOp::Wrap(Kind::ULLong)));
    terms.put(over(alloc, TermOp::ShiftLeft));
    terms.put(over(alloc, TermOp::ShiftRight));
    terms.put(over(alloc, TermOp::BitAnd));
    terms.put(over(alloc, TermOp::BitOr));
    terms.put(over(alloc, TermOp::BitXor));
    terms.put(over(alloc, TermOp::BitNot));
}

fn put_last(alloc: Global, terms: &mut Filling<Term>) {
    terms.put(Term::ite(alloc, Formula::True, Term::number(0), Term::number(1)));
    terms.put(over(alloc, TermOp::Load));
    terms.put(over(alloc, TermOp::Count));
    terms.put(over(alloc, TermOp::Len));
    terms.put(call(alloc, b"f"));
    terms.put(call(alloc, b"g"));
    terms.put(over(alloc, TermOp::Store));
    terms.put(over(alloc, TermOp::Alloc(layout(alloc, false, 3))));
    terms.put(over(alloc, TermOp::Alloc(layout(alloc, true, 2))));
    terms.put(over(alloc, TermOp::Alloc(layout(alloc, true, 3))));
    terms.put(over(alloc, TermOp::Grow));
}

/// Terms with each head, in their order; some heads with two kinds or layouts.
pub fn terms_in_order(alloc: Global) -> Result<List<Term>, NoMemory> {
    let mut terms = Filling::new(alloc);
    put_first(alloc, &mut terms);
    put_over_numbers(alloc, &mut terms);
    put_last(alloc, &mut terms);
    terms.into_items()
}
