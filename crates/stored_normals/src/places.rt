// Whether kids of a store fit a head. What the store holds is well formed, so the heads of the kids tell.
ghost use Rattle.std.specs.Prelude.{◌≡◌, ◌&&◌, ◌≤◌, ◌^◌, ◌∷◌, map, drop, length, All};
ghost use Rattle.qed_terms.specs.Names.{is_memory_name};
ghost use Rattle.qed_terms.specs.Store.{is_well_formed, over, place_of_head};
ghost use Rattle.qed_terms.specs.Tree.{trees_of};
ghost use Rattle.qed_terms.specs.WellFormed as WellFormed;
ghost use Rattle.qed_terms.specs.WellFormed.{all_fit, fits, form_places, kid_places, made_by, may_stand, mem, region_places, takes_formula, takes_name, takes_term, term_places};
ghost use Rattle.stored_normals.specs.Places.{each_fit, placed_fit, region_count, shape_count, wanted};

use goal_words::{is_name, name_sort};
use qed_terms::{FormOp, Head, Shape, Sort, TermOp, TermStore};
use wp_base::CellKind;

/// What is wanted at a place: a term of a sort, a formula, or an argument of a logic function.
#[derive(Clone, Copy)]
pub enum Wanted {
    Int,
    Memory,
    Table,
    Formula,
    Argument,
}

// ---- what a head is

fn made_by(op: &TermOp) -> Sort
    ensures { result ≡ made_by op.now }
{
    match op {
        TermOp::Store => Sort::Memory,
        TermOp::Alloc(_) | TermOp::Grow => Sort::Table,
        TermOp::Add
        | TermOp::Sub
        | TermOp::Mul
        | TermOp::Neg
        | TermOp::Div
        | TermOp::Mod
        | TermOp::Wrap(_)
        | TermOp::ShiftLeft
        | TermOp::ShiftRight
        | TermOp::BitAnd
        | TermOp::BitOr
        | TermOp::BitXor
        | TermOp::BitNot
        | TermOp::Load
        | TermOp::Count
        | TermOp::Len => Sort::Int,
    }
}

fn wanted_of(sort: Sort) -> Wanted
    ensures { wanted result ≡ WellFormed.term sort }
{
    match sort {
        Sort::Int => Wanted::Int,
        Sort::Memory => Wanted::Memory,
        Sort::Table => Wanted::Table,
    }
}

// Where a tree with this head stands.
fn place_of(head: &Head) -> Wanted
    ensures { wanted result ≡ place_of_head head.now }
{
    match head {
        Head::Num(_) | Head::Ite | Head::App(_) => Wanted::Int,
        Head::Var(_, sort) => wanted_of(*sort),
        Head::Term(op) => wanted_of(made_by(op)),
        Head::Form(_)
        | Head::True
        | Head::False
        | Head::Not
        | Head::And
        | Head::Or
        | Head::Imp
        | Head::Iff
        | Head::Forall(_)
        | Head::Exists(_) => Wanted::Formula,
    }
}

// ---- what may stand at a place

fn takes_term(place: Wanted, sort: Sort) -> bool
    ensures { result ≡ takes_term (wanted place) sort }
{
    match sort {
        Sort::Int => match place {
            Wanted::Int | Wanted::Argument => true,
            Wanted::Memory | Wanted::Table | Wanted::Formula => false,
        },
        Sort::Memory => match place {
            Wanted::Memory | Wanted::Argument => true,
            Wanted::Int | Wanted::Table | Wanted::Formula => false,
        },
        Sort::Table => match place {
            Wanted::Table => true,
            Wanted::Int | Wanted::Memory | Wanted::Formula | Wanted::Argument => false,
        },
    }
}

fn takes_formula(place: Wanted) -> bool
    ensures { result ≡ takes_formula (wanted place) }
{
    match place {
        Wanted::Formula => true,
        Wanted::Int | Wanted::Memory | Wanted::Table | Wanted::Argument => false,
    }
}

#[tactic(auto, using(crate::proofs::Fits::memory_laws))]
fn is_memory_name(name: &[u8]) -> bool
    ensures { result ≡ is_memory_name name.now }
{
    match name_sort(name) {
        Sort::Memory => true,
        Sort::Int | Sort::Table => false,
    }
}

fn takes_name(place: Wanted, sort: Sort, name: &[u8]) -> bool
    ensures { result ≡ takes_name (wanted place) sort name.now }
{
    match place {
        Wanted::Argument => match sort {
            Sort::Int => !is_memory_name(name),
            Sort::Memory => is_memory_name(name),
            Sort::Table => false,
        },
        Wanted::Int | Wanted::Memory | Wanted::Table | Wanted::Formula => takes_term(place, sort),
    }
}

fn may_stand(place: Wanted, head: &Head) -> bool
    ensures { result ≡ may_stand (wanted place) head.now }
{
    match head {
        Head::Num(_) | Head::Ite => takes_term(place, Sort::Int),
        Head::Var(name, sort) => is_name(name.bytes()) && takes_name(place, *sort, name.bytes()),
        Head::Term(op) => takes_term(place, made_by(op)),
        Head::App(name) => is_name(name.bytes()) && takes_term(place, Sort::Int),
        Head::Forall(name) | Head::Exists(name) => is_name(name.bytes()) && takes_formula(place),
        Head::Form(_)
        | Head::True
        | Head::False
        | Head::Not
        | Head::And
        | Head::Or
        | Head::Imp
        | Head::Iff => takes_formula(place),
    }
}

/// Whether what an id stands for fits a place.
#[tactic(auto, using(crate::proofs::Fits::head_tells))]
fn stands<S: TermStore>(store: &S, place: Wanted, id: S::Id) -> bool
    requires { S.held store.now id }
    ensures { result ≡ fits (wanted place) (S.tree store.now id) }
{
    may_stand(place, store.head(id))
}

// ---- kids at their places

// Whether the kids from one on all fit places of one kind.
fn are_each<S: TermStore>(store: &S, place: Wanted, kids: &[S::Id], from: usize) -> bool
    requires held { All (S.held store.now) kids.now }
    requires within { from ≤ length kids.now }
    ensures { result ≡ each_fit (S.tree store.now) (wanted place) (drop from kids.now) }
{
    for at in from..kids.len() {
        if !stands(store, place, kids[at]) {
            return false;
        }
    }
    true
}

// Whether there is a kid for each place, which fits it.
fn are_placed<S: TermStore>(store: &S, places: &[Wanted], kids: &[S::Id]) -> bool
    requires { All (S.held store.now) kids.now }
    ensures { result ≡ placed_fit (S.tree store.now) places.now kids.now }
{
    if places.len() != kids.len() {
        return false;
    }
    for at in 0..kids.len() {
        if !stands(store, places[at], kids[at]) {
            return false;
        }
    }
    true
}

// How many terms the regions have. A count of 128 bits has room for it.
fn region_count(shapes: &[Shape]) -> u128
    ensures count { result ≡ region_count shapes.now }
    ensures within { result ≤ 2 ^ 66 }
{
    let mut count = 0u128;
    for shape in shapes {
        count += terms_in(*shape);
    }
    count
}

fn terms_in(shape: Shape) -> u128
    ensures { result ≡ shape_count shape }
{
    match shape {
        Shape::Cells => 3,
        Shape::New => 1,
    }
}

// Two memories, then the terms of the regions.
fn are_framed<S: TermStore>(store: &S, shapes: &[Shape], kids: &[S::Id]) -> bool
    requires { All (S.held store.now) kids.now }
    ensures { result ≡ all_fit (mem ∷ mem ∷ region_places shapes.now) (trees_of (map (S.tree store.now) kids.now)) }
{
    if kids.len() as u128 != region_count(shapes) + 2 {
        return false;
    }
    let first = stands(store, Wanted::Memory, kids[0]);
    let second = stands(store, Wanted::Memory, kids[1]);
    let others = are_each(store, Wanted::Int, kids, 2);
    are_all(first, second, others)
}

fn are_all(first: bool, second: bool, others: bool) -> bool
    ensures { result ≡ (first && (second && others)) }
{
    first && second && others
}

// ---- the kids of each head

fn fit_term<S: TermStore>(store: &S, op: &TermOp, kids: &[S::Id]) -> bool
    requires { All (S.held store.now) kids.now }
    ensures { result ≡ all_fit (term_places op.now (length kids.now)) (trees_of (map (S.tree store.now) kids.now)) }
{
    match op {
        TermOp::Add | TermOp::Mul => are_each(store, Wanted::Int, kids, 0),
        TermOp::Neg | TermOp::Wrap(_) | TermOp::BitNot => are_placed(store, &[Wanted::Int], kids),
        TermOp::Sub
        | TermOp::Div
        | TermOp::Mod
        | TermOp::ShiftLeft
        | TermOp::ShiftRight
        | TermOp::BitAnd
        | TermOp::BitOr
        | TermOp::BitXor => are_placed(store, &[Wanted::Int, Wanted::Int], kids),
        TermOp::Load => are_placed(store, &[Wanted::Memory, Wanted::Int, Wanted::Int], kids),
        TermOp::Store => are_placed(
            store,
            &[Wanted::Memory, Wanted::Int, Wanted::Int, Wanted::Int],
            kids,
        ),
        TermOp::Count | TermOp::Alloc(_) => are_placed(store, &[Wanted::Table], kids),
        TermOp::Len | TermOp::Grow => are_placed(store, &[Wanted::Table, Wanted::Int], kids),
    }
}

fn fit_form<S: TermStore>(store: &S, op: &FormOp, kids: &[S::Id]) -> bool
    requires { All (S.held store.now) kids.now }
    ensures { result ≡ all_fit (form_places op.now) (trees_of (map (S.tree store.now) kids.now)) }
{
    match op {
        FormOp::Equal | FormOp::AtMost | FormOp::Less => {
            are_placed(store, &[Wanted::Int, Wanted::Int], kids)
        }
        FormOp::Same => are_placed(store, &[Wanted::Memory, Wanted::Memory], kids),
        FormOp::Read(_) | FormOp::Write(_) => {
            are_placed(store, &[Wanted::Table, Wanted::Int, Wanted::Int], kids)
        }
        FormOp::Live | FormOp::Has(_) => are_placed(store, &[Wanted::Table, Wanted::Int], kids),
        FormOp::WellFormed(kind) => match kind {
            CellKind::Of(_) => are_placed(store, &[Wanted::Table, Wanted::Memory], kids),
            CellKind::Ptr => are_placed(
                store,
                &[Wanted::Table, Wanted::Memory, Wanted::Memory],
                kids,
            ),
        },
        FormOp::Frame(shapes) => are_framed(store, shapes.as_slice(), kids),
    }
}

fn fit_head<S: TermStore>(store: &S, head: &Head, kids: &[S::Id]) -> bool
    requires { All (S.held store.now) kids.now }
    ensures { result ≡ all_fit (kid_places head.now (length kids.now)) (trees_of (map (S.tree store.now) kids.now)) }
{
    match head {
        Head::Num(_) | Head::Var(_, _) | Head::True | Head::False => are_placed(store, &[], kids),
        Head::Term(op) => fit_term(store, op, kids),
        Head::Form(op) => fit_form(store, op, kids),
        Head::App(_) => are_each(store, Wanted::Argument, kids, 0),
        Head::And | Head::Or => are_each(store, Wanted::Formula, kids, 0),
        Head::Not => are_placed(store, &[Wanted::Formula], kids),
        Head::Imp | Head::Iff => are_placed(store, &[Wanted::Formula, Wanted::Formula], kids),
        Head::Ite => are_placed(store, &[Wanted::Formula, Wanted::Int, Wanted::Int], kids),
        Head::Forall(_) | Head::Exists(_) => are_placed(
            store,
            &[Wanted::Int, Wanted::Int, Wanted::Formula],
            kids,
        ),
    }
}

/// Whether a head over what these ids stand for is well formed, so that the store may hold it.
#[tactic(auto, using(crate::proofs::Fits::over_laws))]
pub fn fits_over<S: TermStore>(store: &S, head: &Head, kids: &[S::Id]) -> bool
    requires { All (S.held store.now) kids.now }
    ensures { result ≡ is_well_formed (over head.now (map (S.tree store.now) kids.now)) }
{
    may_stand(place_of(head), head) && fit_head(store, head, kids)
}
