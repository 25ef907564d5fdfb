// What is asked of a node of a typed annotation (ACSL 2.2).
ghost use Rattle.std.specs.Prelude.{◌≡◌, ℕ, suc, nat_lt, None, slice_index_or};
ghost use Rattle.acsl_trees.specs.Tree.{trees_of, view_trees};
ghost use Rattle.c_runs.specs.Truth.{heads_of};
ghost use Rattle.plain_annotations.specs.Plain as spec;
ghost use Rattle.plain_trees.specs.Around.{Reaches};
ghost use Rattle.plain_trees.specs.View as view;
ghost use Rattle.plain_trees.specs.View.{is_below, view_place};

use crate::roles::{Role, is_link, role_of};
use acsl_trees::{Content, Head, Range, Tree};
use typed_prog::Variable;

/// What may be named: so many variables of the file, so many of a function, and `\result` or not.
#[derive(Clone, Copy)]
pub(crate) struct Place {
    pub globals: usize,
    pub own: usize,
    pub has_result: bool,
}

// ---- kids

#[tactic(auto, using(crate::proofs::Counting::has_is))]
fn has(count: usize, kids: &[Tree]) -> bool
    ensures { result ≡ spec.has count (trees_of (view_trees kids.now)) }
{
    kids.len() >= count
}

#[tactic(auto, using(crate::proofs::Counting::counts_is))]
fn counts(count: usize, kids: &[Tree]) -> bool
    ensures { result ≡ spec.counts count (trees_of (view_trees kids.now)) }
{
    kids.len() == count
}

// ---- what is named

pub(crate) fn is_known(place: Place, variable: Variable) -> bool
    ensures { result ≡ is_below place.globals place.own variable }
{
    match variable {
        Variable::Global(number) => (number as usize) < place.globals,
        Variable::Local(number) => (number as usize) < place.own,
    }
}

pub(crate) fn names_known(place: Place, role: Role) -> bool
    ensures { result ≡ view.names (is_below place.globals place.own) role }
{
    match role {
        Role::Variable(variable) => is_known(place, variable),
        Role::Link => false,
        Role::Read => false,
        Role::Binder => false,
        Role::Other => false,
    }
}

// The first kid is a variable that may be named.
fn reads_variable(place: Place, kids: &[Tree]) -> bool
    ensures { result ≡ spec.reads_variable (is_below place.globals place.own) (trees_of (view_trees kids.now)) }
{
    if kids.len() == 0 {
        return false;
    }
    names_known(place, role_of(kids[0].head))
}

fn is_read_well(place: Place, content: Content, kids: &[Tree]) -> bool
    ensures { result ≡ view.reads (is_below place.globals place.own) content (trees_of (view_trees kids.now)) }
{
    match content {
        Content::Integer(_) => reads_variable(place, kids),
        Content::Pointer => false,
        Content::Struct(_) => false,
    }
}

#[tactic(auto, using(crate::proofs::Counting::name_laws))]
fn is_around(name: u32, around: u64) -> bool
    ensures { (d : ℕ) → Reaches around d → result ≡ nat_lt name d }
{
    u64::from(name) < around
}

fn params_at(takes: &[Option<usize>], function: u32) -> Option<usize>
    ensures { result ≡ slice_index_or takes.now function None }
{
    let at = function as usize;
    if at < takes.len() { takes[at] } else { None }
}

fn takes_kids(params: Option<usize>, kids: &[Tree]) -> bool
    ensures { result ≡ spec.takes params (trees_of (view_trees kids.now)) }
{
    match params {
        Some(count) => counts(count, kids),
        None => false,
    }
}

// ---- chains and binders

// A first term, and links behind it.
#[tactic(auto, using(crate::proofs::Reading::chain_laws))]
fn is_chain(kids: &[Tree]) -> bool
    ensures { result ≡ spec.is_chain (heads_of (trees_of (view_trees kids.now))) }
{
    for at in 1..kids.len() {
        let fits = is_link(role_of(kids[at].head));
        if !fits {
            return false;
        }
    }
    true
}

// The kids of a binder over a range.
fn bound_kids(range: Range) -> usize
    ensures { result ≡ suc (spec.ends range) }
{
    match range {
        Range::Between { .. } => 3,
        Range::Kind(_, _) => 1,
    }
}

// ---- nodes

/// Whether a node fits, where so many names are around.
pub(crate) fn node_fits(
    place: Place,
    takes: &[Option<usize>],
    around: u64,
    head: Head,
    kids: &[Tree],
) -> bool
    ensures { (d : ℕ) → Reaches around d → result ≡ spec.node_fits (view_place place takes.now) d head (trees_of (view_trees kids.now)) }
{
    match head {
        Head::Number(_) => true,
        Head::Name(name) => is_around(name, around),
        Head::Call(function) => takes_kids(params_at(takes, function), kids),
        Head::Result => place.has_result,
        Head::Read { content, label: _ } => is_read_well(place, content, kids),
        Head::At(_)
        | Head::Negate
        | Head::Complement
        | Head::Convert(_)
        | Head::Not
        | Head::Link(_) => has(1, kids),
        Head::Arithmetic(_)
        | Head::Compare(_)
        | Head::And
        | Head::Or
        | Head::Xor
        | Head::Implies
        | Head::Iff => has(2, kids),
        Head::Choose => has(3, kids),
        Head::Chain => is_chain(kids),
        Head::Let => counts(2, kids),
        Head::Every(range) | Head::Some(range) => counts(bound_kids(range), kids),
        Head::Null
        | Head::Variable(_)
        | Head::Pointed
        | Head::Field { .. }
        | Head::Element { .. }
        | Head::Elements { .. }
        | Head::Behind { .. }
        | Head::Address
        | Head::Moved { .. }
        | Head::Difference { .. }
        | Head::ComparePointers(_)
        | Head::LinkPointers(_)
        | Head::Valid { .. }
        | Head::Separated
        | Head::Region(_) => false,
    }
}
