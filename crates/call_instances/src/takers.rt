// Which logic function a call is of.
ghost use Rattle.std.specs.Prelude.{◌≡◌, [], map, All, MatchOption};
ghost use Rattle.qed_terms.specs.Setting.{kids_match};
ghost use Rattle.qed_terms.specs.Tree.{node, trees_of};
ghost use Rattle.qed_terms.specs.View.{view_logic};
ghost use Rattle.qed_terms.specs.declared.head.Head.TheVariants as head;
ghost use Rattle.qed_calls.specs.Calls.{are_terms, fits_call};
ghost use Rattle.qed_calls.specs.View.{params};
ghost use Rattle.instance_rows.specs.Calls.{argument_tree, cases_among, cases_at};

use crate::heads::{is_same_sort, is_term_at, param_sort, sort_at};
use qed_terms::{LogicFn, Term, TermStore};
use wp_base::{List, Str};

// As many kids as parameters, of their sorts.
#[tactic(auto, using(crate::proofs::TakerLaws::match_laws))]
fn kids_match<S: TermStore>(store: &S, names: &[Term], kids: &[S::Id]) -> bool
    requires { All (S.held store.now) kids.now }
    ensures { result ≡ kids_match (params names.now) (trees_of (map (S.tree store.now) kids.now)) }
{
    for at in 0..names.len() {
        if at >= kids.len() {
            return false;
        }
        if !is_same_sort(param_sort(&names[at]), sort_at(store, kids[at])) {
            return false;
        }
    }
    kids.len() <= names.len()
}

#[tactic(auto, using(crate::proofs::TakerLaws::term_laws))]
fn are_terms<S: TermStore>(store: &S, kids: &[S::Id]) -> bool
    requires { All (S.held store.now) kids.now }
    ensures { result ≡ are_terms (trees_of (map (S.tree store.now) kids.now)) }
{
    for at in 0..kids.len() {
        if !is_term_at(store, kids[at]) {
            return false;
        }
    }
    true
}

fn fits_call<S: TermStore>(store: &S, function: &LogicFn, name: &Str, kids: &[S::Id]) -> bool
    requires { All (S.held store.now) kids.now }
    ensures { result ≡ fits_call name.now (trees_of (map (S.tree store.now) kids.now)) (view_logic function.now) }
{
    if name.bytes() != function.name.bytes() {
        return false;
    }
    if !kids_match(store, function.params.as_slice(), kids) {
        return false;
    }
    are_terms(store, kids)
}

/// The first function that takes these kids, for a call of this name.
#[tactic(auto, using(crate::proofs::TakerLaws::taker_laws))]
pub fn function_for<'a, S: TermStore>(
    store: &S,
    functions: &'a List<LogicFn>,
    name: &Str,
    kids: &[S::Id],
) -> Option<&'a LogicFn>
    requires { All (S.held store.now) kids.now }
    ensures { MatchOption result (cases_among (map view_logic functions.now) name.now (trees_of (map (S.tree store.now) kids.now)) ≡ []) (λ l. cases_among (map view_logic functions.now) name.now (trees_of (map (S.tree store.now) kids.now)) ≡ cases_at (view_logic l.now) (trees_of (map (S.tree store.now) kids.now)) (node (head.App name.now) (trees_of (map (S.tree store.now) kids.now))) (argument_tree (trees_of (map (S.tree store.now) kids.now)) l.now.number)) }
{
    for function in functions.as_slice() {
        if fits_call(store, function, name, kids) {
            return Some(function);
        }
    }
    None
}
