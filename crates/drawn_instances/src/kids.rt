// The kids of a node, where there are so many.
ghost use Rattle.std.specs.Prelude.{◌≡◌, false, MatchOption};
ghost use Rattle.qed_terms.specs.Tree.{kids_in, more, one, three, two};
ghost use Rattle.drawn_instances.specs.Heads.{is_four, is_one, is_three, is_two};

use qed_terms::TermStore;

/// The kid, where there is one.
#[tactic(auto, using(crate::proofs::KidLaws::kid_laws))]
pub fn one_kid<S: TermStore>(store: &S, id: S::Id) -> Option<S::Id>
    requires { S.held store.now id }
    ensures { MatchOption result (is_one (kids_in (S.tree store.now id)) ≡ false) (λ kid. S.held store.now kid × (kids_in (S.tree store.now id) ≡ one (S.tree store.now kid))) }
{
    let kids = store.kids(id);
    if kids.len() == 1 { Some(kids[0]) } else { None }
}

/// The kids, where there are two.
#[tactic(auto, using(crate::proofs::KidLaws::kid_laws))]
pub fn two_kids<S: TermStore>(store: &S, id: S::Id) -> Option<(S::Id, S::Id)>
    requires { S.held store.now id }
    ensures { MatchOption result (is_two (kids_in (S.tree store.now id)) ≡ false) (λ kids. S.held store.now kids.0 × S.held store.now kids.1 × (kids_in (S.tree store.now id) ≡ two (S.tree store.now kids.0) (S.tree store.now kids.1))) }
{
    let kids = store.kids(id);
    if kids.len() == 2 {
        Some((kids[0], kids[1]))
    } else {
        None
    }
}

/// The kids, where there are three.
#[tactic(auto, using(crate::proofs::KidLaws::kid_laws))]
pub fn three_kids<S: TermStore>(store: &S, id: S::Id) -> Option<(S::Id, S::Id, S::Id)>
    requires { S.held store.now id }
    ensures { MatchOption result (is_three (kids_in (S.tree store.now id)) ≡ false) (λ kids. S.held store.now kids.0 × S.held store.now kids.1 × S.held store.now kids.2 × (kids_in (S.tree store.now id) ≡ three (S.tree store.now kids.0) (S.tree store.now kids.1) (S.tree store.now kids.2))) }
{
    let kids = store.kids(id);
    if kids.len() == 3 {
        Some((kids[0], kids[1], kids[2]))
    } else {
        None
    }
}

/// The kids, where there are four.
#[tactic(auto, using(crate::proofs::KidLaws::kid_laws))]
pub fn four_kids<S: TermStore>(store: &S, id: S::Id) -> Option<(S::Id, S::Id, S::Id, S::Id)>
    requires { S.held store.now id }
    ensures { MatchOption result (is_four (kids_in (S.tree store.now id)) ≡ false) (λ kids. S.held store.now kids.0 × S.held store.now kids.1 × S.held store.now kids.2 × S.held store.now kids.3 × (kids_in (S.tree store.now id) ≡ more (S.tree store.now kids.0) (three (S.tree store.now kids.1) (S.tree store.now kids.2) (S.tree store.now kids.3)))) }
{
    let kids = store.kids(id);
    if kids.len() == 4 {
        Some((kids[0], kids[1], kids[2], kids[3]))
    } else {
        None
    }
}
