// A `forall` of a store, by its parts.
ghost use Rattle.std.specs.Prelude.{◌≡◌, [], ◌∷◌, length, option_map, IfSome, IfOk, MatchOption};
ghost use Rattle.instance_rows.specs.Triggers.{quantified_at};
ghost use Rattle.forall_instances.specs.Foralls.{forall_name, forall_of, ForallHeld};

use qed_terms::{Head, TermStore};
use std::alloc::Global;
use wp_base::{NoMemory, Str};

/// The name, the bounds and the body of a `forall`.
#[derive(Drop)]
pub struct IdForall<I> {
    pub name: Str,
    pub low: I,
    pub high: I,
    pub body: I,
}

fn forall_name(alloc: Global, head: &Head) -> Result<Option<Str>, NoMemory>
    ensures { IfOk result (λ name. name ≡ forall_name head.now) }
{
    match head {
        Head::Forall(name) => {
            let name = name.copy(alloc)?;
            Ok(Some(name))
        }
        Head::Num(_)
        | Head::Var(_, _)
        | Head::Term(_)
        | Head::Ite
        | Head::App(_)
        | Head::Form(_)
        | Head::True
        | Head::False
        | Head::Not
        | Head::And
        | Head::Or
        | Head::Imp
        | Head::Iff
        | Head::Exists(_) => Ok(None),
    }
}

fn forall_with<I: Copy + Drop>(name: Str, kids: &[I]) -> Option<IdForall<I>>
    ensures { MatchOption result (length kids.now ≡ 3 → ⊥) (λ q. (q.name ≡ name) × (kids.now ≡ q.low ∷ q.high ∷ q.body ∷ [])) }
{
    if kids.len() != 3 {
        return None;
    }
    Some(IdForall {
        name,
        low: kids[0],
        high: kids[1],
        body: kids[2],
    })
}

/// The parts of a `forall`; none of any other formula, or of a term.
pub fn quantified_at<S: TermStore>(
    alloc: Global,
    store: &S,
    id: S::Id,
) -> Result<Option<IdForall<S::Id>>, NoMemory>
    requires { S.held store.now id }
    ensures quantified { IfOk result (λ found. option_map (forall_of (S.tree store.now)) found ≡ quantified_at (S.tree store.now id)) }
    ensures held { IfOk result (λ found. IfSome found (ForallHeld (S.held store.now))) }
{
    let name = forall_name(alloc, store.head(id))?;
    match name {
        None => Ok(None),
        Some(name) => Ok(forall_with(name, store.kids(id))),
    }
}
