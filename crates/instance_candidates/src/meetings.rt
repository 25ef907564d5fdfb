// Loads of one memory whose offsets don't differ by a number: where their blocks are same, they may be loads of one cell.
ghost use Rattle.std.specs.Prelude.{◌≡◌, ◌++◌, ◌∷◌, [], All, map, drop, if◌then◌else◌, OnOk, IfOk};
ghost use Rattle.qed_linear.specs.Linear.{to_lin};
ghost use Rattle.qed_linear.specs.View.{lin_of};
ghost use Rattle.qed_memories.specs.Memories.{difference};
ghost use Rattle.instance_rows.specs.Candidates.{is_unknown, may_meet, meetings_with, offset_candidates};
ghost use Rattle.branch_accesses.specs.Ids.{load_of, LoadHeld};
ghost use Rattle.instance_candidates.specs.Ids.{formed_of, meeting_of, FormedHeld, IsFormed, MeetingHeld};

use branch_accesses::IdLoad;
use qed_ids::{Made, lower_node};
use qed_linear::{LinForm, form_of, subtract};
use qed_terms::TermStore;
use same_ids::is_same;
use std::alloc::Global;
use wp_base::NoMemory;

/// Two loads.
#[derive(Clone, Copy)]
pub struct Meeting<I> {
    pub first: IdLoad<I>,
    pub second: IdLoad<I>,
}

/// A load with the linear form of its offset.
#[derive(Drop)]
pub struct FormedLoad<I> {
    pub load: IdLoad<I>,
    pub form: LinForm,
}

/// The form of the term of an id. A formula has none: the answer is then `NoMemory`, though memory may be left. No load in a store has one as its offset.
fn form_at<S: TermStore>(alloc: Global, store: &S, id: S::Id) -> Result<LinForm, NoMemory>
    requires { S.held store.now id }
    ensures { IfOk result (λ form. lin_of form ≡ to_lin (S.tree store.now id)) }
{
    match lower_node(alloc, store, id)? {
        Made::Term(term) => {
            let form = form_of(alloc, &term)?;
            Ok(form)
        }
        Made::Formula(_) => Err(NoMemory),
    }
}

fn formed<S: TermStore>(
    alloc: Global,
    store: &S,
    load: IdLoad<S::Id>,
) -> Result<FormedLoad<S::Id>, NoMemory>
    requires { LoadHeld (S.held store.now) load }
    ensures load { IfOk result (λ formed. formed.load ≡ load) }
    ensures formed { IfOk result (IsFormed (S.tree store.now)) }
{
    let form = form_at(alloc, store, load.offset)?;
    Ok(FormedLoad { load, form })
}

fn formed_loads<S: TermStore>(
    alloc: Global,
    store: &S,
    loads: &[IdLoad<S::Id>],
) -> Result<Vec<FormedLoad<S::Id>>, NoMemory>
    requires { All (LoadHeld (S.held store.now)) loads.now }
    ensures loads { IfOk result (λ formed. map (formed_of (S.tree store.now)) formed.items ≡ map (load_of (S.tree store.now)) loads.now) }
    ensures held { IfOk result (λ formed. All (FormedHeld (S.held store.now)) formed.items) }
    ensures formed { IfOk result (λ formed. All (IsFormed (S.tree store.now)) formed.items) }
{
    let mut all = Vec::new(alloc);
    for load in loads {
        all.push(formed(alloc, store, *load)?)?;
    }
    Ok(all)
}

/// Whether two forms don't differ by a number of 128 bits.
#[tactic(auto, unfolding(qed_memories::specs::Memories::difference))]
fn is_unknown(alloc: Global, form: &LinForm, less: &LinForm) -> Result<bool, NoMemory>
    ensures { IfOk result (λ unknown. unknown ≡ is_unknown (difference (lin_of form.now) (lin_of less.now))) }
{
    match subtract(alloc, form, less)? {
        Some(rest) => Ok(!rest.parts.is_empty()),
        None => Ok(true),
    }
}

/// Whether two loads are of one memory, at offsets that don't differ by a number.
fn may_meet<S: TermStore>(
    alloc: Global,
    store: &S,
    first: &FormedLoad<S::Id>,
    second: &FormedLoad<S::Id>,
) -> Result<bool, NoMemory>
    requires first_held { FormedHeld (S.held store.now) first.now }
    requires second_held { FormedHeld (S.held store.now) second.now }
    requires first_formed { IsFormed (S.tree store.now) first.now }
    requires second_formed { IsFormed (S.tree store.now) second.now }
    ensures { IfOk result (λ meet. meet ≡ may_meet (formed_of (S.tree store.now) first.now) (formed_of (S.tree store.now) second.now)) }
{
    if !is_same(store, first.load.memory, second.load.memory) {
        return Ok(false);
    }
    let unknown = is_unknown(alloc, &first.form, &second.form)?;
    Ok(unknown)
}

fn put_if<I: Copy + Drop>(
    out: &mut Vec<Meeting<I>>,
    first: IdLoad<I>,
    second: IdLoad<I>,
    meet: bool,
) -> Result<(), NoMemory>
    ensures { OnOk result (out.new.items ≡ (if meet then out.old.items ++ record { first = first; second = second } ∷ [] else out.old.items)) }
{
    if meet {
        out.push(Meeting { first, second })?;
    }
    Ok(())
}

/// Puts the meetings of a load with others, from one of these on, behind others.
fn put_meetings<S: TermStore>(
    alloc: Global,
    store: &S,
    load: &FormedLoad<S::Id>,
    others: &[FormedLoad<S::Id>],
    from: usize,
    out: &mut Vec<Meeting<S::Id>>,
) -> Result<(), NoMemory>
    requires load_held { FormedHeld (S.held store.now) load.now }
    requires load_formed { IsFormed (S.tree store.now) load.now }
    requires others_held { All (FormedHeld (S.held store.now)) others.now }
    requires others_formed { All (IsFormed (S.tree store.now)) others.now }
    requires out_held { All (MeetingHeld (S.held store.now)) out.old.items }
    ensures meetings { OnOk result (map (meeting_of (S.tree store.now)) out.new.items ≡ map (meeting_of (S.tree store.now)) out.old.items ++ meetings_with (formed_of (S.tree store.now) load.now) (map (formed_of (S.tree store.now)) (drop from others.now))) }
    ensures held { OnOk result (All (MeetingHeld (S.held store.now)) out.new.items) }
{
    for at in from..others.len() {
        let other = &others[at];
        let meet = may_meet(alloc, store, load, other)?;
        put_if(out, load.load, other.load, meet)?;
    }
    Ok(())
}

/// Each meeting of a load with one that stands behind it.
fn all_meetings<S: TermStore>(
    alloc: Global,
    store: &S,
    loads: &[FormedLoad<S::Id>],
) -> Result<Vec<Meeting<S::Id>>, NoMemory>
    requires held { All (FormedHeld (S.held store.now)) loads.now }
    requires formed { All (IsFormed (S.tree store.now)) loads.now }
    ensures meetings { IfOk result (λ meetings. map (meeting_of (S.tree store.now)) meetings.items ≡ offset_candidates (map (formed_of (S.tree store.now)) loads.now)) }
    ensures held { IfOk result (λ meetings. All (MeetingHeld (S.held store.now)) meetings.items) }
{
    let mut meetings = Vec::new(alloc);
    for at in 0..loads.len() {
        put_meetings(alloc, store, &loads[at], loads, at + 1, &mut meetings)?;
    }
    Ok(meetings)
}

/// The loads that meet, each with each that stands behind it.
pub fn offset_candidates<S: TermStore>(
    alloc: Global,
    store: &S,
    loads: &[IdLoad<S::Id>],
) -> Result<Vec<Meeting<S::Id>>, NoMemory>
    requires { All (LoadHeld (S.held store.now)) loads.now }
    ensures meetings { IfOk result (λ meetings. map (meeting_of (S.tree store.now)) meetings.items ≡ offset_candidates (map (load_of (S.tree store.now)) loads.now)) }
    ensures held { IfOk result (λ meetings. All (MeetingHeld (S.held store.now)) meetings.items) }
{
    let formed = formed_loads(alloc, store, loads)?;
    let meetings = all_meetings(alloc, store, formed.as_slice())?;
    Ok(meetings)
}
