// Calls of a setting's logic functions, by the ids of a store.
ghost use Rattle.std.specs.Prelude.{◌≡◌, ◌++◌, All, map, option_map, option_to_list, Some, None, IfSome, MatchOption, OnOk, IfOk};
ghost use Rattle.qed_terms.specs.View.{view_logic};
ghost use Rattle.instance_rows.specs.Triggers.{call_at, calls_in};
ghost use Rattle.trigger_instances.specs.Ids.{called_name, call_of, CallHeld};

use call_instances::function_for;
use qed_terms::{Head, LogicFn, TermStore};
use std::alloc::Global;
use wp_base::{List, NoMemory, Str};

/// A call of a logic function, with the argument that counts down.
#[derive(Drop)]
pub struct IdCall<I> {
    pub name: Str,
    pub number: I,
}

#[tactic(auto, unfolding(crate::specs::Ids::called_name))]
fn called_name(head: &Head) -> Option<&Str>
    ensures { MatchOption result (called_name head.now ≡ None) (λ name. called_name head.now ≡ Some name.now) }
{
    match head {
        Head::App(name) => Some(name),
        _ => None,
    }
}

/// The call that a node is, by the first function that takes its arguments.
pub fn call_at<S: TermStore>(
    alloc: Global,
    store: &S,
    functions: &List<LogicFn>,
    id: S::Id,
) -> Result<Option<IdCall<S::Id>>, NoMemory>
    requires { S.held store.now id }
    ensures call { IfOk result (λ found. option_map (call_of (S.tree store.now)) found ≡ call_at (map view_logic functions.now) (S.tree store.now id)) }
    ensures held { IfOk result (λ found. IfSome found (CallHeld (S.held store.now))) }
{
    let Some(name) = called_name(store.head(id)) else {
        return Ok(None);
    };
    let kids = store.kids(id);
    let Some(function) = function_for(store, functions, name, kids) else {
        return Ok(None);
    };
    let place = function.number as usize;
    if place >= kids.len() {
        return Ok(None);
    }
    let number = kids[place];
    let name = name.copy(alloc)?;
    Ok(Some(IdCall { name, number }))
}

fn put_call<I: Drop>(out: &mut Vec<IdCall<I>>, item: Option<IdCall<I>>) -> Result<(), NoMemory>
    ensures { OnOk result (out.new.items ≡ out.old.items ++ option_to_list item) }
{
    if let Some(item) = item {
        out.push(item)?;
    }
    Ok(())
}

/// The calls among some nodes.
pub fn calls_in<S: TermStore>(
    alloc: Global,
    store: &S,
    functions: &List<LogicFn>,
    nodes: &[S::Id],
) -> Result<Vec<IdCall<S::Id>>, NoMemory>
    requires { All (S.held store.now) nodes.now }
    ensures calls { IfOk result (λ calls. map (call_of (S.tree store.now)) calls.items ≡ calls_in (map view_logic functions.now) (map (S.tree store.now) nodes.now)) }
    ensures held { IfOk result (λ calls. All (CallHeld (S.held store.now)) calls.items) }
{
    let mut calls = Vec::new(alloc);
    for node in nodes {
        let found = call_at(alloc, store, functions, *node)?;
        put_call(&mut calls, found)?;
    }
    Ok(calls)
}
