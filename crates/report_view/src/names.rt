// Names that are asked for, and that no goal has.
ghost use Rattle.std.specs.Prelude.{◌≡◌, ◌++◌, IfOk, map, option_map};
ghost use Rattle.std.specs.List.{list_any};
ghost use Rattle.report_read.specs.Bytes.{joined};
ghost use Rattle.report_read.specs.View.{bytes_of};
ghost use Rattle.report_shown.specs.View.{view_goals, view_wanted};
ghost use Rattle.report_view.specs.Answer as spec;
ghost use Rattle.report_view.specs.View.{items_of};

use report_read::Goal;
use report_shown::{Wanted, checks_of, functions_of, put};
use std::alloc::Global;
use wp_base::NoMemory;

fn has_function(goals: &[Goal], name: &[u8]) -> bool
    ensures { result ≡ list_any (spec.is_function name.now) (view_goals goals.now) }
{
    for goal in goals {
        if goal.function == name {
            return true;
        }
    }
    false
}

fn has_check(goals: &[Goal], name: &[u8]) -> bool
    ensures { result ≡ list_any (spec.is_check name.now) (view_goals goals.now) }
{
    for goal in goals {
        if goal.check == name {
            return true;
        }
    }
    false
}

#[tactic(auto, using(report_shown::proofs::Joined::two_put))]
fn put_listed(text: &mut Vec<u8>, name: &[u8]) -> Result<(), NoMemory>
    ensures { IfOk result (λ _. text.new.items ≡ text.old.items ++ spec.listed name.now) }
{
    put(text, b" ")?;
    put(text, name)
}

#[tactic(auto, using(report_shown::proofs::Joined::joined_more, report_shown::proofs::Joined::joined_end))]
fn put_names(text: &mut Vec<u8>, names: &[&[u8]]) -> Result<(), NoMemory>
    ensures { IfOk result (λ _. text.new.items ≡ text.old.items ++ joined (map spec.listed (map bytes_of names.now))) }
{
    for name in names {
        put_listed(text, *name)?;
    }
    Ok(())
}

// What is said where no goal has a name.
fn put_no_name(
    text: &mut Vec<u8>,
    sort: &[u8],
    name: &[u8],
    names: &[&[u8]],
) -> Result<(), NoMemory>
    ensures { IfOk result (λ _. text.new.items ≡ text.old.items ++ spec.no_name sort.now name.now (map bytes_of names.now)) }
{
    put(text, b"wpview: no goal has the ")?;
    put(text, sort)?;
    put(text, b" ")?;
    put(text, name)?;
    put(text, b"; there are:")?;
    put_names(text, names)
}

fn no_function(
    alloc: Global,
    goals: &[Goal],
    name: Option<&[u8]>,
) -> Result<Option<Vec<u8>>, NoMemory>
    ensures { IfOk result (λ said. option_map items_of said ≡ spec.no_function (view_goals goals.now) (option_map bytes_of name.entry)) }
{
    let Some(name) = name else {
        return Ok(None);
    };
    if has_function(goals, name) {
        return Ok(None);
    }
    let names = functions_of(alloc, goals)?;
    let mut said = Vec::new(alloc);
    put_no_name(&mut said, b"function", name, names.as_slice())?;
    Ok(Some(said))
}

fn no_check(alloc: Global, goals: &[Goal], name: Option<&[u8]>) -> Result<Option<Vec<u8>>, NoMemory>
    ensures { IfOk result (λ said. option_map items_of said ≡ spec.no_check (view_goals goals.now) (option_map bytes_of name.entry)) }
{
    let Some(name) = name else {
        return Ok(None);
    };
    if has_check(goals, name) {
        return Ok(None);
    }
    let names = checks_of(alloc, goals)?;
    let mut said = Vec::new(alloc);
    put_no_name(&mut said, b"check", name, names.as_slice())?;
    Ok(Some(said))
}

/// What is said of the names that are asked for, where no goal has one: the function's first.
#[tactic(auto, unfolding(crate::specs::Answer::said_of))]
pub fn said_of(alloc: Global, goals: &[Goal], wanted: Wanted) -> Result<Option<Vec<u8>>, NoMemory>
    ensures { IfOk result (λ said. option_map items_of said ≡ spec.said_of (view_goals goals.now) (view_wanted wanted.entry)) }
{
    if let Some(said) = no_function(alloc, goals, wanted.function)? {
        return Ok(Some(said));
    }
    no_check(alloc, goals, wanted.check)
}
