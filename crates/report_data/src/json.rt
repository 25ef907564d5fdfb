// Lines of JSON: an object a goal, and a last one with the totals.
ghost use Rattle.std.specs.Prelude.{◌≡◌, ◌++◌, ◌<◌, ◌≤◌, ◌-◌, IfOk, map};
ghost use Rattle.report_read.specs.Bytes.{joined};
ghost use Rattle.report_read.specs.View.{view_goal};
ghost use Rattle.report_data.specs.Json as spec;
ghost use Rattle.report_data.specs.View.{view_member, view_value};
ghost use Rattle.report_shown.specs.View.{view_goals};

use report_read::{Goal, proved_in, verdict_name};
use report_shown::{put, put_number};
use std::alloc::Global;
use wp_base::NoMemory;

/// What a member of an object says.
#[derive(Clone, Copy)]
enum Value<'a> {
    Text(&'a [u8]),
    Number(u64),
}

type Member<'a> = (&'a [u8], Value<'a>);

#[tactic(auto, unfolding(crate::specs::Json::hex_digit))]
fn hex_digit(number: u8) -> u8
    requires { number < 16 }
    ensures { result ≡ spec.hex_digit number }
{
    if number < 10 {
        b'0' + number
    } else {
        b'a' - 10 + number
    }
}

// A byte of a string. One that isn't printable ASCII is the code point of its number.
#[tactic(auto, unfolding(crate::specs::Json::escaped))]
fn put_escaped(text: &mut Vec<u8>, byte: u8) -> Result<(), NoMemory>
    ensures { IfOk result (λ _. text.new.items ≡ text.old.items ++ spec.escaped byte) }
{
    if byte == b'"' || byte == b'\\' {
        put(text, &[b'\\', byte])
    } else if byte >= b' ' && byte <= b'~' {
        put(text, &[byte])
    } else {
        let code = [
            b'\\',
            b'u',
            b'0',
            b'0',
            hex_digit(byte / 16),
            hex_digit(byte % 16),
        ];
        put(text, &code)
    }
}

#[tactic(auto, using(report_shown::proofs::Joined::joined_more_plain, report_shown::proofs::Joined::joined_end_plain))]
fn put_chars(text: &mut Vec<u8>, bytes: &[u8]) -> Result<(), NoMemory>
    ensures { IfOk result (λ _. text.new.items ≡ text.old.items ++ joined (map spec.escaped bytes.now)) }
{
    for byte in bytes {
        put_escaped(text, *byte)?;
    }
    Ok(())
}

fn put_string(text: &mut Vec<u8>, bytes: &[u8]) -> Result<(), NoMemory>
    ensures { IfOk result (λ _. text.new.items ≡ text.old.items ++ spec.string bytes.now) }
{
    put(text, b"\"")?;
    put_chars(text, bytes)?;
    put(text, b"\"")
}

fn put_value(text: &mut Vec<u8>, value: Value) -> Result<(), NoMemory>
    ensures { IfOk result (λ _. text.new.items ≡ text.old.items ++ spec.value_text (view_value value.entry)) }
{
    match value {
        Value::Text(bytes) => put_string(text, bytes),
        Value::Number(number) => put_number(text, number),
    }
}

#[tactic(auto, unfolding(crate::specs::Json::member_text))]
fn put_member(text: &mut Vec<u8>, member: Member) -> Result<(), NoMemory>
    ensures { IfOk result (λ _. text.new.items ≡ text.old.items ++ spec.member_text (view_member member.entry)) }
{
    put_string(text, member.0)?;
    put(text, b":")?;
    put_value(text, member.1)
}

fn put_next_member(text: &mut Vec<u8>, member: Member) -> Result<(), NoMemory>
    ensures { IfOk result (λ _. text.new.items ≡ text.old.items ++ spec.next_member (view_member member.entry)) }
{
    put(text, b",")?;
    put_member(text, member)
}

#[tactic(auto, using(report_shown::proofs::Joined::joined_more, report_shown::proofs::Joined::joined_end))]
fn put_next_members(text: &mut Vec<u8>, members: &[Member]) -> Result<(), NoMemory>
    ensures { IfOk result (λ _. text.new.items ≡ text.old.items ++ joined (map spec.next_member (map view_member members.now))) }
{
    for member in members {
        put_next_member(text, *member)?;
    }
    Ok(())
}

fn put_members(text: &mut Vec<u8>, members: &[Member]) -> Result<(), NoMemory>
    ensures { IfOk result (λ _. text.new.items ≡ text.old.items ++ spec.members_text (map view_member members.now)) }
{
    if let Some((first, others)) = members.split_first() {
        put_member(text, *first)?;
        put_next_members(text, others)?;
    }
    Ok(())
}

#[tactic(auto, unfolding(crate::specs::Json::object_line))]
fn put_object(text: &mut Vec<u8>, members: &[Member]) -> Result<(), NoMemory>
    ensures { IfOk result (λ _. text.new.items ≡ text.old.items ++ spec.object_line (map view_member members.now)) }
{
    put(text, b"{")?;
    put_members(text, members)?;
    put(text, b"}\n")
}

fn put_goal(text: &mut Vec<u8>, goal: &Goal) -> Result<(), NoMemory>
    ensures { IfOk result (λ _. text.new.items ≡ text.old.items ++ spec.goal_object (view_goal goal.now)) }
{
    let function: Member = (b"function", Value::Text(goal.function));
    let number: Member = (b"number", Value::Number(u64::from(goal.number)));
    let check: Member = (b"check", Value::Text(goal.check));
    let line: Member = (b"line", Value::Number(u64::from(goal.line)));
    let verdict: Member = (b"verdict", Value::Text(verdict_name(goal.verdict)));
    match goal.formula {
        None => put_object(text, &[function, number, check, line, verdict]),
        Some(formula) => {
            let formula: Member = (b"formula", Value::Text(formula));
            put_object(text, &[function, number, check, line, verdict, formula])
        }
    }
}

#[tactic(auto, using(report_shown::proofs::Joined::joined_more, report_shown::proofs::Joined::joined_end))]
fn put_goals(text: &mut Vec<u8>, goals: &[Goal]) -> Result<(), NoMemory>
    ensures { IfOk result (λ _. text.new.items ≡ text.old.items ++ joined (map spec.goal_object (view_goals goals.now))) }
{
    for goal in goals {
        put_goal(text, goal)?;
    }
    Ok(())
}

fn put_totals(text: &mut Vec<u8>, goals: usize, proved: usize) -> Result<(), NoMemory>
    requires { proved ≤ goals }
    ensures { IfOk result (λ _. text.new.items ≡ text.old.items ++ spec.object_line (spec.total_members goals proved (goals - proved))) }
{
    let all: Member = (b"goals", Value::Number(goals as u64));
    let closed: Member = (b"proved", Value::Number(proved as u64));
    let open: Member = (b"unknown", Value::Number((goals - proved) as u64));
    put_object(text, &[all, closed, open])
}

/// A JSON object a goal, each on a line, and a last one with the totals.
#[tactic(auto, using(crate::proofs::Whole::totals_put))]
pub fn json_text(alloc: Global, goals: &[Goal]) -> Result<Vec<u8>, NoMemory>
    ensures { IfOk result (λ text. text.items ≡ spec.json_text (view_goals goals.now)) }
{
    let mut text = Vec::new(alloc);
    put_goals(&mut text, goals)?;
    put_totals(&mut text, goals.len(), proved_in(goals))?;
    Ok(text)
}
