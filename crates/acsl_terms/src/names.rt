// Names and constants (ACSL 2.2.2), and what stands between two operands.
ghost use Rattle.std.specs.Prelude.{◌≡◌};
ghost use Rattle.acsl_names.specs.Names.{view_around};
ghost use Rattle.acsl_terms.specs.Leaves.{leafed};
ghost use Rattle.acsl_terms.specs.Terms as spec;
ghost use Rattle.acsl_trees.specs.Operands.{view_operand};
ghost use Rattle.acsl_trees.specs.Tree.{view_tree};
ghost use Rattle.c_answers.specs.Answers.{Gives};
ghost use Rattle.c_syntax.specs.Term as t;

use crate::calls::{Called, call_tree, called_alone, recursion, sort_called};
use crate::leaves::{
    bound, closed, closed_tree, literal, local, misshapen, null, number, object, result,
};
use acsl_names::{Around, Bound, Count, Meaning, Reading};
use acsl_rules::{binary, indexed};
use acsl_trees::{Operand, Tree};
use c_answers::refused;
use c_syntax::{TermLeaf, TermTwo};
use std::alloc::Global;
use typed_prog::Variable;
use wp_base::{Line, List, Rule, Stop, Str};

// What a name is that is no definition.
fn meant(
    alloc: Global,
    around: &Around<'_>,
    names: &Bound,
    reading: Reading,
    line: Line,
    meaning: Meaning,
) -> Result<Operand, Stop>
    ensures { Gives view_operand result (spec.meant (view_around around.now) names.now reading line meaning) }
{
    match meaning {
        Meaning::Bound(name) => bound(alloc, names, line, name),
        Meaning::Local(number) => local(alloc, around, reading, line, number),
        Meaning::Global(number) => {
            let declared = around.file.globals.get(number as usize);
            object(alloc, line, Variable::Global(number), declared)
        }
        Meaning::Enumerator(value) => Ok(number(alloc, value)),
        Meaning::Function => Err(refused(Rule::Typing, line)),
        Meaning::Typedef => Err(refused(Rule::Typing, line)),
        Meaning::Definition(_) => Err(refused(Rule::Typing, line)),
        Meaning::Nothing => Err(refused(Rule::Name, line)),
    }
}

// Counts a name.
fn count_name(alloc: Global, count: &mut Count, line: Line, meaning: Meaning)
    ensures { count.new ≡ spec.with_name_counted line meaning count.old }
{
    match meaning {
        Meaning::Bound(name) => count.add_bound(alloc, line, name),
        Meaning::Local(_) => count.add_node(line),
        Meaning::Global(_) => count.add_node(line),
        Meaning::Enumerator(_) => count.add_node(line),
        Meaning::Function => count.add_node(line),
        Meaning::Typedef => count.add_node(line),
        Meaning::Definition(_) => count.add_node(line),
        Meaning::Nothing => count.add_node(line),
    }
}

fn named(
    alloc: Global,
    around: &Around<'_>,
    names: &Bound,
    reading: Reading,
    count: &mut Count,
    line: Line,
    meaning: Meaning,
) -> Result<Operand, Stop>
    ensures { Gives (λ x. (view_operand x, count.new)) result (spec.plainly_named (view_around around.now) names.now reading count.old line meaning) }
{
    let before = count.limit;
    count_name(alloc, count, line, meaning);
    let found = meant(alloc, around, names, reading, line, meaning);
    closed(before, count.limit, count, found)
}

// A constant, `\result` or `\null`.
fn constant(
    alloc: Global,
    around: &Around<'_>,
    line: Line,
    leaf: TermLeaf<'_>,
) -> Result<Operand, Stop>
    ensures { Gives view_operand result (spec.constant (view_around around.now) line leaf.entry) }
{
    match leaf {
        TermLeaf::Number(token) => literal(alloc, line, token),
        TermLeaf::Char(value) => Ok(number(alloc, value)),
        TermLeaf::Result => result(alloc, around, line),
        TermLeaf::Null => null(alloc),
        TermLeaf::Name(_) => Err(refused(Rule::Typing, line)),
    }
}

/// A constant, `\result` or `\null`, counted.
pub(crate) fn typed_constant(
    alloc: Global,
    around: &Around<'_>,
    count: &mut Count,
    line: Line,
    leaf: TermLeaf<'_>,
) -> Result<Operand, Stop>
    ensures { Gives (λ x. (view_operand x, count.new)) result (leafed line count.old (spec.constant (view_around around.now) line leaf.entry)) }
{
    let before = count.limit;
    count.add_node(line);
    let found = constant(alloc, around, line, leaf);
    closed(before, count.limit, count, found)
}

/// What two operands make.
pub(crate) fn joined(
    alloc: Global,
    around: &Around<'_>,
    line: Line,
    head: TermTwo,
    first: Operand,
    second: Operand,
) -> Result<Operand, Stop>
    ensures { Gives view_operand result (spec.joined (view_around around.now) line head (view_operand first) (view_operand second)) }
{
    match head {
        TermTwo::Binary(op) => binary(alloc, around.sizes, line, op, first, second),
        TermTwo::Index => indexed(alloc, around.sizes, line, first, second),
        TermTwo::Range => Err(misshapen(line)),
    }
}

// A definition without arguments, as it is called.
fn alone_tree(
    alloc: Global,
    around: &Around<'_>,
    names: &Bound,
    count: &mut Count,
    line: Line,
    called: Called,
) -> Result<Tree, Stop>
    ensures { Gives (λ x. (view_tree x, count.new)) result (spec.alone_tree (view_around around.now) names.now count.old line called) }
{
    let before = count.limit;
    let none = List::new(alloc);
    let values = List::new(alloc);
    match called {
        Called::Unknown => {
            count.add_node(line);
            closed_tree(before, count.limit, count, Err(refused(Rule::Name, line)))
        }
        Called::Wrong(rule) => {
            count.add_node(line);
            closed_tree(before, count.limit, count, Err(refused(rule, line)))
        }
        Called::Recursive(number) => {
            count.add_node(line);
            let made = match around.definitions.items.get(number as usize) {
                Some(_) => recursion(around, line, number, &none, values),
                None => Err(refused(Rule::Typing, line)),
            };
            closed_tree(before, count.limit, count, made)
        }
        Called::Expanded(number) => match around.definitions.items.get(number as usize) {
            Some(definition) => {
                count.add_call(alloc, around, names, line, definition, none.as_slice());
                closed_tree(before, count.limit, count, Ok(call_tree(number, values)))
            }
            None => {
                count.add_node(line);
                closed_tree(before, count.limit, count, Err(refused(Rule::Typing, line)))
            }
        },
    }
}

#[tactic(auto, using(c_answers::proofs::After::after_laws))]
fn alone_call(
    alloc: Global,
    around: &Around<'_>,
    names: &Bound,
    count: &mut Count,
    line: Line,
    called: Called,
) -> Result<Operand, Stop>
    ensures { Gives (λ x. (view_operand x, count.new)) result (spec.alone_call (view_around around.now) names.now count.old line called) }
{
    let sort = sort_called(alloc, around.definitions, called)?;
    let tree = alone_tree(alloc, around, names, count, line, called)?;
    Ok(Operand { tree, sort })
}

/// A name.
pub(crate) fn typed_name(
    alloc: Global,
    around: &Around<'_>,
    names: &Bound,
    reading: Reading,
    count: &mut Count,
    line: Line,
    name: &Str,
) -> Result<Operand, Stop>
    ensures { Gives (λ x. (view_operand x, count.new)) result (spec.typed (view_around around.now) names.now reading count.old (t.name line name.now)) }
{
    let meaning = around.find(names, name);
    match meaning {
        Meaning::Definition(number) => {
            let called = called_alone(around, number);
            alone_call(alloc, around, names, count, line, called)
        }
        Meaning::Bound(_) => named(alloc, around, names, reading, count, line, meaning),
        Meaning::Local(_) => named(alloc, around, names, reading, count, line, meaning),
        Meaning::Global(_) => named(alloc, around, names, reading, count, line, meaning),
        Meaning::Enumerator(_) => named(alloc, around, names, reading, count, line, meaning),
        Meaning::Function => named(alloc, around, names, reading, count, line, meaning),
        Meaning::Typedef => named(alloc, around, names, reading, count, line, meaning),
        Meaning::Nothing => named(alloc, around, names, reading, count, line, meaning),
    }
}
