// Terms (ACSL 2.2.2, 2.2.3).
ghost use Rattle.acsl_names.specs.Names.{view_around};
ghost use Rattle.acsl_names.specs.Weights.{args_of};
ghost use Rattle.acsl_terms.specs.Terms as spec;
ghost use Rattle.acsl_trees.specs.Operands.{view_operand};
ghost use Rattle.acsl_trees.specs.Tree.{view_tree, view_trees};
ghost use Rattle.c_answers.specs.Answers.{Gives};
ghost use Rattle.acsl_names.specs.Counting.{with_node};
ghost use Rattle.acsl_names.specs.Labels.{under_if};
ghost use Rattle.acsl_terms.specs.declared.calls.Called.TheVariants as called;
ghost use Rattle.c_syntax.specs.Term as t;
ghost use Rattle.c_syntax.specs.View.{view_ctype, view_term};

use crate::calls::{Called, call_tree, called_at, recursion, sort_called};
use crate::leaves::{closed, closed_tree};
use crate::names::{joined, typed_constant, typed_name};
use crate::steps::{cast_names, cast_with, labelled_by, prefixed};
use acsl_names::{Around, Bound, Count, Reading, label_at, old_at};
use acsl_rules::{conditional, field, passed};
use acsl_trees::{Label, Operand, TermType, Tree};
use c_answers::refused;
use c_syntax::{CType, Term, TermLeaf, TermOne, TermShape, TermTwo, UnOp};
use std::alloc::Global;
use wp_base::{Line, List, Rule, Stop, Str};

/// The typed form of a term, or the first fault in it, and the count behind it.
#[cycle(terms)]
#[tactic(auto, using(c_syntax::proofs::Equations::term_laws, acsl_names::proofs::Weighing::count_is))]
pub fn typed_term(
    alloc: Global,
    around: &Around<'_>,
    names: &Bound,
    reading: Reading,
    count: &mut Count,
    term: &Term,
) -> Result<Operand, Stop>
    ensures { Gives (λ x. (view_operand x, count.new)) result (spec.typed (view_around around.now) names.now reading count.old (view_term term.now)) }
{
    let line = term.line;
    match term.node.look() {
        TermShape::Leaf(TermLeaf::Name(name)) => {
            typed_name(alloc, around, names, reading, count, line, name)
        }
        TermShape::Leaf(TermLeaf::Number(token)) => {
            typed_constant(alloc, around, count, line, TermLeaf::Number(token))
        }
        TermShape::Leaf(TermLeaf::Char(value)) => {
            typed_constant(alloc, around, count, line, TermLeaf::Char(value))
        }
        TermShape::Leaf(TermLeaf::Result) => {
            typed_constant(alloc, around, count, line, TermLeaf::Result)
        }
        TermShape::Leaf(TermLeaf::Null) => {
            typed_constant(alloc, around, count, line, TermLeaf::Null)
        }
        TermShape::One(TermOne::Unary(op), of) => {
            typed_unary(alloc, around, names, reading, count, line, op, of.get())
        }
        TermShape::One(TermOne::Cast(ty), of) => {
            typed_cast(alloc, around, names, reading, count, line, ty, of.get())
        }
        TermShape::One(TermOne::Old, of) => {
            let label = old_at(around.site);
            under_label(alloc, around, names, reading, count, line, label, of.get())
        }
        TermShape::One(TermOne::At(label), of) => {
            let label = label_at(around.site, label);
            under_label(alloc, around, names, reading, count, line, label, of.get())
        }
        TermShape::One(TermOne::Field { name, arrow }, of) => {
            typed_field(
                alloc,
                around,
                names,
                reading,
                count,
                line,
                name,
                arrow,
                of.get(),
            )
        }
        TermShape::Two(TermTwo::Binary(op), first, second) => {
            let head = TermTwo::Binary(op);
            typed_two(
                alloc,
                around,
                names,
                reading,
                count,
                line,
                head,
                first.get(),
                second.get(),
            )
        }
        TermShape::Two(TermTwo::Index, first, second) => {
            let head = TermTwo::Index;
            typed_two(
                alloc,
                around,
                names,
                reading,
                count,
                line,
                head,
                first.get(),
                second.get(),
            )
        }
        TermShape::Two(TermTwo::Range, first, second) => {
            let head = TermTwo::Range;
            typed_two(
                alloc,
                around,
                names,
                reading,
                count,
                line,
                head,
                first.get(),
                second.get(),
            )
        }
        TermShape::Cond(test, first, second) => {
            typed_choice(
                alloc,
                around,
                names,
                reading,
                count,
                line,
                test.get(),
                first.get(),
                second.get(),
            )
        }
        TermShape::Call(name, args) => {
            let called = called_at(around, names, true, args.len(), name);
            typed_call(alloc, around, names, reading, count, line, called, args)
        }
    }
}

#[cycle(terms)]
#[tactic(auto, using(c_answers::proofs::After::after_laws))]
fn typed_unary(
    alloc: Global,
    around: &Around<'_>,
    names: &Bound,
    reading: Reading,
    count: &mut Count,
    line: Line,
    op: UnOp,
    of: &Term,
) -> Result<Operand, Stop>
    ensures { Gives (λ x. (view_operand x, count.new)) result (spec.typed (view_around around.now) names.now reading count.old (t.unary line op (view_term of.now))) }
{
    let before = count.limit;
    count.add_node(line);
    let at = count.limit;
    let of = typed_term(alloc, around, names, reading, count, of)?;
    let made = prefixed(alloc, around, reading, line, op, of);
    closed(before, at, count, made)
}

#[cycle(terms)]
#[tactic(auto, using(c_answers::proofs::After::after_laws))]
fn typed_cast(
    alloc: Global,
    around: &Around<'_>,
    names: &Bound,
    reading: Reading,
    count: &mut Count,
    line: Line,
    ty: &CType,
    of: &Term,
) -> Result<Operand, Stop>
    ensures { Gives (λ x. (view_operand x, count.new)) result (spec.typed (view_around around.now) names.now reading count.old (t.cast line (view_ctype ty.now) (view_term of.now))) }
{
    let before = count.limit;
    count.add_node(line);
    let at = count.limit;
    let named = cast_names(alloc, around, line, ty, before, at)?;
    let of = typed_term(alloc, around, names, reading, count, of)?;
    let made = cast_with(alloc, around, line, ty, named, of);
    closed(before, at, count, made)
}

// `\old` and `\at`.
#[cycle(terms)]
#[tactic(auto, using(c_answers::proofs::After::after_laws))]
fn under_label(
    alloc: Global,
    around: &Around<'_>,
    names: &Bound,
    reading: Reading,
    count: &mut Count,
    line: Line,
    label: Option<Label>,
    of: &Term,
) -> Result<Operand, Stop>
    ensures { Gives (λ x. (view_operand x, count.new)) result (spec.under_label (spec.typed (view_around around.now) names.now (under_if label reading) (with_node line count.old) (view_term of.now)) count.old line label) }
{
    let before = count.limit;
    count.add_node(line);
    let at = count.limit;
    let of = typed_term(alloc, around, names, reading.under(label), count, of)?;
    let made = labelled_by(alloc, line, label, of);
    closed(before, at, count, made)
}

#[cycle(terms)]
#[tactic(auto, using(c_answers::proofs::After::after_laws))]
fn typed_field(
    alloc: Global,
    around: &Around<'_>,
    names: &Bound,
    reading: Reading,
    count: &mut Count,
    line: Line,
    name: &Str,
    arrow: bool,
    of: &Term,
) -> Result<Operand, Stop>
    ensures { Gives (λ x. (view_operand x, count.new)) result (spec.typed (view_around around.now) names.now reading count.old (t.field line (view_term of.now) name.now arrow)) }
{
    let of = typed_term(alloc, around, names, reading, count, of)?;
    let before = count.limit;
    count.add_node(line);
    let made = field(alloc, around.file, line, name, arrow, of);
    closed(before, count.limit, count, made)
}

#[cycle(terms)]
#[tactic(auto, using(c_answers::proofs::After::after_laws))]
fn typed_two(
    alloc: Global,
    around: &Around<'_>,
    names: &Bound,
    reading: Reading,
    count: &mut Count,
    line: Line,
    head: TermTwo,
    first: &Term,
    second: &Term,
) -> Result<Operand, Stop>
    ensures { Gives (λ x. (view_operand x, count.new)) result (spec.two_typed (view_around around.now) names.now reading count.old line head (view_term first.now) (view_term second.now)) }
{
    let first = typed_term(alloc, around, names, reading, count, first)?;
    let before = count.limit;
    count.add_node(line);
    let at = count.limit;
    let second = typed_term(alloc, around, names, reading, count, second)?;
    let made = joined(alloc, around, line, head, first, second);
    closed(before, at, count, made)
}

#[cycle(terms)]
#[tactic(auto, using(c_answers::proofs::After::after_laws))]
fn typed_choice(
    alloc: Global,
    around: &Around<'_>,
    names: &Bound,
    reading: Reading,
    count: &mut Count,
    line: Line,
    test: &Term,
    first: &Term,
    second: &Term,
) -> Result<Operand, Stop>
    ensures { Gives (λ x. (view_operand x, count.new)) result (spec.typed (view_around around.now) names.now reading count.old (t.cond line (view_term test.now) (view_term first.now) (view_term second.now))) }
{
    let test = typed_term(alloc, around, names, reading, count, test)?;
    let before = count.limit;
    count.add_node(line);
    let at = count.limit;
    let first = typed_term(alloc, around, names, reading, count, first)?;
    let second = typed_term(alloc, around, names, reading, count, second)?;
    let made = conditional(alloc, line, test, first, second);
    closed(before, at, count, made)
}

// A call that is a term.
#[cycle(terms)]
#[tactic(auto, using(c_answers::proofs::After::after_laws))]
fn typed_call(
    alloc: Global,
    around: &Around<'_>,
    names: &Bound,
    reading: Reading,
    count: &mut Count,
    line: Line,
    called: Called,
    args: &List<Term>,
) -> Result<Operand, Stop>
    ensures { Gives (λ x. (view_operand x, count.new)) result (spec.as_term (view_around around.now) called (spec.any_call (view_around around.now) names.now reading count.old line (args_of args.now) called)) }
{
    let sort = sort_called(alloc, around.definitions, called)?;
    let tree = call(alloc, around, names, reading, count, line, called, args)?;
    Ok(Operand { tree, sort })
}

// A call, of a predicate or of a logic function.
#[cycle(terms)]
#[tactic(auto, using(c_answers::proofs::After::after_laws))]
fn call(
    alloc: Global,
    around: &Around<'_>,
    names: &Bound,
    reading: Reading,
    count: &mut Count,
    line: Line,
    called: Called,
    args: &List<Term>,
) -> Result<Tree, Stop>
    ensures { Gives (λ x. (view_tree x, count.new)) result (spec.any_call (view_around around.now) names.now reading count.old line (args_of args.now) called) }
{
    let before = count.limit;
    match called {
        Called::Unknown => {
            count.add_node(line);
            closed_tree(before, count.limit, count, Err(refused(Rule::Name, line)))
        }
        Called::Wrong(rule) => {
            count.add_node(line);
            let at = count.limit;
            typed_all(alloc, around, names, reading, count, args.as_slice())?;
            closed_tree(before, at, count, Err(refused(rule, line)))
        }
        Called::Recursive(number) => recursive_call(
            alloc, around, names, reading, count, line, number, args,
        ),
        Called::Expanded(number) => expanded_call(
            alloc, around, names, reading, count, line, number, args,
        ),
    }
}

#[cycle(terms)]
#[tactic(auto, using(c_answers::proofs::After::after_laws))]
fn recursive_call(
    alloc: Global,
    around: &Around<'_>,
    names: &Bound,
    reading: Reading,
    count: &mut Count,
    line: Line,
    number: u32,
    args: &List<Term>,
) -> Result<Tree, Stop>
    ensures { Gives (λ x. (view_tree x, count.new)) result (spec.any_call (view_around around.now) names.now reading count.old line (args_of args.now) (called.Recursive number)) }
{
    let before = count.limit;
    count.add_node(line);
    let at = count.limit;
    match around.definitions.items.get(number as usize) {
        Some(definition) => {
            let params = definition.params.as_slice();
            let values = typed_for(
                alloc,
                around,
                names,
                reading,
                count,
                params,
                args.as_slice(),
            )?;
            let made = recursion(around, line, number, args, values);
            closed_tree(before, at, count, made)
        }
        None => closed_tree(before, at, count, Err(refused(Rule::Typing, line))),
    }
}

// The call is counted whole, with its arguments.
#[cycle(terms)]
#[tactic(auto, using(c_answers::proofs::After::after_laws))]
fn expanded_call(
    alloc: Global,
    around: &Around<'_>,
    names: &Bound,
    reading: Reading,
    count: &mut Count,
    line: Line,
    number: u32,
    args: &List<Term>,
) -> Result<Tree, Stop>
    ensures { Gives (λ x. (view_tree x, count.new)) result (spec.any_call (view_around around.now) names.now reading count.old line (args_of args.now) (called.Expanded number)) }
{
    let before = count.limit;
    match around.definitions.items.get(number as usize) {
        Some(definition) => {
            count.add_call(alloc, around, names, line, definition, args.as_slice());
            let at = count.limit;
            let mut inside = count.inside_call(alloc)?;
            let params = definition.params.as_slice();
            let values = typed_for(
                alloc,
                around,
                names,
                reading,
                &mut inside,
                params,
                args.as_slice(),
            )?;
            closed_tree(before, at, count, Ok(call_tree(number, values)))
        }
        None => {
            count.add_node(line);
            closed_tree(before, count.limit, count, Err(refused(Rule::Typing, line)))
        }
    }
}

// Arguments for parameters of these types.
#[cycle(terms)]
#[tactic(auto, using(crate::proofs::Arguments::argument_laws))]
fn typed_for(
    alloc: Global,
    around: &Around<'_>,
    names: &Bound,
    reading: Reading,
    count: &mut Count,
    params: &[TermType],
    args: &[Term],
) -> Result<List<Tree>, Stop>
    ensures { Gives (λ xs. (view_trees xs, count.new)) result (spec.typed_for (view_around around.now) names.now reading count.old params.now (args_of args.now)) }
{
    let mut values = List::new(alloc);
    for i in 0..args.len() {
        if i >= params.len() {
            return Ok(values);
        }
        let arg = &args[i];
        let ty = &params[i];
        let value = argument(alloc, around, names, reading, count, ty, arg)?;
        values.push(value)?;
    }
    Ok(values)
}

#[cycle(terms)]
#[tactic(auto, using(c_answers::proofs::After::after_laws, c_syntax::proofs::Lines::term_line_is))]
fn argument(
    alloc: Global,
    around: &Around<'_>,
    names: &Bound,
    reading: Reading,
    count: &mut Count,
    ty: &TermType,
    arg: &Term,
) -> Result<Tree, Stop>
    ensures { Gives (λ x. (view_tree x, count.new)) result (spec.argument (view_around around.now) names.now reading count.old ty.now (view_term arg.now)) }
{
    let before = count.limit;
    let operand = typed_term(alloc, around, names, reading, count, arg)?;
    let value = passed(alloc, arg.line, ty, operand);
    closed_tree(before, before, count, value)
}

// The arguments of what can't be called so, for the faults in them.
#[cycle(terms)]
#[tactic(auto, using(crate::proofs::Arguments::alone_laws))]
fn typed_all(
    alloc: Global,
    around: &Around<'_>,
    names: &Bound,
    reading: Reading,
    count: &mut Count,
    args: &[Term],
) -> Result<(), Stop>
    ensures { Gives (λ _. count.new) result (spec.typed_all (view_around around.now) names.now reading count.old (args_of args.now)) }
{
    for arg in args {
        typed_term(alloc, around, names, reading, count, arg)?;
    }
    Ok(())
}

/// A call that is a predicate.
#[tactic(auto, unfolding(crate::specs::Terms::predicate_call))]
pub fn predicate_call(
    alloc: Global,
    around: &Around<'_>,
    names: &Bound,
    reading: Reading,
    count: &mut Count,
    line: Line,
    called: Called,
    args: &List<Term>,
) -> Result<Tree, Stop>
    ensures { Gives (λ x. (view_tree x, count.new)) result (spec.predicate_call (view_around around.now) names.now reading count.old line (args_of args.now) called) }
{
    call(alloc, around, names, reading, count, line, called, args)
}
