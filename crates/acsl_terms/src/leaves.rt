// Terms in which there is no other one (ACSL 2.2.2, 2.2.3).
ghost use Rattle.std.specs.Prelude.{◌≡◌, IfOk, Ok, slice_get};
ghost use Rattle.std.specs.Option.{option_copied};
ghost use Rattle.acsl_names.specs.Names.{view_around};
ghost use Rattle.acsl_terms.specs.Leaves as spec;
ghost use Rattle.acsl_trees.specs.Operands.{Operand as Given, view_operand};
ghost use Rattle.acsl_trees.specs.Tree.{Tree as GivenTree, view_tree};
ghost use Rattle.c_answers.specs.Answers.{Answer, Gives, fault};
ghost use Rattle.wp_base.specs.declared.answers.Rule.TheVariants as rule;
ghost use Rattle.wp_base.specs.declared.answers.Stop.TheVariants as stop;

use acsl_names::{Around, Bound, Count, Limit, Reading, ended};
use acsl_rules::leaf;
use acsl_trees::{Head, Operand, Sort, TermType, Tree};
use c_answers::refused;
use c_scopes::Object;
use c_syntax::{Token, TokenKind};
use std::alloc::Global;
use typed_prog::{Base, CoreType, Variable};
use wp_base::{Line, List, NoMemory, Rule, Stop};

/// The end of typing at what has no place in an annotation.
pub fn misshapen(line: Line) -> Stop
    ensures { result ≡ stop.Refused (fault rule.Shape line) }
{
    refused(Rule::Shape, line)
}

/// What a term is, or its fault weighed against the limit, by whether that was passed before it, at it or inside.
#[tactic(auto, using(crate::proofs::Closing::closed_gives))]
pub fn closed(
    before: Limit,
    at: Limit,
    count: &Count,
    term: Result<Operand, Stop>,
) -> Result<Operand, Stop>
    ensures { (given : Answer Given) → Gives view_operand term given → Gives (λ x. (view_operand x, count.now)) result (spec.closed before at count.now given) }
{
    ended(before, at, count.limit, term)
}

/// The same of a tree.
#[tactic(auto, using(crate::proofs::Closing::closed_gives))]
pub fn closed_tree(
    before: Limit,
    at: Limit,
    count: &Count,
    tree: Result<Tree, Stop>,
) -> Result<Tree, Stop>
    ensures { (given : Answer GivenTree) → Gives view_tree tree given → Gives (λ x. (view_tree x, count.now)) result (spec.closed before at count.now given) }
{
    ended(before, at, count.limit, tree)
}

/// An integer constant.
pub(crate) fn number(alloc: Global, value: i128) -> Operand
    ensures { view_operand result ≡ spec.number value }
{
    Operand {
        tree: leaf(alloc, Head::Number(value)),
        sort: Sort::Integer(Some(value)),
    }
}

/// A number as spelled, whatever suffix it has.
pub(crate) fn literal(alloc: Global, line: Line, token: &Token) -> Result<Operand, Stop>
    ensures { Gives view_operand result (spec.literal line token.now.kind) }
{
    match &token.kind {
        TokenKind::Number {
            value,
            base: _,
            suffix: _,
        } => Ok(number(alloc, *value)),
        TokenKind::Name(_) => Err(refused(Rule::Typing, line)),
        TokenKind::Word(_) => Err(refused(Rule::Typing, line)),
        TokenKind::Char(_) => Err(refused(Rule::Typing, line)),
        TokenKind::Punct(_) => Err(refused(Rule::Typing, line)),
        TokenKind::AnnotOpen => Err(refused(Rule::Typing, line)),
        TokenKind::AnnotClose => Err(refused(Rule::Typing, line)),
    }
}

/// The type of a pointer to `void`.
pub(crate) fn void_pointer(alloc: Global) -> Result<CoreType, NoMemory>
    ensures { IfOk result (λ ty. ty ≡ spec.void_pointer) }
{
    let stars = Vec::from_array(alloc, [false])?;
    Ok(CoreType {
        base: Base::Void,
        stars: List::from_vec(stars),
        count: None,
    })
}

/// `\null`.
pub(crate) fn null(alloc: Global) -> Result<Operand, Stop>
    ensures { Gives view_operand result (Ok spec.null) }
{
    let ty = void_pointer(alloc)?;
    Ok(Operand {
        tree: leaf(alloc, Head::Null),
        sort: Sort::Pointer(ty, true),
    })
}

/// What a term is that has a value of this type.
pub fn sort_of(alloc: Global, ty: &TermType) -> Result<Sort, NoMemory>
    ensures { IfOk result (λ sort. sort ≡ spec.sort_of ty.now) }
{
    match ty {
        TermType::Integer => Ok(Sort::Integer(None)),
        TermType::Pointer(ty) => Ok(Sort::Pointer(ty.copy(alloc)?, false)),
        TermType::Unknown => Ok(Sort::Unknown),
    }
}

/// A binder, or a parameter of a definition.
pub(crate) fn bound(alloc: Global, names: &Bound, line: Line, name: u32) -> Result<Operand, Stop>
    ensures { Gives view_operand result (spec.bound_by line name (slice_get names.now.types name)) }
{
    match names.types.get(name as usize) {
        Some(ty) => {
            let sort = sort_of(alloc, ty)?;
            Ok(Operand {
                tree: leaf(alloc, Head::Name(name)),
                sort,
            })
        }
        None => Err(refused(Rule::Typing, line)),
    }
}

/// A variable, by its declaration.
pub(crate) fn object(
    alloc: Global,
    line: Line,
    variable: Variable,
    declared: Option<&Object>,
) -> Result<Operand, Stop>
    ensures { Gives view_operand result (spec.object_by line variable (option_copied declared.entry)) }
{
    match declared {
        Some(object) => {
            let ty = object.ty.copy(alloc)?;
            Ok(Operand {
                tree: leaf(alloc, Head::Variable(variable)),
                sort: Sort::Object(ty, None),
            })
        }
        None => Err(refused(Rule::Typing, line)),
    }
}

/// A local, under the labels around it.
pub(crate) fn local(
    alloc: Global,
    around: &Around<'_>,
    reading: Reading,
    line: Line,
    local: u32,
) -> Result<Operand, Stop>
    ensures { Gives view_operand result (spec.local (view_around around.now) reading line local) }
{
    if !around.may_stand(reading, local) {
        return Err(misshapen(line));
    }
    object(
        alloc,
        line,
        Variable::Local(local),
        around.objects.get(local as usize),
    )
}

fn value_sort(alloc: Global, ty: &CoreType) -> Result<Sort, NoMemory>
    ensures { IfOk result (λ sort. sort ≡ spec.value_sort ty.now) }
{
    if ty.is_pointer() {
        return Ok(Sort::Pointer(ty.copy(alloc)?, false));
    }
    Ok(Sort::Integer(None))
}

/// `\result`.
pub(crate) fn result(alloc: Global, around: &Around<'_>, line: Line) -> Result<Operand, Stop>
    ensures { Gives view_operand result (spec.result (view_around around.now) line) }
{
    if !around.site.is_ensures() {
        return Err(misshapen(line));
    }
    if around.result.is_void() {
        return Err(refused(Rule::Typing, line));
    }
    let sort = value_sort(alloc, around.result)?;
    Ok(Operand {
        tree: leaf(alloc, Head::Result),
        sort,
    })
}
