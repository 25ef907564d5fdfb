// The trees of terms, made of their parts.
ghost use Rattle.std.specs.Prelude.{◌≡◌, IfOk, map};
ghost use Rattle.c_syntax.specs.Term as t;
ghost use Rattle.c_syntax.specs.View.{view_ctype, view_term};

use c_syntax::{BinOp, CType, Term, TermNode, UnOp};
use std::alloc::Global;
use wp_base::{Boxed, Line, List, NoMemory, Str, box_both, box_three};

#[tactic(auto, using(c_syntax::proofs::Equations::term_laws))]
pub fn unary(alloc: Global, op: UnOp, line: Line, of: Term) -> Result<Term, NoMemory>
    ensures { IfOk result (λ made. view_term made ≡ t.unary line op (view_term of)) }
{
    let node = TermNode::Unary(op, Boxed::new(alloc, of)?);
    Ok(Term { node, line })
}

#[tactic(auto, using(c_syntax::proofs::Equations::term_laws))]
pub fn binary(
    alloc: Global,
    op: BinOp,
    line: Line,
    left: Term,
    right: Term,
) -> Result<Term, NoMemory>
    ensures { IfOk result (λ made. view_term made ≡ t.binary line op (view_term left) (view_term right)) }
{
    let (left, right) = box_both(alloc, left, right)?;
    let node = TermNode::Binary(op, left, right);
    Ok(Term { node, line })
}

#[tactic(auto, using(c_syntax::proofs::Equations::term_laws))]
pub fn cond(
    alloc: Global,
    line: Line,
    test: Term,
    first: Term,
    second: Term,
) -> Result<Term, NoMemory>
    ensures { IfOk result (λ made. view_term made ≡ t.cond line (view_term test) (view_term first) (view_term second)) }
{
    let (test, first, second) = box_three(alloc, test, first, second)?;
    let node = TermNode::Cond(test, first, second);
    Ok(Term { node, line })
}

#[tactic(auto, using(c_syntax::proofs::Equations::term_laws))]
pub fn index(alloc: Global, line: Line, of: Term, at: Term) -> Result<Term, NoMemory>
    ensures { IfOk result (λ made. view_term made ≡ t.index line (view_term of) (view_term at)) }
{
    let (of, at) = box_both(alloc, of, at)?;
    let node = TermNode::Index(of, at);
    Ok(Term { node, line })
}

#[tactic(auto, using(c_syntax::proofs::Equations::term_laws))]
pub fn field(alloc: Global, line: Line, of: Term, name: Str, arrow: bool) -> Result<Term, NoMemory>
    ensures { IfOk result (λ made. view_term made ≡ t.field line (view_term of) name arrow) }
{
    let of = Boxed::new(alloc, of)?;
    let node = TermNode::Field { of, name, arrow };
    Ok(Term { node, line })
}

#[tactic(auto, using(c_syntax::proofs::Equations::term_laws))]
pub fn cast(alloc: Global, line: Line, ty: CType, of: Term) -> Result<Term, NoMemory>
    ensures { IfOk result (λ made. view_term made ≡ t.cast line (view_ctype ty) (view_term of)) }
{
    let node = TermNode::Cast(ty, Boxed::new(alloc, of)?);
    Ok(Term { node, line })
}

#[tactic(auto, using(c_syntax::proofs::Equations::term_laws))]
pub fn old(alloc: Global, line: Line, of: Term) -> Result<Term, NoMemory>
    ensures { IfOk result (λ made. view_term made ≡ t.old line (view_term of)) }
{
    let node = TermNode::Old(Boxed::new(alloc, of)?);
    Ok(Term { node, line })
}

#[tactic(auto, using(c_syntax::proofs::Equations::term_laws))]
pub fn at_label(alloc: Global, line: Line, of: Term, label: Str) -> Result<Term, NoMemory>
    ensures { IfOk result (λ made. view_term made ≡ t.at_label line (view_term of) label) }
{
    let node = TermNode::At(Boxed::new(alloc, of)?, label);
    Ok(Term { node, line })
}

#[tactic(auto, using(c_syntax::proofs::Equations::term_laws))]
pub fn range(alloc: Global, line: Line, low: Term, high: Term) -> Result<Term, NoMemory>
    ensures { IfOk result (λ made. view_term made ≡ t.range line (view_term low) (view_term high)) }
{
    let (low, high) = box_both(alloc, low, high)?;
    let node = TermNode::Range(low, high);
    Ok(Term { node, line })
}

#[tactic(auto, using(c_syntax::proofs::Equations::term_laws))]
pub fn call(line: Line, name: Str, args: List<Term>) -> Term
    ensures { view_term result ≡ t.call line name (t.terms_of (map view_term args)) }
{
    Term {
        node: TermNode::Call(name, args),
        line,
    }
}
