// Annotations (ACSL 2.2 to 2.6): terms, predicates, contracts and the annotations of loops.

use crate::decl::VarDecl;
use crate::expr::{BinOp, CType, UnOp};
use crate::token::Token;
use wp_base::{Boxed, Line, List, Str};

/// A term (ACSL 2.2), with the line of its token or operator.
#[cycle(term)]
pub struct Term {
    pub node: TermNode,
    pub line: Line,
}

#[derive(Drop)]
#[cycle(term)]
pub enum TermNode {
    Number(Token),
    Char(i128),
    Name(Str),
    Unary(UnOp, Boxed<Term>),
    Binary(BinOp, Boxed<Term>, Boxed<Term>),
    Cond(Boxed<Term>, Boxed<Term>, Boxed<Term>),
    Call(Str, List<Term>),
    Index(Boxed<Term>, Boxed<Term>),
    /// `.` or `->`.
    Field {
        of: Boxed<Term>,
        name: Str,
        arrow: bool,
    },
    Cast(CType, Boxed<Term>),
    /// `\result`.
    Result,
    /// `\old`.
    Old(Boxed<Term>),
    /// `\at`, with its label.
    At(Boxed<Term>, Str),
    /// `\null`.
    Null,
    /// `lo .. hi`, in a set of locations.
    Range(Boxed<Term>, Boxed<Term>),
}

/// A predicate (ACSL 2.2), with the line of its token or operator.
#[cycle(pred)]
pub struct Pred {
    pub node: PredNode,
    pub line: Line,
}

#[derive(Drop)]
#[cycle(pred)]
pub enum PredNode {
    True,
    False,
    Not(Boxed<Pred>),
    And(Boxed<Pred>, Boxed<Pred>),
    Xor(Boxed<Pred>, Boxed<Pred>),
    Or(Boxed<Pred>, Boxed<Pred>),
    Implies(Boxed<Pred>, Boxed<Pred>),
    Iff(Boxed<Pred>, Boxed<Pred>),
    Cond(Boxed<Pred>, Boxed<Pred>, Boxed<Pred>),
    Let(Str, Boxed<Term>, Boxed<Pred>),
    /// The terms of a chain of comparisons, and what stands between them.
    Chain(List<Term>, List<BinOp>),
    /// The binders have no initialiser.
    Forall(List<VarDecl>, Boxed<Pred>),
    Exists(List<VarDecl>, Boxed<Pred>),
    Valid(Boxed<Term>),
    ValidRead(Boxed<Term>),
    Separated(List<Term>),
    Old(Boxed<Pred>),
    Call(Str, List<Term>),
}

// Goes down the operands on the left by a loop, since these may be as many as there are tokens.
impl Drop for Term {
    fn drop(mut self) {
        loop {
            let Term { node, line: _ } = self;
            match node {
                TermNode::Binary(_, left, right) => {
                    drop(right);
                    self = left.into_inner();
                }
                TermNode::Index(of, at) => {
                    drop(at);
                    self = of.into_inner();
                }
                TermNode::Field { of, name, arrow: _ } => {
                    drop(name);
                    self = of.into_inner();
                }
                TermNode::Unary(_, of) => self = of.into_inner(),
                TermNode::Cast(ty, of) => {
                    drop(ty);
                    self = of.into_inner();
                }
                TermNode::Old(of) => self = of.into_inner(),
                TermNode::At(of, label) => {
                    drop(label);
                    self = of.into_inner();
                }
                TermNode::Cond(test, first, second) => {
                    drop(test);
                    drop(first);
                    self = second.into_inner();
                }
                TermNode::Range(low, high) => {
                    drop(low);
                    self = high.into_inner();
                }
                TermNode::Number(token) => return drop(token),
                TermNode::Char(_) => return,
                TermNode::Name(name) => return drop(name),
                TermNode::Call(name, args) => {
                    drop(name);
                    return drop(args);
                }
                TermNode::Result => return,
                TermNode::Null => return,
            }
        }
    }
}

impl Pred {
    // Whether a quantifier or `\let` stands at its right end: what is inside may be as deep as there are tokens, while what stands on
    // the left of it is closed.
    fn ends_open(&self) -> bool {
        let mut end = self;
        loop {
            match &end.node {
                PredNode::And(_, right)
                | PredNode::Xor(_, right)
                | PredNode::Or(_, right)
                | PredNode::Iff(_, right)
                | PredNode::Implies(_, right)
                | PredNode::Cond(_, _, right)
                | PredNode::Not(right) => end = right.get(),
                PredNode::Forall(_, _) | PredNode::Exists(_, _) | PredNode::Let(_, _, _) => {
                    return true;
                }
                PredNode::True
                | PredNode::False
                | PredNode::Chain(_, _)
                | PredNode::Valid(_)
                | PredNode::ValidRead(_)
                | PredNode::Separated(_)
                | PredNode::Old(_)
                | PredNode::Call(_, _) => return false,
            }
        }
    }
}

// Goes down by a loop what may be as long as there are tokens: the operands on the left, and what is inside quantifiers and `\let`.
impl Drop for Pred {
    fn drop(mut self) {
        loop {
            let Pred { node, line: _ } = self;
            match node {
                PredNode::And(left, right)
                | PredNode::Xor(left, right)
                | PredNode::Or(left, right)
                | PredNode::Iff(left, right)
                | PredNode::Implies(left, right) => {
                    if right.get().ends_open() {
                        drop(left);
                        self = right.into_inner();
                    } else {
                        drop(right);
                        self = left.into_inner();
                    }
                }
                PredNode::Cond(test, first, second) => {
                    drop(test);
                    drop(first);
                    self = second.into_inner();
                }
                PredNode::Let(name, value, inside) => {
                    drop(name);
                    drop(value);
                    self = inside.into_inner();
                }
                PredNode::Forall(binders, inside) | PredNode::Exists(binders, inside) => {
                    drop(binders);
                    self = inside.into_inner();
                }
                PredNode::Not(inside) | PredNode::Old(inside) => self = inside.into_inner(),
                PredNode::Chain(terms, ops) => {
                    drop(terms);
                    return drop(ops);
                }
                PredNode::Valid(pointer) | PredNode::ValidRead(pointer) => return drop(pointer),
                PredNode::Separated(pointers) => return drop(pointers),
                PredNode::Call(name, args) => {
                    drop(name);
                    return drop(args);
                }
                PredNode::True | PredNode::False => return,
            }
        }
    }
}

/// A predicate of a contract or of a loop, with the line of its keyword and the place of its first
/// token among those of the text.
#[derive(Drop)]
pub struct Clause {
    pub pred: Pred,
    pub line: Line,
    pub place: usize,
}

/// A term that has to decrease: that of `decreases` (ACSL 2.5.2) or of `loop variant` (ACSL 2.5.1).
#[derive(Drop)]
pub struct Measure {
    pub term: Term,
    pub line: Line,
    pub place: usize,
}

/// What may be assigned (ACSL 2.3.4): no set where there is no clause, an empty one for `\nothing`;
/// and the lines of the parts with `\from`.
#[derive(Drop)]
pub struct AssignsClause {
    pub set: Option<List<Term>>,
    pub from: List<Line>,
    pub line: Line,
    pub place: usize,
}

/// The names of behaviors that are complete or disjoint (ACSL 2.3.3); none means all.
#[derive(Drop)]
pub struct Names {
    pub names: List<Str>,
    pub line: Line,
    pub place: usize,
}

/// A named behavior (ACSL 2.3.3), with the line of its name.
#[derive(Drop)]
pub struct Behavior {
    pub name: Str,
    pub assumes: List<Clause>,
    pub requires_: List<Clause>,
    pub assigns: AssignsClause,
    pub ensures_: List<Clause>,
    pub line: Line,
    pub place: usize,
}

/// The contract of a function (ACSL 2.3).
#[derive(Drop)]
pub struct Contract {
    pub requires_: List<Clause>,
    pub assigns: AssignsClause,
    pub ensures_: List<Clause>,
    pub decreases_: Option<Measure>,
    pub behaviors: List<Behavior>,
    pub complete: List<Names>,
    pub disjoint: List<Names>,
}

/// The annotation of a loop (ACSL 2.4.2, 2.5.1).
#[derive(Drop)]
pub struct LoopAnnot {
    pub invariants: List<Clause>,
    pub assigns: AssignsClause,
    pub variant: Option<Measure>,
}
