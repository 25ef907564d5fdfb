// Copies of expressions.
ghost use Rattle.std.specs.Prelude.{◌≡◌, IfOk};

use crate::expr::{Expr, ExprNode};
use crate::shapes::ExprShape;
use std::alloc::Global;
use wp_base::{List, NoMemory};

impl Expr {
    /// A copy, which equals its source.
    #[cycle(expr_copy)]
    pub fn copy(&self, alloc: Global) -> Result<Expr, NoMemory>
        ensures { IfOk result (λ copy. copy ≡ self.now) }
    {
        let node = self.node.copy(alloc)?;
        Ok(Expr {
            node,
            line: self.line,
        })
    }
}

impl ExprNode {
    /// A copy, which equals its source.
    #[cycle(expr_copy)]
    pub fn copy(&self, alloc: Global) -> Result<ExprNode, NoMemory>
        ensures { IfOk result (λ copy. copy ≡ self.now) }
    {
        match self.look() {
            ExprShape::Leaf(leaf) => ExprNode::leaf(alloc, leaf),
            ExprShape::One(head, of) => ExprNode::one(alloc, head, of.get().copy(alloc)),
            ExprShape::Two(head, left, right) => ExprNode::two(
                alloc,
                head,
                left.get().copy(alloc),
                right.get().copy(alloc),
            ),
            ExprShape::Cond(test, left, right) => ExprNode::cond(
                alloc,
                test.get().copy(alloc),
                left.get().copy(alloc),
                right.get().copy(alloc),
            ),
            ExprShape::Call(name, args) => ExprNode::call(alloc, name, copy_exprs(args, alloc)),
            ExprShape::Cast(ty, of) => ExprNode::cast(alloc, ty.copy(alloc), of.get().copy(alloc)),
            ExprShape::SizeOf(ty) => ExprNode::size_of(ty.copy(alloc)),
        }
    }
}

#[cycle(expr_copy)]
fn copy_exprs(exprs: &List<Expr>, alloc: Global) -> Result<List<Expr>, NoMemory>
    ensures { IfOk result (λ copies. copies ≡ exprs.now) }
{
    let mut copies = List::new(alloc);
    for expr in exprs.as_slice() {
        copies.push(expr.copy(alloc)?)?;
    }
    Ok(copies)
}
