// Copies of types.
ghost use Rattle.std.specs.Prelude.{◌≡◌, IfOk};
ghost use Rattle.c_syntax.specs.Layers.{around, around_all};

use crate::expr::{CType, Expr};
use std::alloc::Global;
use wp_base::{Boxed, NoMemory, box_both};

// What makes a type of another one; an array has its length.
#[derive(Drop)]
enum Layer {
    Pointer,
    Array(Expr),
    Const,
}

fn wrap(alloc: Global, layer: Layer, inner: CType) -> Result<CType, NoMemory>
    ensures { IfOk result (λ whole. whole ≡ around layer inner) }
{
    match layer {
        Layer::Pointer => Ok(CType::Pointer(Boxed::new(alloc, inner)?)),
        Layer::Array(length) => {
            let (inner, length) = box_both(alloc, inner, length)?;
            Ok(CType::Array(inner, length))
        }
        Layer::Const => Ok(CType::Const(Boxed::new(alloc, inner)?)),
    }
}

#[tactic(auto, using(crate::proofs::Layers::around_last), unfolding(crate::specs::Layers::around_all))]
fn wrap_all(alloc: Global, mut layers: Vec<Layer>, inner: CType) -> Result<CType, NoMemory>
    ensures { IfOk result (λ whole. whole ≡ around_all layers.items inner) }
{
    let mut whole = inner;
    while let Some(layer) = layers.pop() {
        whole = wrap(alloc, layer, whole)?;
    }
    Ok(whole)
}

impl CType {
    /// A copy, which equals its source.
    // Goes down by a loop, since there may be as many stars as there are tokens.
    #[cycle(expr_copy)]
    #[tactic(auto, using(crate::proofs::Layers::around_last, crate::proofs::Layers::around_none))]
    pub fn copy(&self, alloc: Global) -> Result<CType, NoMemory>
        ensures { IfOk result (λ copy. copy ≡ self.now) }
    {
        let mut layers = Vec::new(alloc);
        let mut inner = self;
        loop {
            match inner {
                CType::Pointer(of) => {
                    layers.push(Layer::Pointer)?;
                    inner = of.get();
                }
                CType::Array(of, length) => {
                    layers.push(Layer::Array(length.get().copy(alloc)?))?;
                    inner = of.get();
                }
                CType::Const(of) => {
                    layers.push(Layer::Const)?;
                    inner = of.get();
                }
                CType::Void => return wrap_all(alloc, layers, CType::Void),
                CType::Kind(kind) => return wrap_all(alloc, layers, CType::Kind(*kind)),
                CType::Integer => return wrap_all(alloc, layers, CType::Integer),
                CType::Struct(name) => {
                    return wrap_all(alloc, layers, CType::Struct(name.copy(alloc)?));
                }
                CType::Enum(name) => {
                    return wrap_all(alloc, layers, CType::Enum(name.copy(alloc)?));
                }
                CType::Named(name) => {
                    return wrap_all(alloc, layers, CType::Named(name.copy(alloc)?));
                }
            }
        }
    }
}
