// What stands before an annotation, and the function that it stands in.
ghost use Rattle.std.specs.Prelude.{◌≡◌, IfOk};
ghost use Rattle.acsl_names.specs.Sites.{view_before};
ghost use Rattle.acsl_typing.specs.Annotations as spec;
ghost use Rattle.typed_unit.specs.View.{view_typed};

use acsl_names::Before;
use c_scopes::File;
use std::alloc::Global;
use typed_prog::CoreType;
use typed_unit::Typed;
use wp_base::NoMemory;

/// How many cells each struct of a file has.
#[tactic(auto, using(crate::proofs::Parts::size_laws))]
pub(crate) fn sizes_of(alloc: Global, file: &File) -> Result<Vec<u32>, NoMemory>
    ensures { IfOk result (λ sizes. sizes.items ≡ spec.sizes_of file.now) }
{
    let mut sizes = Vec::new(alloc);
    let structs = file.structs.as_slice();
    for i in 0..structs.len() {
        let count = structs[i].layout.cells.len();
        if count > u32::MAX as usize {
            return Err(NoMemory);
        }
        sizes.push(count as u32)?;
    }
    Ok(sizes)
}

/// What the function with this number gives.
pub(crate) fn result_of(alloc: Global, file: &File, number: u32) -> Result<CoreType, NoMemory>
    ensures { IfOk result (λ ty. ty ≡ spec.result_of file.now number) }
{
    match file.functions.get(number as usize) {
        Some(function) => function.result.copy(alloc),
        None => Ok(CoreType::void(alloc)),
    }
}

/// What the file declares before an annotation.
pub(crate) fn before_of<'a>(
    typed: &'a Typed<'_>,
    sizes: &'a [u32],
    names: u32,
    tags: u32,
) -> Before<'a>
    ensures { view_before result ≡ spec.before_of (view_typed typed.now) sizes.now names tags }
{
    Before {
        model: typed.model,
        sizes,
        file: &typed.file,
        names: names as usize,
        tags: tags as usize,
    }
}
