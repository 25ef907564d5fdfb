// Lists.
ghost use Rattle.std.specs.Prelude.{◌≡◌, [], ◌∷◌, ◌++◌, IfOk, map};
ghost use Rattle.parse_decls.specs.Views.{view_param};
ghost use Rattle.c_grammar.specs.Decls.{param_lines, params_of};
ghost use Rattle.c_syntax.specs.View.{view_var};

use c_syntax::VarDecl;
use std::alloc::Global;
use wp_base::{Line, List, NoMemory};

/// A list of one item.
pub fn only<T: Drop>(alloc: Global, item: T) -> Result<List<T>, NoMemory>
    ensures { IfOk result (λ xs. xs ≡ item ∷ []) }
{
    let mut items = List::new(alloc);
    items.push(item)?;
    Ok(items)
}

/// These items, and then those.
pub fn append<T: Drop>(items: List<T>, more: List<T>) -> Result<List<T>, NoMemory>
    ensures { IfOk result (λ xs. xs ≡ items ++ more) }
{
    let mut all = items;
    for item in more.into_vec() {
        all.push(item)?;
    }
    Ok(all)
}

/// Parameters, and the lines on which they begin.
pub fn split_params(
    alloc: Global,
    params: List<(VarDecl, Line)>,
) -> Result<(List<VarDecl>, List<Line>), NoMemory>
    ensures params { IfOk result (λ x. map view_var x.0 ≡ params_of (map view_param params)) }
    ensures lines { IfOk result (λ x. x.1 ≡ param_lines (map view_param params)) }
{
    let mut vars = List::new(alloc);
    let mut lines = List::new(alloc);
    for (var, line) in params.into_vec() {
        vars.push(var)?;
        lines.push(line)?;
    }
    Ok((vars, lines))
}
