// Whole files (C11 6.9).
ghost use Rattle.std.specs.Prelude.{◌≡◌, ◌++◌, IfOk};
ghost use Rattle.parse_file.specs.Read as spec;
ghost use Rattle.parse_file.specs.Views.{view_front};

use crate::decls::decl_at;
use crate::found::Lines;
use crate::lines::append;
use c_grammar::{Fault, TypeNames};
use c_syntax::{Decl, Token};
use std::alloc::Global;
use wp_base::{List, NoMemory, Str};

/// The declarations at the front, the typedef names behind them, the lines of their functions, and
/// the tokens that are left.
#[derive(Drop)]
pub struct Front<'a> {
    pub decls: List<Decl>,
    pub names: TypeNames,
    pub lines: List<Lines>,
    pub left: &'a [Token],
}

// These names, and then those.
fn declare_all(alloc: Global, types: TypeNames, names: List<Str>) -> Result<TypeNames, NoMemory>
    ensures { IfOk result (λ all. all ≡ types ++ names) }
{
    let mut all = types;
    for name in names.into_vec() {
        all.declare(alloc, name)?;
    }
    Ok(all)
}

/// The declarations at the front, as far as they are spelled.
pub fn file_front(alloc: Global, tokens: &[Token]) -> Result<Front<'_>, NoMemory>
    ensures { IfOk result (λ x. view_front x ≡ spec.file_front tokens.now) }
{
    let end = tokens.len();
    let mut front = Front {
        decls: List::new(alloc),
        names: TypeNames::new(alloc),
        lines: List::new(alloc),
        left: tokens,
    };
    for turn in 0..end {
        match decl_at(alloc, &front.names, end, front.left) {
            Ok((found, rest)) => {
                front = Front {
                    decls: append(front.decls, found.decls)?,
                    names: declare_all(alloc, front.names, found.names)?,
                    lines: append(front.lines, found.lines)?,
                    left: rest,
                };
            }
            Err(Fault::Syntax) => return Ok(front),
            Err(Fault::NoMemory) => return Err(NoMemory),
        }
    }
    Ok(front)
}
