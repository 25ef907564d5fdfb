// Kinds of temporaries, as they are found.
ghost use Rattle.std.specs.Prelude.{◌≡◌, ◌<◌, ◌+◌, suc, length, OnOk, None};
ghost use Rattle.temporary_kinds.specs.Kinds as spec;
ghost use Rattle.temporary_kinds.specs.View.{Tells, kind_at};

use wp_base::{CellKind, NoMemory};

// There is a place with this number.
fn reach(kinds: &mut Vec<Option<CellKind>>, at: usize) -> Result<(), NoMemory>
    requires { at < 4294967296 }
    ensures { OnOk result (Tells kinds.old.items kinds.new.items (λ n. None) (at + 1)) }
{
    if at >= kinds.len() {
        kinds.resize(at + 1, None)?;
    }
    Ok(())
}

// Its kind is told, where it wasn't before.
fn tell(kinds: &mut Vec<Option<CellKind>>, at: usize, kind: Option<CellKind>)
    requires { at < length kinds.now.items }
    ensures { Tells kinds.old.items kinds.new.items (λ n. spec.only_if at n kind) 0 }
{
    if kinds[at].is_none() {
        kinds[at] = kind;
    }
}

/// A temporary is set or used, as one of this kind, where it is told.
pub(crate) fn mention(
    kinds: &mut Vec<Option<CellKind>>,
    number: u32,
    kind: Option<CellKind>,
) -> Result<(), NoMemory>
    ensures { OnOk result (Tells kinds.old.items kinds.new.items (λ n. spec.only_if number n kind) (suc number)) }
{
    let at = number as usize;
    reach(kinds, at)?;
    tell(kinds, at, kind);
    Ok(())
}
