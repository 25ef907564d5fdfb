// Lists of what is still to be looked at.
ghost use Rattle.std.specs.Prelude.{◌≡◌, [], ◌∷◌, ◌++◌, OnOk};
ghost use Rattle.acsl_guards.specs.Parts.{pointed};

use wp_base::{List, NoMemory};

pub(crate) fn put<'a, T>(left: &mut Vec<&'a T>, item: &'a T) -> Result<(), NoMemory>
    ensures { OnOk result (pointed left.new.items ≡ pointed left.old.items ++ item.now ∷ []) }
{
    left.push(item)?;
    Ok(())
}

pub(crate) fn put_two<'a, T>(
    left: &mut Vec<&'a T>,
    first: &'a T,
    second: &'a T,
) -> Result<(), NoMemory>
    ensures { OnOk result (pointed left.new.items ≡ pointed left.old.items ++ (first.now ∷ second.now ∷ [])) }
{
    put(left, first)?;
    put(left, second)
}

pub(crate) fn put_three<'a, T>(
    left: &mut Vec<&'a T>,
    first: &'a T,
    second: &'a T,
    third: &'a T,
) -> Result<(), NoMemory>
    ensures { OnOk result (pointed left.new.items ≡ pointed left.old.items ++ (first.now ∷ second.now ∷ third.now ∷ [])) }
{
    put_two(left, first, second)?;
    put(left, third)
}

/// Puts all of these behind what is still to be looked at.
pub(crate) fn put_each<'a, T>(left: &mut Vec<&'a T>, items: &'a List<T>) -> Result<(), NoMemory>
    ensures { OnOk result (pointed left.new.items ≡ pointed left.old.items ++ items.now) }
{
    for item in items.as_slice() {
        left.push(item)?;
    }
    Ok(())
}
