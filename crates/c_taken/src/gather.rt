// Lists of what is still to be looked at, and of names found.
ghost use Rattle.std.specs.Prelude.{◌≡◌, [], ◌∷◌, ◌++◌, OnOk};
ghost use Rattle.std.specs.Option.{option_copied, option_to_list};
ghost use Rattle.c_taken.specs.Pieces.{pointed};

use wp_base::{List, NoMemory, Str};

pub(crate) fn put<'a, T>(left: &mut Vec<&'a T>, item: &'a T) -> Result<(), NoMemory>
    ensures { OnOk result (pointed left.new.items ≡ pointed left.old.items ++ item.now ∷ []) }
{
    left.push(item)?;
    Ok(())
}

pub(crate) fn put_two<'a, T>(
    left: &mut Vec<&'a T>,
    first: &'a T,
    second: &'a T,
) -> Result<(), NoMemory>
    ensures { OnOk result (pointed left.new.items ≡ pointed left.old.items ++ (first.now ∷ second.now ∷ [])) }
{
    put(left, first)?;
    put(left, second)
}

pub(crate) fn put_three<'a, T>(
    left: &mut Vec<&'a T>,
    first: &'a T,
    second: &'a T,
    third: &'a T,
) -> Result<(), NoMemory>
    ensures { OnOk result (pointed left.new.items ≡ pointed left.old.items ++ (first.now ∷ second.now ∷ third.now ∷ [])) }
{
    put_two(left, first, second)?;
    put(left, third)
}

pub(crate) fn put_each<'a, T>(left: &mut Vec<&'a T>, items: &'a List<T>) -> Result<(), NoMemory>
    ensures { OnOk result (pointed left.new.items ≡ pointed left.old.items ++ items.now) }
{
    for item in items.as_slice() {
        left.push(item)?;
    }
    Ok(())
}

/// The name, if there is one, behind the others.
pub(crate) fn put_name<'a>(names: &mut Vec<&'a Str>, name: Option<&'a Str>) -> Result<(), NoMemory>
    ensures { OnOk result (pointed names.new.items ≡ pointed names.old.items ++ option_to_list (option_copied name.entry)) }
{
    match name {
        Some(name) => {
            names.push(name)?;
            Ok(())
        }
        None => Ok(()),
    }
}

/// All of these behind the others.
pub(crate) fn put_names<'a>(names: &mut Vec<&'a Str>, found: Vec<&'a Str>) -> Result<(), NoMemory>
    ensures { OnOk result (pointed names.new.items ≡ pointed names.old.items ++ pointed found.entry.items) }
{
    names.extend_from_slice(found.as_slice())?;
    Ok(())
}
