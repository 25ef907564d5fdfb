// Items by their numbers.
ghost use Rattle.std.specs.Prelude.{◌≡◌};
ghost use Rattle.std.specs.Option.{option_copied};
ghost use Rattle.program_trees.specs.Files.{at};

/// The item with a number, if it is there.
pub fn item_at<T>(items: &[Option<T>], number: u32) -> Option<&T>
    ensures { option_copied result ≡ at items.now number }
{
    match items.get(number as usize) {
        Some(found) => found.as_ref(),
        None => None,
    }
}
