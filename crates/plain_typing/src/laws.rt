// What is so of typed expressions over plain integers.
ghost use Rattle.plain_typing.specs.Laws.{TypedGive, TypedGiveAll, TypedStore};
ghost use Rattle.plain_typing.specs.Examples.{ExampleFits};

/// A typed expression gives a number of its type's kind where its checks are met.
pub fn typed_give()
    ensures { TypedGive }
{}

/// Typed operands give numbers of the kinds of parameters.
pub fn typed_give_all()
    ensures { TypedGiveAll }
{}

/// What is stored in a variable is a number of its kind.
pub fn typed_store()
    ensures { TypedStore }
{}

/// The core program of a small file with a loop, a call of itself and a temporary is one over plain integers.
pub fn example_fits()
    ensures { ExampleFits }
{}
