// Heads by what becomes of their nodes.
ghost use Rattle.std.specs.Prelude.{◌≡◌};
ghost use Rattle.acsl_expand.specs.Parts as spec;

use acsl_trees::Head;

/// What becomes of a node with this head.
#[derive(Clone, Copy)]
pub enum Part {
    Name(u32),
    Call(u32),
    /// It stays, over kids of which the last one is under a binder or not.
    Other(bool),
}

pub fn part_of(head: Head) -> Part
    ensures { result ≡ spec.part_of head }
{
    match head {
        Head::Name(name) => Part::Name(name),
        Head::Call(number) => Part::Call(number),
        Head::Let | Head::Every(_) | Head::Some(_) => Part::Other(true),
        Head::Number(_)
        | Head::Null
        | Head::Result
        | Head::At(_)
        | Head::Variable(_)
        | Head::Pointed
        | Head::Field { .. }
        | Head::Element { .. }
        | Head::Elements { .. }
        | Head::Behind { .. }
        | Head::Read { .. }
        | Head::Address
        | Head::Moved { .. }
        | Head::Difference { .. }
        | Head::Negate
        | Head::Complement
        | Head::Arithmetic(_)
        | Head::Convert(_)
        | Head::Compare(_)
        | Head::ComparePointers(_)
        | Head::Not
        | Head::And
        | Head::Or
        | Head::Xor
        | Head::Implies
        | Head::Iff
        | Head::Choose
        | Head::Chain
        | Head::Link(_)
        | Head::LinkPointers(_)
        | Head::Valid { .. }
        | Head::Separated
        | Head::Region(_) => Part::Other(false),
    }
}
