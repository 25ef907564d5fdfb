// What nodes of typed annotations are to the nodes above them (ACSL 2.2).
ghost use Rattle.std.specs.Prelude.{◌≡◌};
ghost use Rattle.plain_trees.specs.View as spec;

use acsl_trees::Head;
use typed_prog::Variable;

/// What a node with this head is.
#[derive(Clone, Copy)]
pub(crate) enum Role {
    Variable(Variable),
    Link,
    Read,
    Binder,
    Other,
}

pub(crate) fn role_of(head: Head) -> Role
    ensures { result ≡ spec.role_of head }
{
    match head {
        Head::Variable(variable) => Role::Variable(variable),
        Head::Link(_) => Role::Link,
        Head::Read { .. } => Role::Read,
        Head::Let | Head::Every(_) | Head::Some(_) => Role::Binder,
        Head::Number(_)
        | Head::Null
        | Head::Name(_)
        | Head::Call(_)
        | Head::Result
        | Head::At(_)
        | Head::Pointed
        | Head::Field { .. }
        | Head::Element { .. }
        | Head::Elements { .. }
        | Head::Behind { .. }
        | Head::Address
        | Head::Moved { .. }
        | Head::Difference { .. }
        | Head::Negate
        | Head::Complement
        | Head::Arithmetic(_)
        | Head::Convert(_)
        | Head::Compare(_)
        | Head::ComparePointers(_)
        | Head::Not
        | Head::And
        | Head::Or
        | Head::Xor
        | Head::Implies
        | Head::Iff
        | Head::Choose
        | Head::Chain
        | Head::LinkPointers(_)
        | Head::Valid { .. }
        | Head::Separated
        | Head::Region(_) => Role::Other,
    }
}

pub(crate) fn is_link(role: Role) -> bool
    ensures { result ≡ spec.is_link role }
{
    match role {
        Role::Link => true,
        Role::Variable(_) => false,
        Role::Read => false,
        Role::Binder => false,
        Role::Other => false,
    }
}

pub(crate) fn is_read(role: Role) -> bool
    ensures { result ≡ spec.is_read role }
{
    match role {
        Role::Read => true,
        Role::Variable(_) => false,
        Role::Link => false,
        Role::Binder => false,
        Role::Other => false,
    }
}

pub(crate) fn is_binder(role: Role) -> bool
    ensures { result ≡ spec.is_binder role }
{
    match role {
        Role::Binder => true,
        Role::Variable(_) => false,
        Role::Link => false,
        Role::Read => false,
        Role::Other => false,
    }
}
