// Types of objects and values (C11 6.2.5).
ghost use Rattle.std.specs.Prelude.{◌≡◌, IfOk};
ghost use Rattle.typed_prog.specs.Types as spec;

use std::alloc::Global;
use wp_base::{Kind, List, NoMemory};

/// What a type has at its root: no object, an integer kind, or the struct with this number in the file.
#[derive(Clone, Copy)]
pub enum Base {
    Void,
    Of(Kind),
    Struct(u32),
}

/// A type: its root; its stars, the outermost first, each with whether what it points to is constant; and of an array the number
/// of its elements. So arrays of arrays and pointers to arrays have no form.
#[derive(Drop)]
pub struct CoreType {
    pub base: Base,
    pub stars: List<bool>,
    pub count: Option<u32>,
}

impl Base {
    /// Whether both are the same root.
    pub fn is_same(self, other: Base) -> bool
        ensures { result ≡ spec.same_base self other }
    {
        match self {
            Base::Void => match other {
                Base::Void => true,
                Base::Of(_) | Base::Struct(_) => false,
            },
            Base::Of(kind) => match other {
                Base::Of(other) => kind == other,
                Base::Void | Base::Struct(_) => false,
            },
            Base::Struct(number) => match other {
                Base::Struct(other) => number == other,
                Base::Void | Base::Of(_) => false,
            },
        }
    }
}

impl CoreType {
    /// The type of an integer of this kind.
    pub fn of_kind(alloc: Global, kind: Kind) -> CoreType
        ensures { result ≡ spec.of_kind kind }
    {
        CoreType {
            base: Base::Of(kind),
            stars: List::new(alloc),
            count: None,
        }
    }

    /// The type that no value has.
    pub fn void(alloc: Global) -> CoreType
        ensures { result ≡ spec.void }
    {
        CoreType {
            base: Base::Void,
            stars: List::new(alloc),
            count: None,
        }
    }

    /// A copy, which equals its source.
    pub fn copy(&self, alloc: Global) -> Result<CoreType, NoMemory>
        ensures { IfOk result (λ copy. copy ≡ self.now) }
    {
        let stars = Vec::from_slice(alloc, self.stars.as_slice())?;
        Ok(CoreType {
            base: self.base,
            stars: List::from_vec(stars),
            count: self.count,
        })
    }

    /// The type of the elements of an array; of another type that type.
    pub fn element(&self, alloc: Global) -> Result<CoreType, NoMemory>
        ensures { IfOk result (λ element. element ≡ spec.element_of self.now) }
    {
        let stars = Vec::from_slice(alloc, self.stars.as_slice())?;
        Ok(CoreType {
            base: self.base,
            stars: List::from_vec(stars),
            count: None,
        })
    }

    /// The type of a pointer to an object of this type, or to the elements of an array.
    pub fn pointer(&self, alloc: Global, is_const: bool) -> Result<CoreType, NoMemory>
        ensures { IfOk result (λ pointer. pointer ≡ spec.pointer_to self.now is_const) }
    {
        let mut stars = Vec::from_array(alloc, [is_const])?;
        stars.extend_from_slice(self.stars.as_slice())?;
        Ok(CoreType {
            base: self.base,
            stars: List::from_vec(stars),
            count: None,
        })
    }

    /// What a pointer of this type points to, and whether that is constant; none exactly where it is no pointer.
    pub fn target(&self, alloc: Global) -> Result<Option<(CoreType, bool)>, NoMemory>
        ensures { IfOk result (λ target. target ≡ spec.target_of self.now) }
    {
        if self.count.is_some() {
            return Ok(None);
        }
        match self.stars.as_slice().split_first() {
            None => Ok(None),
            Some((is_const, rest)) => {
                let stars = Vec::from_slice(alloc, rest)?;
                Ok(Some((
                    CoreType {
                        base: self.base,
                        stars: List::from_vec(stars),
                        count: None,
                    },
                    *is_const,
                )))
            }
        }
    }

    /// The kind of an integer; none exactly where it is no integer.
    pub fn kind(&self) -> Option<Kind>
        ensures { result ≡ spec.kind_of self.now }
    {
        if self.stars.len() != 0 || self.count.is_some() {
            return None;
        }
        match self.base {
            Base::Of(kind) => Some(kind),
            Base::Void | Base::Struct(_) => None,
        }
    }

    /// The number of a struct; none exactly where it is no struct.
    pub fn structure(&self) -> Option<u32>
        ensures { result ≡ spec.struct_of self.now }
    {
        if self.stars.len() != 0 || self.count.is_some() {
            return None;
        }
        match self.base {
            Base::Struct(number) => Some(number),
            Base::Void | Base::Of(_) => None,
        }
    }

    /// Whether it is a pointer.
    pub fn is_pointer(&self) -> bool
        ensures { result ≡ spec.is_pointer self.now }
    {
        self.stars.len() != 0 && self.count.is_none()
    }

    /// Whether it is the type without values.
    pub fn is_void(&self) -> bool
        ensures { result ≡ spec.is_void self.now }
    {
        if self.stars.len() != 0 || self.count.is_some() {
            return false;
        }
        match self.base {
            Base::Void => true,
            Base::Of(_) | Base::Struct(_) => false,
        }
    }

    /// Whether both are the same type.
    pub fn is_same(&self, other: &CoreType) -> bool
        ensures { result ≡ spec.same_type self.now other.now }
    {
        self.base.is_same(other.base)
            && are_same(self.stars.as_slice(), other.stars.as_slice())
            && is_same_count(self.count, other.count)
    }

    /// The same pointer type, but what it points to is constant.
    pub fn with_const_target(&self, alloc: Global) -> Result<CoreType, NoMemory>
        ensures { IfOk result (λ pointer. pointer ≡ spec.with_const_target self.now) }
    {
        let stars = match self.stars.as_slice().split_first() {
            None => Vec::new(alloc),
            Some((_, rest)) => {
                let mut stars = Vec::from_array(alloc, [true])?;
                stars.extend_from_slice(rest)?;
                stars
            }
        };
        Ok(CoreType {
            base: self.base,
            stars: List::from_vec(stars),
            count: self.count,
        })
    }
}

fn is_same_count(count: Option<u32>, other: Option<u32>) -> bool
    ensures { result ≡ spec.same_count count other }
{
    match count {
        None => other.is_none(),
        Some(count) => match other {
            None => false,
            Some(other) => count == other,
        },
    }
}

// Whether both have the same stars.
fn are_same(stars: &[bool], others: &[bool]) -> bool
    ensures { result ≡ spec.same_stars stars.now others.now }
{
    let mut stars = stars;
    let mut others = others;
    while let Some((star, rest)) = stars.split_first() {
        let Some((other, others_rest)) = others.split_first() else {
            return false;
        };
        if *star != *other {
            return false;
        }
        stars = rest;
        others = others_rest;
    }
    others.is_empty()
}
