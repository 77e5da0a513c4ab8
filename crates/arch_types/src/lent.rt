//! Types that are lent, so that a use of a name copies none.
ghost use Rattle.std.specs.Prelude.{◌≡◌, ◌↔◌, IsTrue, IfOk};
ghost use Rattle.tower_types.specs.View.{ty_of};
ghost use Rattle.arch_types.specs.Seen.{type_in};
ghost use Rattle.arch_types.specs.Walk.{element_of, scalar_in};

use std::alloc::Global;
use tower_types::{NoMemory, Scalar, Ty};

/// A type of which an array's elements are lent.
#[derive(Clone, Copy)]
pub enum TypeRef<'a> {
    Scalar(Scalar),
    /// So many elements of a type.
    Array(u32, &'a Ty),
    /// The record with this number.
    Rec(u32),
}

impl<'a> TypeRef<'a> {
    /// The type, lent.
    pub fn of(ty: &'a Ty) -> TypeRef<'a>
        ensures { type_in result ≡ ty_of ty.now }
    {
        match ty {
            Ty::Scalar(s) => TypeRef::Scalar(*s),
            Ty::Array(len, element) => TypeRef::Array(*len, element.get()),
            Ty::Rec(r) => TypeRef::Rec(*r),
        }
    }

    /// The type of an array's elements, and any other type itself.
    pub fn element(self) -> TypeRef<'a>
        ensures { type_in result ≡ element_of (type_in self.entry) }
    {
        match self {
            TypeRef::Array(_, element) => TypeRef::of(element),
            other => other,
        }
    }

    /// The scalar of a type that is one, and `bool` of any other.
    pub fn scalar(self) -> Scalar
        ensures { result ≡ scalar_in (type_in self.entry) }
    {
        match self {
            TypeRef::Scalar(s) => s,
            _ => Scalar::Bool,
        }
    }

    /// Whether two types are the same.
    pub fn same(self, other: TypeRef) -> bool
        ensures { IsTrue result ↔ (type_in self.entry ≡ type_in other.entry) }
    {
        match (self, other) {
            (TypeRef::Scalar(s), TypeRef::Scalar(t)) => s == t,
            (TypeRef::Array(n, s), TypeRef::Array(m, t)) => n == m && s.same(t),
            (TypeRef::Rec(r), TypeRef::Rec(q)) => r == q,
            _ => false,
        }
    }

    /// A type equal to this one, that lends nothing.
    pub fn copy(self, alloc: Global) -> Result<Ty, NoMemory>
        ensures { IfOk result (λ t. ty_of t ≡ type_in self.entry) }
    {
        match self {
            TypeRef::Scalar(s) => Ok(Ty::Scalar(s)),
            TypeRef::Array(len, element) => {
                let element = element.copy(alloc)?;
                Ty::array(alloc, len, element)
            }
            TypeRef::Rec(r) => Ok(Ty::Rec(r)),
        }
    }
}
