ghost use Rattle.std.specs.Prelude.{◌≡◌, ◌↔◌, IsTrue, IfOk};
ghost use Rattle.tower_types.specs.Ty.{scalar, array, rec};
ghost use Rattle.tower_types.specs.View.{ty_of};

use crate::{NoMemory, Scalar};
use sqlite_items::Boxed;
use std::alloc::Global;

/// A type.
#[derive(Debug, Drop)]
pub enum Ty {
    Scalar(Scalar),
    /// So many elements of a type.
    Array(u32, Boxed<Ty>),
    /// The record with this number.
    Rec(u32),
}

impl Ty {
    /// The array of `len` elements of a type.
    pub fn array(alloc: Global, len: u32, element: Ty) -> Result<Ty, NoMemory>
        ensures { IfOk result (λ t. ty_of t ≡ array len (ty_of element)) }
    {
        Ok(Ty::Array(len, Boxed::new(alloc, element)?))
    }

    /// Another type equal to this one.
    pub fn copy(&self, alloc: Global) -> Result<Ty, NoMemory>
        ensures { IfOk result (λ t. ty_of t ≡ ty_of self.now) }
    {
        match self {
            Ty::Scalar(s) => Ok(Ty::Scalar(*s)),
            Ty::Array(len, element) => {
                let element = element.get().copy(alloc)?;
                Ty::array(alloc, *len, element)
            }
            Ty::Rec(r) => Ok(Ty::Rec(*r)),
        }
    }

    /// Whether two types are the same.
    pub fn same(&self, other: &Ty) -> bool
        ensures { IsTrue result ↔ (ty_of self.now ≡ ty_of other.now) }
    {
        match (self, other) {
            (Ty::Scalar(s), Ty::Scalar(t)) => *s == *t,
            (Ty::Array(n, s), Ty::Array(m, t)) => *n == *m && s.get().same(t.get()),
            (Ty::Rec(r), Ty::Rec(q)) => *r == *q,
            _ => false,
        }
    }
}
