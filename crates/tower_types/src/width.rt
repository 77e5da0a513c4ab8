//! How many numbers the values of a type have, and how deep they are.

ghost use Rattle.std.specs.Prelude.{◌≡◌, length};
ghost use Rattle.tower_types.specs.Ty.{shape_of, words, depth};
ghost use Rattle.tower_types.specs.View.{ty_of};
ghost use Rattle.tower_types.specs.Records.{IsTypeAmong, saturated};

use crate::{Records, Ty};

/// How many numbers a value of the type has, or 2^64 - 1 where there are more. It takes no memory.
pub fn words(records: &Records, t: &Ty) -> u64
    requires { IsTypeAmong (length records.now) (ty_of t.now) }
    ensures { result ≡ saturated (words (shape_of records.now (ty_of t.now))) }
{
    match t {
        Ty::Scalar(_) => 1,
        Ty::Array(len, element) => u64::from(*len).saturating_mul(words(records, element.get())),
        Ty::Rec(r) => records.record_words(*r),
    }
}

/// The depth of the type, or 2^64 - 1 where it is deeper. It takes no memory.
pub fn depth(records: &Records, t: &Ty) -> u64
    requires { IsTypeAmong (length records.now) (ty_of t.now) }
    ensures { result ≡ saturated (depth (shape_of records.now (ty_of t.now))) }
{
    match t {
        Ty::Scalar(_) => 1,
        Ty::Array(_, element) => depth(records, element.get()).saturating_add(1),
        Ty::Rec(r) => records.record_depth(*r),
    }
}
