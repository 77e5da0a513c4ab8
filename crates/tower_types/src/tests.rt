ghost use Rattle.std.specs.Prelude.{◌≡◌, [], ◌∷◌, map, IfOk};
ghost use Rattle.tower_types.specs.Value.{word, parts, values_of};
ghost use Rattle.tower_types.specs.View.{ty_of, fields_of, value_of};

use crate::{
    BinOp, Name, NoMemory, Records, Scalar, Text, Ty, UnOp, Value, applies, applies_one, binary,
    binary_scalar, depth, fits, fits_scalar, flatten, has_numbers, is_number, unary, unflatten,
    words, wrap,
};
use sqlite_items::Items;
use std::alloc::Global;
use std::test::Fail;

// Each scalar with its least and its greatest number.
const ENDS: [(Scalar, i128, i128); 12] = [
    (Scalar::Bool, 0, 1),
    (Scalar::U8, 0, 255),
    (Scalar::U16, 0, 65_535),
    (Scalar::U32, 0, 4_294_967_295),
    (Scalar::U64, 0, 18_446_744_073_709_551_615),
    (Scalar::I8, -128, 127),
    (Scalar::I16, -32_768, 32_767),
    (Scalar::I32, -2_147_483_648, 2_147_483_647),
    (
        Scalar::I64,
        -9_223_372_036_854_775_808,
        9_223_372_036_854_775_807,
    ),
    (Scalar::Ix(1), 0, 0),
    (Scalar::Ix(4), 0, 3),
    (Scalar::Ix(4_294_967_295), 0, 4_294_967_294),
];

fn joined(op: BinOp, t: Scalar, a: i128, b: i128) -> Option<i128> {
    if applies(op, t) && fits_scalar(t, a) && fits_scalar(t, b) {
        Some(binary(op, t, a, b))
    } else {
        None
    }
}

fn turned(op: UnOp, t: Scalar, a: i128) -> Option<i128> {
    if applies_one(op, t) && fits_scalar(t, a) {
        Some(unary(op, t, a))
    } else {
        None
    }
}

fn wrapped(t: Scalar, n: i128) -> Option<i128> {
    if is_number(t) && has_numbers(t) {
        Some(wrap(t, n))
    } else {
        None
    }
}

#[test]
fn scalars_end_where_they_should(rt: HostRuntime) {
    for (t, least, greatest) in ENDS {
        for (n, want) in [
            (least - 1, false),
            (least, true),
            (greatest, true),
            (greatest + 1, false),
        ] {
            assert_eq!(rt; fits_scalar(t, n), want, "{t:?} {n}");
        }
    }
    assert!(rt; !has_numbers(Scalar::Ix(0)));
}

// What holds at the ends of every number: the operations in which the end decides.
#[test]
fn numbers_wrap_at_their_ends(rt: HostRuntime) {
    for (t, least, greatest) in ENDS {
        if t != Scalar::Bool {
            let one = 1.min(greatest);
            for (op, a, b, want) in [
                (
                    BinOp::Add,
                    greatest,
                    one,
                    if greatest == 0 { 0 } else { least },
                ),
                (
                    BinOp::Sub,
                    least,
                    one,
                    if greatest == 0 { 0 } else { greatest },
                ),
                (BinOp::Mul, greatest, greatest, one),
                (BinOp::Div, greatest, 0, 0),
                (BinOp::Div, least, 0, 0),
                (BinOp::Rem, greatest, 0, greatest),
                (BinOp::Rem, least, 0, least),
                (BinOp::Eq, least, greatest, i128::from(greatest == 0)),
                (BinOp::Eq, greatest, greatest, 1),
                (BinOp::Less, least, greatest, i128::from(greatest != 0)),
                (BinOp::Less, greatest, greatest, 0),
                (BinOp::LessEq, greatest, greatest, 1),
                (BinOp::LessEq, greatest, least, i128::from(greatest == 0)),
            ] {
                assert_eq!(rt; joined(op, t, a, b), Some(want), "{op:?} {t:?} {a} {b}");
            }
            assert_eq!(rt; wrapped(t, greatest + 1), Some(least), "{t:?}");
            assert_eq!(rt; wrapped(t, least - 1), Some(greatest), "{t:?}");
        }
    }
}

#[test]
fn signed_numbers_divide_toward_zero(rt: HostRuntime) {
    for (t, least, greatest) in ENDS {
        if least < 0 {
            for (op, a, b, want) in [
                (BinOp::Div, least, -1, least),
                (BinOp::Rem, least, -1, 0),
                (BinOp::Div, least, greatest, -1),
                (BinOp::Rem, least, greatest, -1),
                (BinOp::Div, greatest, least, 0),
                (BinOp::Rem, greatest, least, greatest),
                (BinOp::Mul, least, -1, least),
                (BinOp::Mul, least, least, 0),
                (BinOp::Div, -7, 2, -3),
                (BinOp::Rem, -7, 2, -1),
                (BinOp::Div, 7, -2, -3),
                (BinOp::Rem, 7, -2, 1),
            ] {
                assert_eq!(rt; joined(op, t, a, b), Some(want), "{op:?} {t:?} {a} {b}");
            }
            assert_eq!(rt; turned(UnOp::Neg, t, least), Some(least), "{t:?}");
            assert_eq!(rt; turned(UnOp::Neg, t, greatest), Some(least + 1), "{t:?}");
            assert_eq!(rt; joined(BinOp::And, t, 1, 1), None, "{t:?}");
        }
    }
    assert_eq!(rt; wrapped(Scalar::I8, 200), Some(-56));
}

#[test]
fn unsigned_numbers_have_bits(rt: HostRuntime) {
    for (t, _, greatest) in ENDS {
        if applies(BinOp::And, t) {
            for (op, a, b, want) in [
                (BinOp::And, greatest, 10, 10),
                (BinOp::And, 12, 10, 8),
                (BinOp::Or, greatest, 10, greatest),
                (BinOp::Or, 12, 10, 14),
                (BinOp::Xor, greatest, greatest, 0),
                (BinOp::Xor, 12, 10, 6),
            ] {
                assert_eq!(rt; joined(op, t, a, b), Some(want), "{op:?} {t:?} {a} {b}");
            }
            assert_eq!(rt; turned(UnOp::Neg, t, 1), Some(greatest), "{t:?}");
            assert_eq!(rt; turned(UnOp::Neg, t, greatest), Some(1), "{t:?}");
        }
    }
    assert_eq!(rt; turned(UnOp::Neg, Scalar::Ix(4), 1), Some(3));
}

#[test]
fn truths_join(rt: HostRuntime) {
    for (a, b, both, either, same) in [
        (0, 0, 0, 0, 1),
        (0, 1, 0, 1, 0),
        (1, 0, 0, 1, 0),
        (1, 1, 1, 1, 1),
    ] {
        for (op, want) in [
            (BinOp::Both, both),
            (BinOp::Either, either),
            (BinOp::Eq, same),
        ] {
            assert_eq!(rt;
                joined(op, Scalar::Bool, a, b),
                Some(want),
                "{op:?} {a} {b}"
            );
            assert_eq!(rt; binary_scalar(op, Scalar::Bool), Scalar::Bool);
        }
    }
    assert_eq!(rt; turned(UnOp::Not, Scalar::Bool, 0), Some(1));
    assert_eq!(rt; turned(UnOp::Not, Scalar::Bool, 1), Some(0));
    assert_eq!(rt; joined(BinOp::Add, Scalar::Bool, 1, 1), None);
    assert_eq!(rt; joined(BinOp::Both, Scalar::U8, 1, 1), None);
    assert_eq!(rt; binary_scalar(BinOp::Less, Scalar::U8), Scalar::Bool);
    assert_eq!(rt; binary_scalar(BinOp::Rem, Scalar::U8), Scalar::U8);
}

// Two fields of these types.
fn two_fields(alloc: Global, first: Ty, second: Ty) -> Result<Vec<(Name, Ty)>, NoMemory>
    ensures { IfOk result (λ fs. map (λ f. f.1) (fields_of fs.items) ≡ ty_of first ∷ ty_of second ∷ []) }
{
    let mut fields = Vec::new(alloc);
    fields.push((Name::new(alloc, b"a")?, first))?;
    fields.push((Name::new(alloc, b"b")?, second))?;
    Ok(fields)
}

// A record of a u8 and three i32, and a record of two of the first and a truth.
#[test]
fn records_keep_their_widths(rt: HostRuntime) -> Result<(), Fail> {
    let alloc = rt.alloc();
    let mut records = Records::new(alloc);
    assert!(rt; records.is_empty());
    let three = Ty::array(alloc, 3, Ty::Scalar(Scalar::I32))?;
    let fields = two_fields(alloc, Ty::Scalar(Scalar::U8), three)?;
    assert_eq!(rt; records.push(fields)?, 0);
    let two = Ty::array(alloc, 2, Ty::Rec(0))?;
    let fields = two_fields(alloc, two, Ty::Scalar(Scalar::Bool))?;
    assert_eq!(rt; records.push(fields)?, 1);
    assert_eq!(rt; records.len(), 2);
    assert_eq!(rt; records.fields(1).len(), 2);
    assert_eq!(rt; words(&records, &Ty::Rec(0)), 4);
    assert_eq!(rt; depth(&records, &Ty::Rec(0)), 3);
    assert_eq!(rt; words(&records, &Ty::Rec(1)), 9);
    assert_eq!(rt; depth(&records, &Ty::Rec(1)), 5);
    let wide = Ty::array(alloc, u32::MAX, Ty::Rec(0))?;
    assert_eq!(rt; words(&records, &wide), 17_179_869_180);
    let wider = Ty::array(alloc, u32::MAX, wide)?;
    assert_eq!(rt; words(&records, &wider), u64::MAX);
    let none = Ty::array(alloc, 0, wider)?;
    assert_eq!(rt; words(&records, &none), 0);
    assert_eq!(rt; depth(&records, &none), 6);
    Ok(())
}

#[test]
fn an_empty_record_is_one_deep(rt: HostRuntime) -> Result<(), Fail> {
    let mut records = Records::new(rt.alloc());
    assert_eq!(rt; records.push(Vec::new(rt.alloc()))?, 0);
    assert_eq!(rt; words(&records, &Ty::Rec(0)), 0);
    assert_eq!(rt; depth(&records, &Ty::Rec(0)), 1);
    Ok(())
}

#[test]
fn types_are_copied_and_compared(rt: HostRuntime) -> Result<(), Fail> {
    let alloc = rt.alloc();
    let three = Ty::array(alloc, 3, Ty::Rec(1))?;
    let four = Ty::array(alloc, 4, Ty::Rec(1))?;
    assert!(rt; three.same(&three.copy(alloc)?));
    assert!(rt; !three.same(&four));
    assert!(rt; !three.same(&Ty::Rec(1)));
    assert!(rt; !Ty::Scalar(Scalar::Ix(3)).same(&Ty::Scalar(Scalar::Ix(4))));
    Ok(())
}

#[test]
fn names_are_copied_and_compared(rt: HostRuntime) -> Result<(), Fail> {
    let alloc = rt.alloc();
    let name = Name::new(alloc, b"gps")?;
    assert_eq!(rt; name.copy(alloc)?.bytes(), b"gps".as_slice());
    assert!(rt; name.same(&name.copy(alloc)?));
    assert!(rt; !name.same(&Name::new(alloc, b"gp")?));
    let text = Text::new(alloc, b"(array 4 u8)")?;
    assert_eq!(rt; text.copy(alloc)?.bytes(), b"(array 4 u8)".as_slice());
    assert!(rt; text.same(&text.copy(alloc)?));
    assert!(rt; !text.same(&Text::new(alloc, b"")?));
    Ok(())
}

// The list of two numbers.
fn pair(alloc: Global, m: i128, n: i128) -> Result<Value, NoMemory>
    ensures { IfOk result (λ v. value_of v ≡ parts (values_of (word m ∷ word n ∷ []))) }
{
    let mut items = Items::new(alloc);
    items.push(Value::Word(m))?;
    items.push(Value::Word(n))?;
    Ok(Value::Parts(items))
}

#[test]
fn values_fit_their_types(rt: HostRuntime) -> Result<(), Fail> {
    let alloc = rt.alloc();
    let mut records = Records::new(alloc);
    let fields = two_fields(alloc, Ty::Scalar(Scalar::U8), Ty::Scalar(Scalar::I8))?;
    let fix = Ty::Rec(records.push(fields)?);
    let value = pair(alloc, 255, -128)?;
    assert!(rt; fits(&records, &fix, &value));
    assert!(rt; !fits(&records, &fix, &pair(alloc, 256, 0)?));
    assert!(rt; !fits(&records, &fix, &Value::Word(1)));
    assert!(rt; !fits(&records, &Ty::Scalar(Scalar::U8), &value));
    let pairs = Ty::array(alloc, 2, Ty::Scalar(Scalar::I16))?;
    assert!(rt; fits(&records, &pairs, &value));
    let longer = Ty::array(alloc, 3, Ty::Scalar(Scalar::I16))?;
    assert!(rt; !fits(&records, &longer, &value));
    assert!(rt; value.same(&value.copy(alloc)?));
    assert!(rt; !value.same(&pair(alloc, 255, -127)?));
    assert!(rt; !value.same(&Value::Word(255)));
    Ok(())
}

#[test]
fn values_are_flattened_and_made_again(rt: HostRuntime) -> Result<(), Fail> {
    let alloc = rt.alloc();
    let records = Records::new(alloc);
    let pairs = Ty::array(alloc, 2, Ty::Scalar(Scalar::I16))?;
    let value = unflatten(alloc, &records, &pairs, &[255, -128])?;
    assert!(rt; value.same(&pair(alloc, 255, -128)?));
    let numbers = flatten(alloc, &pair(alloc, 7, -5)?)?;
    assert_eq!(rt; numbers.as_slice(), [7i128, -5].as_slice());
    Ok(())
}
