ghost use Rattle.std.specs.Prelude.{◌≡◌, ◌↔◌, IsTrue, IfOk};
ghost use Rattle.tower_types.specs.View.{value_of, all_values_of};

use crate::NoMemory;
use sqlite_items::Items;
use std::alloc::Global;

/// A value: a number at a scalar, and a list of values at an array or a record.
#[derive(Debug, Drop)]
pub enum Value {
    Word(i128),
    Parts(Items<Value>),
}

impl Value {
    /// Another value equal to this one.
    #[cycle(copy)]
    pub fn copy(&self, alloc: Global) -> Result<Value, NoMemory>
        ensures { IfOk result (λ v. value_of v ≡ value_of self.now) }
    {
        match self {
            Value::Word(n) => Ok(Value::Word(*n)),
            Value::Parts(parts) => Ok(Value::Parts(copy_all(alloc, parts.as_slice())?)),
        }
    }

    /// Whether two values are the same.
    #[cycle(same)]
    pub fn same(&self, other: &Value) -> bool
        ensures { IsTrue result ↔ (value_of self.now ≡ value_of other.now) }
    {
        match (self, other) {
            (Value::Word(m), Value::Word(n)) => *m == *n,
            (Value::Parts(xs), Value::Parts(ys)) => same_all(xs.as_slice(), ys.as_slice()),
            _ => false,
        }
    }
}

#[cycle(copy)]
fn copy_all(alloc: Global, parts: &[Value]) -> Result<Items<Value>, NoMemory>
    ensures { IfOk result (λ vs. all_values_of vs ≡ all_values_of parts.now) }
{
    let mut copies = Items::new(alloc);
    for part in parts {
        let copy = part.copy(alloc)?;
        copies.push(copy)?;
    }
    Ok(copies)
}

#[cycle(same)]
fn same_all(xs: &[Value], ys: &[Value]) -> bool
    ensures { IsTrue result ↔ (all_values_of xs.now ≡ all_values_of ys.now) }
{
    if xs.len() != ys.len() {
        return false;
    }
    for (i, x) in xs.iter().enumerate() {
        if !x.same(&ys[i]) {
            return false;
        }
    }
    true
}
