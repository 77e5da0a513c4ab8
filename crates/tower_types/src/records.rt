ghost use Rattle.std.specs.Prelude.{◌≡◌, ◌+◌, ◌<◌, ◌≤◌, ◌^◌, [], ◌∷◌, ◌++◌, All, length, Some, slice_get, IsTrue, ◌↔◌, IfOk, OnErr};
ghost use Rattle.tower_types.specs.Ty.{rec, shape_of, shape_of_fields, table_of, words, depth};
ghost use Rattle.tower_types.specs.View.{ty_of, fields_of};
ghost use Rattle.tower_types.specs.Records.{IsTypeAmong, AreOrdered, saturated};

use crate::{Name, NoMemory, Ty, depth, words};
use sqlite_items::Items;
use std::alloc::Global;
use std::marker::Model;

/// A record, with the words and the depth of its values.
#[derive(Debug, Drop)]
struct Record {
    fields: Items<(Name, Ty)>,
    words: u64,
    depth: u64,
}

/// A list of records, each a list of fields that name earlier records only.
#[derive(Debug, Drop)]
pub struct Records {
    records: Items<Record>,
}

impl Model for Records {
    ghost use Rattle.std.specs.Coded.{coded×, coded_ℕ, coded_list};
    ghost use Rattle.tower_types.specs.Ty.{Records};
    ghost use Rattle.tower_types.specs.Codes.{coded_ty};

    ghost Value = { Records };

    ghost coded = { coded_list (coded_list (coded× (coded_list coded_ℕ) coded_ty)) };

    ghost use Rattle.tower_types.specs.Records.{records_of, IsKept};

    ghost view = { λ a. records_of a.records };

    ghost invariant = { λ a. IsKept a.records };
}

impl Records {
    /// No record. It takes no memory.
    pub fn new(alloc: Global) -> Records
        ensures { result ≡ [] }
    {
        Records {
            records: Items::new(alloc),
        }
    }

    /// How many records there are.
    pub fn len(&self) -> usize
        ensures count { result ≡ length self.now }
        ensures few { length self.now ≤ 2 ^ 32 }
        ensures ordered { AreOrdered self.now }
    {
        self.records.len()
    }

    /// Whether there is no record.
    pub fn is_empty(&self) -> bool
        ensures { IsTrue result ↔ (self.now ≡ []) }
    {
        self.records.is_empty()
    }

    /// The fields of record `r`. They name earlier records, and its shape is that of their types.
    pub fn fields(&self, r: u32) -> &[(Name, Ty)]
        requires { r < length self.now }
        ensures value { slice_get self.now r ≡ Some (fields_of result.now) }
        ensures earlier { All (λ f. IsTypeAmong r f.1) (fields_of result.now) }
        ensures shape { shape_of self.now (rec r)
            ≡ shape_of_fields (table_of self.now) (fields_of result.now) }
        ensures ordered { AreOrdered self.now }
    {
        self.records.as_slice()[r as usize].fields.as_slice()
    }

    /// Adds a record with these fields, whose number is answered. After an error nothing is added.
    pub fn push(&mut self, fields: Vec<(Name, Ty)>) -> Result<u32, NoMemory>
        requires room { length self.old < 2 ^ 32 }
        requires known { All (λ f. IsTypeAmong (length self.old) f.1) (fields_of fields.items) }
        ensures ok { IfOk result (λ r.
            (r ≡ length self.old) × (self.new ≡ self.old ++ fields_of fields.items ∷ [])) }
        ensures err { OnErr result (self.new ≡ self.old) }
    {
        let number = self.records.len() as u32;
        let width = self.fields_words(fields.as_slice());
        let height = self.fields_depth(fields.as_slice());
        let fields = Items::from_vec(fields);
        self.records.push(Record {
            fields,
            words: width,
            depth: height,
        })?;
        Ok(number)
    }

    /// The words of record `r`.
    pub(crate) fn record_words(&self, r: u32) -> u64
        requires { r < length self.now }
        ensures { result ≡ saturated (words (shape_of self.now (rec r))) }
    {
        self.records.as_slice()[r as usize].words
    }

    /// The depth of record `r`.
    pub(crate) fn record_depth(&self, r: u32) -> u64
        requires { r < length self.now }
        ensures { result ≡ saturated (depth (shape_of self.now (rec r))) }
    {
        self.records.as_slice()[r as usize].depth
    }

    /// The words of a record with these fields.
    fn fields_words(&self, fields: &[(Name, Ty)]) -> u64
        requires { All (λ f. IsTypeAmong (length self.now) f.1) (fields_of fields.now) }
        ensures { result ≡ saturated (words (shape_of_fields (table_of self.now) (fields_of fields.now))) }
    {
        let mut total: u64 = 0;
        for (_, ty) in fields {
            total = total.saturating_add(words(self, ty));
        }
        total
    }

    /// The depth of a record with these fields.
    fn fields_depth(&self, fields: &[(Name, Ty)]) -> u64
        requires { All (λ f. IsTypeAmong (length self.now) f.1) (fields_of fields.now) }
        ensures { result ≡ saturated (depth (shape_of_fields (table_of self.now) (fields_of fields.now))) }
    {
        let mut deepest: u64 = 0;
        for (_, ty) in fields {
            deepest = deepest.max(depth(self, ty));
        }
        deepest.saturating_add(1)
    }
}
