//! The types of places, step by step. None of it takes memory.

ghost use Rattle.std.specs.Prelude.{◌≡◌, ℕ, length, IfOk};
ghost use Rattle.tower_types.specs.Ty.{words};
ghost use Rattle.tower_types.specs.Records.{saturated};
ghost use Rattle.tower_syntax.specs.Weights.{shape_at, root_shape};
ghost use Rattle.channel_graph.specs.Site.{scope_at};
ghost use Rattle.channel_graph.specs.Scoped.{part_shape};
ghost use Rattle.stmt_code.specs.Layout.{field_offset};
ghost use Rattle.stmt_code.specs.Measured.{AreRecordStarts};

use crate::measured::Starts;
use channel_graph::{Scope, part_type, type_words};
use std::marker::Model;
use tower_syntax::{Arch, PlaceStep, Root};
use tower_types::{NoMemory, Ty};

/// A type of a system, or none where a place has no such part. Contracts see its shape.
#[derive(Drop)]
pub(crate) struct Part<'a> {
    arch: &'a Arch,
    records: &'a [Starts],
    ty: Option<&'a Ty>,
}

impl<'a> Model for Part<'a> {
    ghost use Rattle.tower_types.specs.Ty.{Shape};
    ghost use Rattle.stmt_code.specs.Codes.{coded_shape};

    ghost Value = { Shape };

    ghost coded = { coded_shape };

    ghost use Rattle.std.specs.Prelude.{length};
    ghost use Rattle.std.specs.Option.{option_map};
    ghost use Rattle.tower_types.specs.View.{ty_of};
    ghost use Rattle.stmt_code.specs.There.{shape_there, IsKnown};
    ghost use Rattle.stmt_code.specs.Measured.{AreRecordStarts};

    ghost view = { λ p. shape_there p.arch.now (option_map (λ t. ty_of t.now) p.ty) };

    ghost invariant = { λ p. IsKnown p.arch.now (option_map (λ t. ty_of t.now) p.ty)
        × AreRecordStarts p.arch.now (length p.arch.now.records) p.records.now };
}

/// A weight that is no `u32` is told as want of memory: no system that is accepted has as many words.
pub(crate) fn counted(weight: u64) -> Result<u32, NoMemory>
    ensures { (n : ℕ) → weight ≡ saturated n → IfOk result (λ k. k ≡ n) }
{
    if weight > u64::from(u32::MAX) {
        return Err(NoMemory);
    }
    Ok(weight as u32)
}

impl<'a> Part<'a> {
    /// What a place begins at.
    pub(crate) fn root(scope: &Scope<'a>, records: &'a [Starts], root: Root) -> Part<'a>
        requires { AreRecordStarts scope.now.arch (length scope.now.arch.records) records.now }
        ensures { result ≡ root_shape (scope_at scope.now) root }
    {
        let arch = scope.arch();
        let ty = scope.root_type(root);
        Part { arch, records, ty }
    }

    /// The messages on an emitter of the handler.
    pub(crate) fn message(scope: &Scope<'a>, records: &'a [Starts], k: u32) -> Part<'a>
        requires { AreRecordStarts scope.now.arch (length scope.now.arch.records) records.now }
        ensures { result ≡ shape_at (scope_at scope.now).emitters k }
    {
        let arch = scope.arch();
        let ty = scope.emitter_type(k);
        Part { arch, records, ty }
    }

    /// A field or an element.
    pub(crate) fn step(&self, step: &PlaceStep) -> Part<'a>
        ensures { result ≡ part_shape step.now self.now }
    {
        let arch = self.arch;
        let records = self.records;
        let ty = match self.ty {
            Some(whole) => part_type(arch, whole, step),
            None => None,
        };
        Part { arch, records, ty }
    }

    /// How many words it has.
    pub(crate) fn words(&self) -> Result<u32, NoMemory>
        ensures { IfOk result (λ n. n ≡ words self.now) }
    {
        match self.ty {
            Some(ty) => counted(type_words(self.arch, ty)),
            None => Ok(0),
        }
    }
    /// The words before field `k`.
    pub(crate) fn field_start(&self, k: u32) -> u32
        ensures { result ≡ field_offset k self.now }
    {
        match self.ty {
            Some(Ty::Rec(r)) => self.records[*r as usize].at(k),
            Some(Ty::Scalar(_)) | Some(Ty::Array(_, _)) => 0,
            None => 0,
        }
    }
}
