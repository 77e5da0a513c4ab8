//! The types of names and places, and their words. None of it takes memory.

ghost use Rattle.std.specs.Prelude.{◌≡◌, length, MatchOption};
ghost use Rattle.tower_types.specs.Ty.{words};
ghost use Rattle.tower_types.specs.View.{ty_of};
ghost use Rattle.tower_types.specs.Records.{saturated};
ghost use Rattle.tower_syntax.specs.View.{place_of};
ghost use Rattle.tower_syntax.specs.Weights.{no_shape, shape_at, root_shape, place_shape};
ghost use Rattle.tower_syntax.specs.WellNumbered.{IsNumberedType};
ghost use Rattle.channel_graph.specs.Site.{scope_at};
ghost use Rattle.channel_graph.specs.Scoped.{HasShape, shape_by, part_shape};

use crate::scope::Scope;
use crate::size::type_words;
use tower_syntax::{Arch, On, Place, PlaceStep, Root};
use tower_types::Ty;

/// The type of a field or element.
pub fn part_type<'a>(arch: &'a Arch, ty: &'a Ty, step: &PlaceStep) -> Option<&'a Ty>
    requires { IsNumberedType (length arch.now.records) (ty_of ty.now) }
    ensures { MatchOption result
        (part_shape step.now (shape_by arch.now (ty_of ty.now)) ≡ no_shape)
        (λ t. HasShape arch.now (part_shape step.now (shape_by arch.now (ty_of ty.now))) (ty_of t.now)) }
{
    let records = arch.records();
    match step {
        PlaceStep::Field(k) => match ty {
            Ty::Rec(r) => match records.fields(*r).get(*k as usize) {
                Some((_, field)) => Some(field),
                None => None,
            },
            Ty::Scalar(_) | Ty::Array(_, _) => None,
        },
        PlaceStep::At(_) => match ty {
            Ty::Array(_, element) => Some(element.get()),
            Ty::Scalar(_) | Ty::Rec(_) => None,
        },
    }
}

impl<'a> Scope<'a> {
    /// The type of the callback's message.
    fn message_type(&self) -> &'a Ty
        ensures { HasShape self.now.arch (scope_at self.now).message (ty_of result.now) }
    {
        match self.handler.on {
            On::Source(s) => &self.arch.source(s).message,
            On::Channel(c) => &self.arch.channel(c).message,
        }
    }

    /// The type of a name that the callback binds.
    fn binder_type(&self, k: u32) -> Option<&'a Ty>
        ensures { MatchOption result
            (shape_at (scope_at self.now).binders k ≡ no_shape)
            (λ t. HasShape self.now.arch (shape_at (scope_at self.now).binders k) (ty_of t.now)) }
    {
        match self.body.binders.as_slice().get(k as usize) {
            Some((_, ty)) => Some(ty),
            None => None,
        }
    }

    /// The type of a state of the handler's monitor.
    fn state_type(&self, k: u32) -> Option<&'a Ty>
        ensures { MatchOption result
            (shape_at (scope_at self.now).states k ≡ no_shape)
            (λ t. HasShape self.now.arch (shape_at (scope_at self.now).states k) (ty_of t.now)) }
    {
        let monitor = self.arch.monitor(self.handler.monitor);
        match monitor.states.as_slice().get(k as usize) {
            Some((_, ty)) => Some(ty),
            None => None,
        }
    }

    /// The type of the messages on an emitter of the handler.
    pub fn emitter_type(&self, k: u32) -> Option<&'a Ty>
        ensures { MatchOption result
            (shape_at (scope_at self.now).emitters k ≡ no_shape)
            (λ t. HasShape self.now.arch (shape_at (scope_at self.now).emitters k) (ty_of t.now)) }
    {
        match self.handler.emitters.as_slice().get(k as usize) {
            Some(emitter) => Some(&self.arch.channel(emitter.channel).message),
            None => None,
        }
    }

    /// The type that a place begins at.
    pub fn root_type(&self, root: Root) -> Option<&'a Ty>
        ensures { MatchOption result
            (root_shape (scope_at self.now) root ≡ no_shape)
            (λ t. HasShape self.now.arch (root_shape (scope_at self.now) root) (ty_of t.now)) }
    {
        match root {
            Root::Param => Some(self.message_type()),
            Root::Binder(k) => self.binder_type(k),
            Root::State(k) => self.state_type(k),
        }
    }

    /// The type of a place.
    fn place_type(&self, p: &Place) -> Option<&'a Ty>
        ensures { MatchOption result
            (place_shape (scope_at self.now) (place_of p.now) ≡ no_shape)
            (λ t. HasShape self.now.arch (place_shape (scope_at self.now) (place_of p.now)) (ty_of t.now)) }
    {
        let mut ty = self.root_type(p.root)?;
        for step in p.steps.as_slice() {
            ty = part_type(self.arch, ty, step)?;
        }
        Some(ty)
    }

    /// The words of a name that the callback binds.
    pub(crate) fn binder_words(&self, k: u32) -> u64
        ensures { result ≡ saturated (words (shape_at (scope_at self.now).binders k)) }
    {
        match self.binder_type(k) {
            Some(ty) => type_words(self.arch, ty),
            None => 0,
        }
    }

    /// The words of a place.
    pub(crate) fn place_words(&self, p: &Place) -> u64
        ensures { result ≡ saturated (words (place_shape (scope_at self.now) (place_of p.now))) }
    {
        match self.place_type(p) {
            Some(ty) => type_words(self.arch, ty),
            None => 0,
        }
    }
}
