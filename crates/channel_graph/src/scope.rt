//! Where the statements of a callback stand.

use std::marker::Model;
use tower_syntax::{Arch, Body, Handler};

/// A callback of a handler of a system.
#[derive(Drop)]
pub struct Scope<'a> {
    pub(crate) arch: &'a Arch,
    pub(crate) handler: &'a Handler,
    pub(crate) body: &'a Body,
}

impl<'a> Model for Scope<'a> {
    ghost use Rattle.channel_graph.specs.Site.{Site, coded_site};

    ghost Value = { Site };

    ghost coded = { coded_site };

    ghost use Rattle.tower_syntax.specs.View.{handler_of, body_of};
    ghost use Rattle.channel_graph.specs.Site.{IsSite};

    ghost view = { λ s. record { arch = s.arch.now; handler = handler_of s.handler.now; body = body_of s.body.now } };

    ghost invariant = { λ s. IsSite (record { arch = s.arch.now; handler = handler_of s.handler.now; body = body_of s.body.now }) };
}

impl<'a> Scope<'a> {
    ghost use Rattle.std.specs.Prelude.{◌≡◌};
    ghost use Rattle.tower_syntax.specs.View.{handler_of, body_of};
    ghost use Rattle.channel_graph.specs.Site.{Site, IsSite};

    /// A callback of a handler, both numbered as the system is.
    pub fn new(arch: &'a Arch, handler: &'a Handler, body: &'a Body) -> Scope<'a>
        requires { let site : Site = record { arch = arch.now; handler = handler_of handler.now; body = body_of body.now } in IsSite site }
        ensures { result ≡ record { arch = arch.now; handler = handler_of handler.now; body = body_of body.now } }
    {
        Scope {
            arch,
            handler,
            body,
        }
    }

    /// The system.
    pub fn arch(&self) -> &'a Arch
        ensures { result.now ≡ self.now.arch }
    {
        self.arch
    }
}
