//! The architecture of a system: what an AADL text has of it.
#![tactic(auto)]

mod view;

pub use view::{ArchView, HandlerView, ListenerView, SourceView, ViewParts};
