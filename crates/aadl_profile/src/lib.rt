//! The AADL profile: what its texts say, in which tokens and in which lines.
#![tactic(auto)]

pub mod laws;
mod said;
mod token;

pub use said::{
    Base, Carried, Declared, Dispatch, EmitterSaid, EmittersSaid, FieldSaid, FieldsSaid, Group, Id,
    Said, ThreadSaid, TouchesSaid, TypeSaid,
};
pub use token::Token;
