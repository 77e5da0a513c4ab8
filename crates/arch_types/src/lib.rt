//! The types of a file: the checked tree, or the first fault.
#![tactic(auto)]

mod check;
mod exprs;
mod fault;
mod heights;
mod high;
mod laws;
mod lent;
mod listeners;
mod outline;
mod rows;
mod scope;
mod stmts;
mod system;
mod text;
mod wanted;

pub use check::check_types;
pub use fault::{TypeFault, Want};
pub use laws::{
    checked_law, scalars_law, shallow_law, trees_are_determined, worked_file, worked_numbers,
    worked_table, worked_types,
};
