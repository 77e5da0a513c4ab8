//! Event records, scheduling choices and orders: three texts that are read line by line.
#![tactic(auto)]

mod choices;
pub mod laws;
mod line;
mod number;
mod order;
mod record;
mod run;
mod token;
mod value;

pub use choices::{ChoiceFault, ChoiceKind, read_choices};
pub use order::{OrderFault, OrderKind, read_order};
pub use record::{RecordFault, RecordKind, read_record};
