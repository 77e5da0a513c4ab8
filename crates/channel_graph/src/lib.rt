//! Who hears whom in a system: subscribers, what a source reaches, the cycle that is shown, the longest walk. And the
//! weights of its text: how many messages a handler may emit and which emitter is over its bound, what a message of a
//! source costs, and what the memory and the code weigh.
#![tactic(auto)]

mod bounds;
mod channels;
mod circuit;
mod code_weight;
mod counting;
mod delivery;
mod depths;
pub mod laws;
mod levels;
mod links;
mod listening;
mod longest;
mod looping;
mod marked;
mod ranking;
mod reach;
mod rough;
mod scope;
mod section;
mod settled;
mod shapes;
mod size;
mod weight;

pub use bounds::{Over, first_over};
pub use circuit::{CycleFound, cycle};
pub use code_weight::code;
pub use counting::most;
pub use delivery::costs;
pub use listening::subscribers;
pub use longest::chain;
pub use reach::reached;
pub use scope::Scope;
pub use shapes::part_type;
pub use size::{memory, type_words, words_on};
