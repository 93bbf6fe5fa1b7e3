// Complex acknowledgements that come in segments: the parts of their frames joined in a lent buffer.
#![tactic(auto)]

mod segment;
mod state;
mod taking;

pub use state::State;
pub use taking::{Taken, take};
