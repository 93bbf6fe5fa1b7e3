// Lines of hexadecimal, as they are read piece by piece: the frame at a place, and what is kept of a line that has not ended.
#![tactic(auto)]

mod hexadecimal;
mod kept;
mod line;

pub use hexadecimal::MOST_BYTES;
pub use kept::keep;
pub use line::{Line, line_at};
