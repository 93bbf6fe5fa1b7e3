// The text that apdu-dump prints for a line of hexadecimal.
#![tactic(auto)]

mod frame;
mod frame_text;
mod header_line;
mod line;
mod outcome_line;
mod tag_line;

pub use line::{LinePut, TEXT_ROOM, put_line};
