// The strict walk over tags and blocks, from a place to the buffer's end: whole, or tag by tag.
#![tactic(auto)]

mod stepping;
mod tag;
mod walking;

pub use stepping::step;
pub use tag::{Accepted, tag_at};
pub use walking::walk;
