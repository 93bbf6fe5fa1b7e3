// The body between an opening tag and its closing tag, found with an allowance of tags.
#![tactic(auto)]

mod body;
mod item;
mod optional;
mod scan;
mod tagged;

pub use body::Body;
pub use item::content_length;
pub use optional::{OptionalBody, get_optional_tagged_body};
pub use tagged::{get_tagged_body, get_tagged_body_for_tag};

// A body's view is a part of the buffer, handed over by the layer below.
pub use numbers::{View, part};
