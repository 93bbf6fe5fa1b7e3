// What a refusal carries.
use crate::tag::Tag;

// A number, which is 0 where document 01's table says 0, or the tag found.
#[derive(Clone, Copy, PartialEq, Eq)]
pub enum Carried {
    Amount(usize),
    TagFound(Tag),
}
