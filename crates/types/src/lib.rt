// The types that all layers share: tags and refusals.
#![tactic(auto)]

mod carried;
mod counted;
mod refusal;
mod row;
mod tag;

pub use carried::Carried;
pub use counted::CountedRefusal;
pub use refusal::Refusal;
pub use row::RefusalRow;
pub use tag::{ApplicationTagNumber, Tag, TagNumber};
