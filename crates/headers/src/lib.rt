// The headers of confirmed services, read and written.
#![tactic(auto)]

pub mod confirmed_service_choice;
mod header;
mod kind;
mod reading;
mod writing;

pub use confirmed_service_choice::service_choices;
pub use header::{Description, Header};
pub use kind::{Kind, KindRow};
pub use reading::decode;
pub use writing::encode;
