// Application values: the twelve cases, read and written at a place of a buffer.
#![tactic(auto)]

mod bits;
mod date;
mod enumerated;
mod integer;
mod object_id;
mod octets;
mod reading;
mod real;
mod text;
mod time;
mod value;
mod writing;

pub use date::Date;
pub use enumerated::decode_application_enumerated;
pub use object_id::ObjectId;
pub use reading::decode;
pub use real::{double_bits, double_of, real_bits, real_of};
pub use time::Time;
pub use value::ApplicationDataValue;
pub use writing::encode;

// Single bytes are read, room is tested, and slices and enumerated values are written, by the layers below: handed on to the layer above.
pub use numbers::{room, unsigned_length};
pub use tags::{encode_application_enumerated, extend_from_slice, read_byte};
