// Bytes and big-endian integers, read and written at a place of a buffer.
// Buffer and place are two parameters in each layer, and the new place is answered: so document 01 has it, and so C lends them.
#![tactic(auto)]

mod integer;
mod reading;
mod writing;

pub use integer::{decode_signed, decode_unsigned, signed_length, unsigned_length};
pub use reading::{
    Slice, View, part, read_byte, read_eight_bytes, read_four_bytes, read_slice, read_two_bytes,
};
pub use writing::{
    extend_from_slice, pattern, push, room, write_low_bytes, write_signed, write_unsigned,
};
