// Tags, read, expected and written, and what is written under one tag: integers, booleans and the tags of a block.
#![tactic(auto)]

mod block;
mod header;
mod integer;
mod item;
mod reading;
mod short;
mod writing;

pub use block::{encode_closing_tag, encode_context_bool, encode_opening_tag};
pub use integer::{
    encode_application_enumerated, encode_application_signed, encode_application_unsigned,
    encode_context_enumerated, encode_context_unsigned, encode_enumerated, encode_signed,
    encode_unsigned,
};
pub use item::{encode_item, encode_low_bytes};
pub use reading::{decode, decode_expected, expect_number, expect_value};
pub use writing::{begin, encode};

// What stands under a tag is read, and written behind it, by the layer below: handed on to the layer above.
pub use numbers::{
    decode_signed, decode_unsigned, extend_from_slice, read_byte, read_eight_bytes,
    read_four_bytes, read_slice,
};
