// The calls that a program in C or Rust makes: numbers and byte slices in, eight numbers out; and the version of these calls.
#![tactic(auto)]

mod answer;
mod body;
mod header;
mod integer;
mod kind;
mod named;
mod optional;
mod segment;
mod tag;
mod text;
mod value;
mod version;

pub use body::{thaolisem_get_tagged_body, thaolisem_get_tagged_body_for_tag, thaolisem_walk};
pub use header::{thaolisem_decode_header, thaolisem_encode_header};
pub use integer::{
    thaolisem_decode_signed, thaolisem_decode_unsigned, thaolisem_encode_context_bool,
    thaolisem_encode_enumerated, thaolisem_encode_signed, thaolisem_encode_unsigned,
};
pub use optional::thaolisem_get_optional_tagged_body;
pub use segment::thaolisem_take_segment;
pub use tag::{thaolisem_decode_tag, thaolisem_encode_tag};
pub use text::thaolisem_check_utf8;
pub use value::{thaolisem_decode_value, thaolisem_encode_value};
pub use version::thaolisem_version;
