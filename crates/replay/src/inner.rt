// Calls of functions that are not exported, told as the exported ones tell theirs.
use crate::request::Request;
use crate::told::told;
use types::{Refusal, TagNumber};

// The eight numbers of what a reader answers.
pub(crate) fn read(request: &mut Request, room: &mut [u8]) -> Option<[u64; 8]> {
    Some(match request.name {
        "read_byte" => told(numbers::read_byte(request.bytes(room)?, request.number()?)),
        "read_bytes" => match request.number::<u8>()? {
            2 => told(numbers::read_two_bytes(request.bytes(room)?, request.number()?)),
            4 => told(numbers::read_four_bytes(request.bytes(room)?, request.number()?)),
            8 => told(numbers::read_eight_bytes(request.bytes(room)?, request.number()?)),
            _ => return None,
        },
        "read_slice" => {
            told(numbers::read_slice(request.number()?, request.bytes(room)?, request.number()?))
        }
        "decode_expected" => {
            told(tags::decode_expected(
                request.tag_number()?,
                request.bytes(room)?,
                request.number()?,
            ))
        }
        "expect_number" => {
            told(expect_number(
                request.tag_number()?,
                request.bytes(room)?,
                request.number()?,
            ))
        }
        "expect_value" => told(expect_value(
            request.number()?,
            request.bytes(room)?,
            request.number()?,
        )),
        _ => return None,
    })
}

// Reads the tag at a place and holds it to the class and number expected.
fn expect_number(expected: TagNumber, buf: &[u8], place: usize) -> Result<((), usize), Refusal> {
    let (tag, next) = tags::decode(buf, place)?;
    Ok((tags::expect_number(tag, expected)?, next))
}

// Reads the tag at a place and holds it to the value expected.
fn expect_value(expected: u32, buf: &[u8], place: usize) -> Result<((), usize), Refusal> {
    let (tag, next) = tags::decode(buf, place)?;
    Ok((tags::expect_value(tag, expected)?, next))
}

// The eight numbers of what a writer answers.
pub(crate) fn write(
    request: &mut Request,
    content: &mut [u8],
    buf: &mut [u8],
    place: usize,
) -> Option<[u64; 8]> {
    let written = match request.name {
        "push" => numbers::push(request.number()?, buf, place),
        "encode_opening_tag" => tags::encode_opening_tag(request.number()?, buf, place),
        "encode_closing_tag" => tags::encode_closing_tag(request.number()?, buf, place),
        "extend_from_slice" => numbers::extend_from_slice(request.bytes(content)?, buf, place),
        _ => return None,
    };
    Some(told(written.map(|next| ((), next))))
}
