// Calls of the exported functions.
use crate::request::Request;

// The eight numbers that a reader answers.
pub(crate) fn read(request: &mut Request, room: &mut [u8]) -> Option<[u64; 8]> {
    let mut answer = [0; 8];
    match request.name {
        "decode_tag" => {
            thaolisem::thaolisem_decode_tag(request.bytes(room)?, request.number()?, &mut answer);
        }
        "decode_unsigned" => thaolisem::thaolisem_decode_unsigned(
            request.number()?,
            request.bytes(room)?,
            request.number()?,
            &mut answer,
        ),
        "decode_signed" => thaolisem::thaolisem_decode_signed(
            request.number()?,
            request.bytes(room)?,
            request.number()?,
            &mut answer,
        ),
        "walk" => thaolisem::thaolisem_walk(request.bytes(room)?, request.number()?, &mut answer),
        "decode_value" => {
            thaolisem::thaolisem_decode_value(request.bytes(room)?, request.number()?, &mut answer);
        }
        "decode_header" => {
            thaolisem::thaolisem_decode_header(
                request.bytes(room)?,
                request.number()?,
                &mut answer,
            );
        }
        "check_utf8" => thaolisem::thaolisem_check_utf8(request.bytes(room)?, &mut answer),
        _ => return read_body(request, room),
    }
    Some(answer)
}

// Those of a reader of bodies.
fn read_body(request: &mut Request, room: &mut [u8]) -> Option<[u64; 8]> {
    let mut answer = [0; 8];
    match request.name {
        "get_tagged_body" => thaolisem::thaolisem_get_tagged_body(
            request.number()?,
            request.bytes(room)?,
            request.number()?,
            &mut answer,
        ),
        "get_tagged_body_for_tag" => thaolisem::thaolisem_get_tagged_body_for_tag(
            request.number()?,
            request.number()?,
            request.bytes(room)?,
            request.number()?,
            &mut answer,
        ),
        "get_optional_tagged_body" => thaolisem::thaolisem_get_optional_tagged_body(
            request.number()?,
            request.number()?,
            request.bytes(room)?,
            request.number()?,
            &mut answer,
        ),
        _ => return None,
    }
    Some(answer)
}

// The eight numbers that a writer answers.
pub(crate) fn write(
    request: &mut Request,
    content: &mut [u8],
    buf: &mut [u8],
    place: usize,
) -> Option<[u64; 8]> {
    let mut answer = [0; 8];
    match request.name {
        "encode_tag" => thaolisem::thaolisem_encode_tag(
            request.number()?,
            request.number()?,
            request.number()?,
            buf,
            place,
            &mut answer,
        ),
        "encode_value" => thaolisem::thaolisem_encode_value(
            request.number()?,
            request.number()?,
            request.number()?,
            request.number()?,
            request.number()?,
            request.bytes(content)?,
            buf,
            place,
            &mut answer,
        ),
        "encode_header" => thaolisem::thaolisem_encode_header(
            request.number()?,
            request.number()?,
            request.number()?,
            request.number()?,
            request.number()?,
            buf,
            place,
            &mut answer,
        ),
        _ => return write_integer(request, buf, place),
    }
    Some(answer)
}

// Those of a writer of integers or of a Boolean under a context tag.
fn write_integer(request: &mut Request, buf: &mut [u8], place: usize) -> Option<[u64; 8]> {
    let mut answer = [0; 8];
    match request.name {
        "encode_unsigned" => thaolisem::thaolisem_encode_unsigned(
            request.number()?,
            request.number()?,
            request.number()?,
            buf,
            place,
            &mut answer,
        ),
        "encode_signed" => thaolisem::thaolisem_encode_signed(
            request.number()?,
            request.number()?,
            request.number()?,
            buf,
            place,
            &mut answer,
        ),
        "encode_enumerated" => thaolisem::thaolisem_encode_enumerated(
            request.number()?,
            request.number()?,
            request.number()?,
            buf,
            place,
            &mut answer,
        ),
        "encode_context_bool" => thaolisem::thaolisem_encode_context_bool(
            request.number()?,
            request.number()?,
            buf,
            place,
            &mut answer,
        ),
        _ => return None,
    }
    Some(answer)
}
