// Headers written at a place of a lent buffer.
ghost use Rattle.std.specs.Prelude.{◌≡◌, ◌≤◌, length};
ghost use Rattle.types.specs.Writing.{paper_written, left};
ghost use Rattle.headers.specs.declared.header.Header.TheVariants.{ConfirmedBacnetError, ConfirmedRequest};
ghost use Rattle.headers.specs.Header.{header_of};
ghost use Rattle.headers.specs.Writing.{header_to};

use crate::confirmed_service_choice::allowed;
use crate::header::Header;
use crate::kind::Kind;
use types::Refusal;
use values::{encode_application_enumerated, extend_from_slice, room, unsigned_length};

// Writes a header: a buffer too long and a place past its end are refused first, then 12 for a nibble above 15, 11 for a choice above 33.
#[tactic(auto, using(crate::proofs::Tested::untested_refused, crate::proofs::Tested::choice_unwritable, crate::proofs::Flags::flag_number), unfolding(crate::specs::Writing::header_to, crate::specs::Writing::header_bytes, types::specs::Writing::writing, types::specs::Writing::write_answer))]
pub fn encode(header: Header, buf: &mut [u8], place: usize) -> Result<usize, Refusal>
    ensures { left (paper_written result) buf.new ≡ header_to (header_of header) buf.old place }
{
    room(0, 0, buf, place)?;
    match header {
        Header::ConfirmedRequest {
            max_segments: segments,
            max_adpu: size,
            invoke_id: id,
            service_choice: choice,
        } => confirmed_request(segments, size, id, choice, buf, place),
        Header::SimpleAck {
            invoke_id: id,
            service_choice: choice,
        } => extend_from_slice(&[Kind::Simple.control(), id, allowed(choice)?], buf, place),
        Header::ComplexAck {
            invoke_id: id,
            service_choice: choice,
        } => extend_from_slice(&[Kind::Complex.control(), id, allowed(choice)?], buf, place),
        Header::SegmentAck {
            invoke_id: id,
            sequence_num: sequence,
            proposed_window_size: window,
        } => extend_from_slice(&[Kind::Segment.control(), id, sequence, window], buf, place),
        Header::ConfirmedBacnetError {
            invoke_id: id,
            service_choice: choice,
            error_class: class,
            error_code: code,
        } => error(id, allowed(choice)?, class, code, buf, place),
        Header::Reject { invoke_id, reason } => {
            extend_from_slice(&[Kind::Reject.control(), invoke_id, reason], buf, place)
        }
        Header::Abort {
            server,
            invoke_id: id,
            reason,
        } => {
            let control = Kind::Abort.control() + u8::from(server);
            extend_from_slice(&[control, id, reason], buf, place)
        }
    }
}

// Writes the header of a request, whose first two fields are numbers of four bits.
#[tactic(auto, using(crate::proofs::Tested::untested_refused, crate::proofs::Tested::choice_unwritable), unfolding(crate::specs::Writing::header_to, crate::specs::Writing::header_bytes, types::specs::Writing::writing, types::specs::Writing::write_answer))]
fn confirmed_request(
    segments: u8,
    size: u8,
    id: u8,
    choice: u8,
    buf: &mut [u8],
    place: usize,
) -> Result<usize, Refusal>
    requires { (length buf.old ≤ 65535) × (place ≤ length buf.old) }
    ensures { left (paper_written result) buf.new ≡ header_to (header_of (ConfirmedRequest segments size id choice)) buf.old place }
{
    if 15 < segments || 15 < size {
        return Err(Refusal::CannotBeWritten);
    }
    // It accepts an answer in segments, unless it allows none.
    let control = Kind::Request.control() + if segments == 0 { 0 } else { 2 };
    let sizes = segments * 16 + size;
    extend_from_slice(&[control, sizes, id, allowed(choice)?], buf, place)
}

// Writes the header of an error, whose choice may stand there: its fixed bytes, then class and code.
fn error(
    id: u8,
    choice: u8,
    class: u32,
    code: u32,
    buf: &mut [u8],
    place: usize,
) -> Result<usize, Refusal>
    requires { choice ≤ 33 }
    ensures { left (paper_written result) buf.new ≡ header_to (header_of (ConfirmedBacnetError id choice class code)) buf.old place }
{
    // A class or a code has four bytes at the most, so each has a tag of one byte.
    let len = 5 + unsigned_length(u64::from(class)) + unsigned_length(u64::from(code));
    // Room is tested for all of it before the first byte is written.
    room(0, len, buf, place)?;
    let behind = extend_from_slice(&[Kind::Error.control(), id, choice], buf, place)?;
    let next = encode_application_enumerated(class, buf, behind)?;
    encode_application_enumerated(code, buf, next)
}
