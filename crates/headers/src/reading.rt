// Headers read at a place of a buffer.
ghost use Rattle.std.specs.Prelude.{◌≡◌, [], ◌∷◌};
ghost use Rattle.headers.specs.Header.{request, segment, error, one_number, one_choice, kind_of, row_of};
ghost use Rattle.headers.specs.Reading.{fields_from, kind_from, header_from, paper_pair, paper_numbers, paper_header};

use crate::confirmed_service_choice::allowed;
use crate::header::Header;
use crate::kind::Kind;
use types::Refusal;

// The header at a place, and the place after it, where the body begins.
#[tactic(auto, using(crate::proofs::Control::after_first, crate::proofs::Control::after_no_kind), unfolding(crate::specs::Reading::header_from))]
pub fn decode(buf: &[u8], place: usize) -> Result<(Header, usize), Refusal>
    ensures { paper_header result ≡ header_from buf.now place }
{
    let (control, next) = values::read_byte(buf, place)?;
    let Some(kind) = Kind::told_by(control) else {
        return Err(Refusal::OtherPduType(control));
    };
    following(kind, control, buf, next)
}

// The header of a kind, from behind its control byte on.
fn following(kind: Kind, control: u8, buf: &[u8], place: usize) -> Result<(Header, usize), Refusal>
    ensures { paper_header result ≡ kind_from (kind_of kind) ((row_of (kind_of kind)).held control) buf.now place }
{
    match kind {
        Kind::Request => confirmed_request(buf, place),
        Kind::Simple => {
            let ((invoke_id, service_choice), next) = id_and_choice(buf, place)?;
            let header = Header::SimpleAck {
                invoke_id,
                service_choice,
            };
            Ok((header, next))
        }
        Kind::Complex => {
            let ((invoke_id, service_choice), next) = id_and_choice(buf, place)?;
            let header = Header::ComplexAck {
                invoke_id,
                service_choice,
            };
            Ok((header, next))
        }
        Kind::Segment => segment_ack(buf, place),
        Kind::Error => error(buf, place),
        Kind::Reject => {
            let ((invoke_id, reason), next) = two_bytes(buf, place)?;
            Ok((Header::Reject { invoke_id, reason }, next))
        }
        Kind::Abort => {
            let server = control % 2 == 1;
            let ((invoke_id, reason), next) = two_bytes(buf, place)?;
            let header = Header::Abort {
                server,
                invoke_id,
                reason,
            };
            Ok((header, next))
        }
    }
}

// The request, from behind its control byte on.
fn confirmed_request(buf: &[u8], place: usize) -> Result<(Header, usize), Refusal>
    ensures { paper_header result ≡ kind_from request [] buf.now place }
{
    let (sizes, second) = values::read_byte(buf, place)?;
    let ((invoke_id, service_choice), next) = id_and_choice(buf, second)?;
    let header = Header::ConfirmedRequest {
        max_segments: sizes / 16,
        max_adpu: sizes % 16,
        invoke_id,
        service_choice,
    };
    Ok((header, next))
}

// The segment acknowledgement, from behind its control byte on.
fn segment_ack(buf: &[u8], place: usize) -> Result<(Header, usize), Refusal>
    ensures { paper_header result ≡ kind_from segment [] buf.now place }
{
    let ((invoke_id, sequence_num), third) = two_bytes(buf, place)?;
    let (proposed_window_size, next) = values::read_byte(buf, third)?;
    let header = Header::SegmentAck {
        invoke_id,
        sequence_num,
        proposed_window_size,
    };
    Ok((header, next))
}

// The error, from behind its control byte on.
fn error(buf: &[u8], place: usize) -> Result<(Header, usize), Refusal>
    ensures { paper_header result ≡ kind_from error [] buf.now place }
{
    let ((invoke_id, service_choice), class) = id_and_choice(buf, place)?;
    let (error_class, code) = values::decode_application_enumerated(buf, class)?;
    let (error_code, next) = values::decode_application_enumerated(buf, code)?;
    let header = Header::ConfirmedBacnetError {
        invoke_id,
        service_choice,
        error_class,
        error_code,
    };
    Ok((header, next))
}

// An invoke id and the service choice behind it.
fn id_and_choice(buf: &[u8], place: usize) -> Result<((u8, u8), usize), Refusal>
    ensures { paper_pair result ≡ fields_from (one_number ∷ one_choice ∷ []) buf.now place }
{
    let ((invoke_id, choice), next) = two_bytes(buf, place)?;
    Ok(((invoke_id, allowed(choice)?), next))
}

// Two bytes, one behind the other.
fn two_bytes(buf: &[u8], place: usize) -> Result<((u8, u8), usize), Refusal>
    ensures { paper_numbers result ≡ fields_from (one_number ∷ one_number ∷ []) buf.now place }
{
    let (first, second) = values::read_byte(buf, place)?;
    let (last, next) = values::read_byte(buf, second)?;
    Ok(((first, last), next))
}
