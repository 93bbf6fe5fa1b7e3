// The headers that a PDU type and its fields name.
ghost use Rattle.std.specs.Prelude.{◌≡◌};
ghost use Rattle.thaolisem.specs.Header.{paper_header_named, request_named, acknowledgement_named, segment_named, error_named, reject_named, abort_named, header_named};

use headers::Header;

// The header that a PDU type and its fields name; a field that the type has not is not read.
pub(crate) fn header_named(kind: u8, a: u64, b: u64, c: u64, d: u64) -> Option<Header>
    ensures { paper_header_named result ≡ header_named kind a b c d }
{
    match kind {
        0 => request_named(a, b, c, d),
        4 => segment_named(a, b, c),
        5 => error_named(a, b, c, d),
        6 => reject_named(a, b),
        7 => abort_named(a, b, c),
        _ => acknowledgement_named(kind, a, b),
    }
}

// The request of so many segments, of a size, an invoke id and a service choice.
fn request_named(segments: u64, size: u64, id: u64, choice: u64) -> Option<Header>
    ensures { paper_header_named result ≡ request_named segments size id choice }
{
    Some(Header::ConfirmedRequest {
        max_segments: u8::try_from(segments).ok()?,
        max_adpu: u8::try_from(size).ok()?,
        invoke_id: u8::try_from(id).ok()?,
        service_choice: u8::try_from(choice).ok()?,
    })
}

// The simple or complex acknowledgement of an invoke id and a service choice.
fn acknowledgement_named(kind: u8, id: u64, choice: u64) -> Option<Header>
    ensures { paper_header_named result ≡ acknowledgement_named kind id choice }
{
    let invoke_id = u8::try_from(id).ok()?;
    let service_choice = u8::try_from(choice).ok()?;
    match kind {
        2 => Some(Header::SimpleAck {
            invoke_id,
            service_choice,
        }),
        3 => Some(Header::ComplexAck {
            invoke_id,
            service_choice,
        }),
        _ => None,
    }
}

// The segment acknowledgement of an invoke id, a sequence number and a window size.
fn segment_named(id: u64, sequence: u64, window: u64) -> Option<Header>
    ensures { paper_header_named result ≡ segment_named id sequence window }
{
    Some(Header::SegmentAck {
        invoke_id: u8::try_from(id).ok()?,
        sequence_num: u8::try_from(sequence).ok()?,
        proposed_window_size: u8::try_from(window).ok()?,
    })
}

// The error of an invoke id, a service choice, a class and a code.
fn error_named(id: u64, choice: u64, class: u64, code: u64) -> Option<Header>
    ensures { paper_header_named result ≡ error_named id choice class code }
{
    Some(Header::ConfirmedBacnetError {
        invoke_id: u8::try_from(id).ok()?,
        service_choice: u8::try_from(choice).ok()?,
        error_class: u32::try_from(class).ok()?,
        error_code: u32::try_from(code).ok()?,
    })
}

// The reject of an invoke id and a reason.
fn reject_named(id: u64, reason: u64) -> Option<Header>
    ensures { paper_header_named result ≡ reject_named id reason }
{
    Some(Header::Reject {
        invoke_id: u8::try_from(id).ok()?,
        reason: u8::try_from(reason).ok()?,
    })
}

// The abort of a server or a client, of an invoke id and a reason.
fn abort_named(server: u64, id: u64, cause: u64) -> Option<Header>
    ensures { paper_header_named result ≡ abort_named server id cause }
{
    if 1 < server {
        return None;
    }
    Some(Header::Abort {
        server: server == 1,
        invoke_id: u8::try_from(id).ok()?,
        reason: u8::try_from(cause).ok()?,
    })
}
