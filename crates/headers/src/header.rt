// The headers of confirmed services, by their fields.
ghost use Rattle.std.specs.Prelude.{◌≡◌, ◌≤◌, length};
ghost use Rattle.headers.specs.Header.{kind_of, header_of, field_numbers};
ghost use Rattle.types.specs.Padded.{padded};

use crate::kind::Kind;

// A header; its fields stand in the order of their bytes, and a service choice is one of `confirmed_service_choice`.
#[derive(Clone, Copy)]
pub enum Header {
    // The first two are numbers of four bits.
    ConfirmedRequest {
        max_segments: u8,
        max_adpu: u8,
        invoke_id: u8,
        service_choice: u8,
    },
    SimpleAck {
        invoke_id: u8,
        service_choice: u8,
    },
    ComplexAck {
        invoke_id: u8,
        service_choice: u8,
    },
    SegmentAck {
        invoke_id: u8,
        sequence_num: u8,
        proposed_window_size: u8,
    },
    // The last two are enumerated values.
    ConfirmedBacnetError {
        invoke_id: u8,
        service_choice: u8,
        error_class: u32,
        error_code: u32,
    },
    Reject {
        invoke_id: u8,
        reason: u8,
    },
    // The first is a bit of the control byte.
    Abort {
        server: bool,
        invoke_id: u8,
        reason: u8,
    },
}

// A header by its kind and the numbers of its fields in their order: the first `count` of four, the rest 0.
// There is no heap, so the fields stand in an array, and how many of it are the header's beside it.
#[derive(Clone, Copy)]
pub struct Description {
    pub kind: Kind,
    pub fields: [u32; 4],
    pub count: usize,
}

impl Header {
    // The header's kind and the numbers of its fields.
    pub fn described(self) -> Description
        ensures kind_value { kind_of result.kind ≡ (header_of self).kind }
        ensures fields_value { result.fields ≡ padded 4 (field_numbers (header_of self).fields) }
        ensures count_value { result.count ≡ length (field_numbers (header_of self).fields) }
        ensures count_bound { result.count ≤ 4 }
    {
        match self {
            Header::ConfirmedRequest {
                max_segments: segments,
                max_adpu: size,
                invoke_id: id,
                service_choice: choice,
            } => Description::of_bytes(Kind::Request, &[segments, size, id, choice]),
            Header::SimpleAck {
                invoke_id,
                service_choice,
            } => Description::of_bytes(Kind::Simple, &[invoke_id, service_choice]),
            Header::ComplexAck {
                invoke_id,
                service_choice,
            } => Description::of_bytes(Kind::Complex, &[invoke_id, service_choice]),
            Header::SegmentAck {
                invoke_id: id,
                sequence_num: sequence,
                proposed_window_size: window,
            } => Description::of_bytes(Kind::Segment, &[id, sequence, window]),
            Header::ConfirmedBacnetError {
                invoke_id: id,
                service_choice: choice,
                error_class: class,
                error_code: code,
            } => Description {
                kind: Kind::Error,
                fields: [u32::from(id), u32::from(choice), class, code],
                count: 4,
            },
            Header::Reject { invoke_id, reason } => {
                Description::of_bytes(Kind::Reject, &[invoke_id, reason])
            }
            Header::Abort {
                server,
                invoke_id,
                reason,
            } => Description::of_bytes(Kind::Abort, &[u8::from(server), invoke_id, reason]),
        }
    }
}

impl Description {
    // The description of a kind whose fields are bytes, four at the most.
    fn of_bytes(kind: Kind, bytes: &[u8]) -> Self
        requires { length bytes.now ≤ 4 }
        ensures { (result.kind ≡ kind) × (result.fields ≡ padded 4 bytes.now) × (result.count ≡ length bytes.now) }
    {
        let mut fields = [0; 4];
        for (i, byte) in bytes.iter().enumerate() {
            fields[i] = u32::from(*byte);
        }
        Self {
            kind,
            fields,
            count: bytes.len(),
        }
    }
}
