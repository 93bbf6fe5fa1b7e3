// The kinds of headers, with what is known of each in one row.
ghost use Rattle.std.specs.Prelude.{◌≡◌, ◌*◌, ◌<◌};
ghost use Rattle.std.specs.Option.{option_map};
ghost use Rattle.headers.specs.Header.{kinds, row_of, kind_of};
ghost use Rattle.headers.specs.Reading.{first_told};

// A kind of header: by number, the type of PDU as it stands in a control byte's high nibble.
#[derive(Clone, Copy)]
pub enum Kind {
    Request = 0,
    Simple = 2,
    Complex = 3,
    Segment = 4,
    Error = 5,
    Reject = 6,
    Abort = 7,
}

// What is known of a kind: its type of PDU by number, whether tags follow its header, and its word.
#[derive(Clone, Copy)]
pub struct KindRow {
    pub number: u8,
    pub tagged: bool,
    pub word: &'static [u8],
}

impl Kind {
    // The kind's row.
    pub fn row(self) -> KindRow
        ensures number_value { result.number ≡ (row_of (kind_of self)).pdu_type }
        ensures tagged_value { result.tagged ≡ (row_of (kind_of self)).walks }
        ensures word_value { result.word.now ≡ (row_of (kind_of self)).word }
    {
        let word: &'static [u8] = match self {
            Kind::Request => b"request",
            Kind::Simple => b"simple",
            Kind::Complex => b"complex",
            Kind::Segment => b"segment",
            Kind::Error => b"error",
            Kind::Reject => b"reject",
            Kind::Abort => b"abort",
        };
        KindRow {
            number: self as u8,
            tagged: matches!(self, Kind::Request | Kind::Complex),
            word,
        }
    }

    // The kind that a control byte tells: none by another type, or where it says that a request or a complex acknowledgement is a segment.
    pub(crate) fn told_by(control: u8) -> Option<Kind>
        ensures { option_map kind_of result ≡ first_told kinds control }
    {
        let segmented = control / 8 % 2 == 1;
        match control / 16 {
            0 if !segmented => Some(Kind::Request),
            2 => Some(Kind::Simple),
            3 if !segmented => Some(Kind::Complex),
            4 => Some(Kind::Segment),
            5 => Some(Kind::Error),
            6 => Some(Kind::Reject),
            7 => Some(Kind::Abort),
            _ => None,
        }
    }

    // A control byte of the kind, with its low nibble 0.
    pub(crate) fn control(self) -> u8
        ensures value { result ≡ (row_of (kind_of self)).pdu_type * 16 }
        ensures upper_bound { result < 113 }
    {
        self as u8 * 16
    }
}
