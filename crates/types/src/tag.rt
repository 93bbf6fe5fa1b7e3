// Tags, by their class, number and value.
ghost use Rattle.std.specs.Prelude.{◌≡◌, ◌<◌, ◌%◌};
ghost use Rattle.types.specs.Tag.{tag, application_of, number_of, class_of, number_in, tag_of};

// The sixteen numbers of application class.
#[derive(Clone, Copy, PartialEq, Eq)]
pub enum ApplicationTagNumber {
    Null = 0,
    Boolean = 1,
    UnsignedInt = 2,
    SignedInt = 3,
    Real = 4,
    Double = 5,
    OctetString = 6,
    CharacterString = 7,
    BitString = 8,
    Enumerated = 9,
    Date = 10,
    Time = 11,
    ObjectId = 12,
    Reserve1 = 13,
    Reserve2 = 14,
    Reserve3 = 15,
}

impl ApplicationTagNumber {
    // The name that stands for the low four bits of a number; no `From<u8>`, which would hide that the others are not read.
    pub fn named(number: u8) -> Self
        ensures { application_of result ≡ number % 16 }
    {
        match number % 16 {
            0 => Self::Null,
            1 => Self::Boolean,
            2 => Self::UnsignedInt,
            3 => Self::SignedInt,
            4 => Self::Real,
            5 => Self::Double,
            6 => Self::OctetString,
            7 => Self::CharacterString,
            8 => Self::BitString,
            9 => Self::Enumerated,
            10 => Self::Date,
            11 => Self::Time,
            12 => Self::ObjectId,
            13 => Self::Reserve1,
            14 => Self::Reserve2,
            _ => Self::Reserve3,
        }
    }

    // The number that stands in a tag.
    pub fn number(self) -> u8
        ensures value { result ≡ application_of self }
        ensures upper_bound { result < 16 }
    {
        self as u8
    }
}

// A tag's class and number.
#[derive(Clone, Copy, PartialEq, Eq)]
pub enum TagNumber {
    Application(ApplicationTagNumber),
    ContextSpecific(u8),
    ContextSpecificOpening(u8),
    ContextSpecificClosing(u8),
}

impl TagNumber {
    // The class: 1 application, 2 context, 3 opening, 4 closing; a number, as C is told it.
    pub fn class(self) -> u8
        ensures { result ≡ class_of (number_of self) }
    {
        match self {
            TagNumber::Application(_) => 1,
            TagNumber::ContextSpecific(_) => 2,
            TagNumber::ContextSpecificOpening(_) => 3,
            TagNumber::ContextSpecificClosing(_) => 4,
        }
    }

    // The number that stands in a tag, whatever its class.
    pub fn number(self) -> u8
        ensures { result ≡ number_in (number_of self) }
    {
        match self {
            TagNumber::Application(name) => name.number(),
            TagNumber::ContextSpecific(number)
            | TagNumber::ContextSpecificOpening(number)
            | TagNumber::ContextSpecificClosing(number) => number,
        }
    }
}

// A tag; the value of an ordinary one is its content's length, or a Boolean's value.
#[derive(Clone, Copy, PartialEq, Eq)]
pub struct Tag {
    pub number: TagNumber,
    pub value: u32,
}

impl Tag {
    // The tag of this number and value.
    pub fn new(number: TagNumber, value: u32) -> Self
        ensures { tag_of result ≡ tag (number_of number) value }
    {
        Self { number, value }
    }
}
