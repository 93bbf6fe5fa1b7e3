// Refusals: why a call gives no value.
ghost use Rattle.std.specs.Prelude.{◌≡◌};
ghost use Rattle.types.specs.Refusal.{table, paper_row};

use crate::row::RefusalRow;
use crate::tag::Tag;

// The refusals of documents 01 and 02, in the order of their numbers: when each is given, and what it carries.
#[derive(Clone, Copy, PartialEq, Eq)]
pub enum Refusal {
    // The buffer, or the lent content, is longer than 65,535 bytes: its length.
    BufferTooLong(usize),
    // The place lies past the buffer's end: the place.
    PlacePastEnd(usize),
    // The buffer ends before what is read: its end for a single byte, else the place where the bytes should have ended.
    BytesRunOut(usize),
    // The tag has another class or number than the one expected: the tag found.
    OtherTagNumber(Tag),
    // The tag has another value than the one expected: the tag found.
    OtherTagValue(Tag),
    // No opening tag stands where a body is asked for: the tag found.
    NoOpeningTag(Tag),
    // The content has a length that its kind does not allow: the length.
    LengthNotAllowed(u32),
    // A tag that no value has stands where a value is asked for: the tag found.
    NotAValueTag(Tag),
    // The text's character set is not 0: the set.
    OtherCharacterSet(u8),
    // The text is not UTF-8: the first bad place, from the text's start.
    TextNotUtf8(usize),
    // The service choice is above 33: the choice.
    ServiceChoiceTooLarge(u8),
    // What is to be written has no bytes that stand for it: 0.
    CannotBeWritten,
    // The buffer has no room for the whole write: the length of the whole write.
    NoRoom(usize),
    // As many tags as allowed are read and the body has not ended: the tags read.
    AllowanceSpent(usize),
    // A walk meets a closing tag that does not close the innermost open block: the tag's place.
    ClosingWithoutOpening(usize),
    // A walk meets an opening tag while sixteen blocks are open: the tag's place.
    TooManyBlocksOpen(usize),
    // The PDU type is another one, or its segment bit is set: the control byte.
    OtherPduType(u8),
    // The enumerated value is above 4,294,967,295: 0.
    EnumeratedTooLarge,
    // The program's line has another character, an odd number of digits or too many: 0.
    LineNotHexadecimal,
    // The window of a segment is 0 or above 127: 0.
    WindowNotAllowed,
    // The segment has another invoke id or service choice than the first one: 0.
    OtherIdOrChoice,
    // The segment has another sequence number than the one due: 0.
    OtherSequence,
    // The last segment was taken already: 0.
    AlreadyFinished,
}

impl Refusal {
    // The refusal's number, and what it carries: 0 where the table says 0.
    pub fn row(self) -> RefusalRow
        ensures { paper_row result ≡ table self }
    {
        match self {
            // First, for the compiler, which spares the first arm a jump: bytes run out most often.
            Refusal::BytesRunOut(end) => RefusalRow::of_amount(3, end),
            Refusal::BufferTooLong(length) => RefusalRow::of_amount(1, length),
            Refusal::PlacePastEnd(place) => RefusalRow::of_amount(2, place),
            Refusal::OtherTagNumber(found) => RefusalRow::of_tag(4, found),
            Refusal::OtherTagValue(found) => RefusalRow::of_tag(5, found),
            Refusal::NoOpeningTag(found) => RefusalRow::of_tag(6, found),
            Refusal::LengthNotAllowed(length) => RefusalRow::of_amount(7, length as usize),
            Refusal::NotAValueTag(found) => RefusalRow::of_tag(8, found),
            Refusal::OtherCharacterSet(set) => RefusalRow::of_amount(9, set as usize),
            Refusal::TextNotUtf8(place) => RefusalRow::of_amount(10, place),
            Refusal::ServiceChoiceTooLarge(choice) => RefusalRow::of_amount(11, choice as usize),
            Refusal::CannotBeWritten => RefusalRow::of_amount(12, 0),
            Refusal::NoRoom(length) => RefusalRow::of_amount(13, length),
            Refusal::AllowanceSpent(tags) => RefusalRow::of_amount(14, tags),
            Refusal::ClosingWithoutOpening(place) => RefusalRow::of_amount(15, place),
            Refusal::TooManyBlocksOpen(place) => RefusalRow::of_amount(16, place),
            Refusal::OtherPduType(control) => RefusalRow::of_amount(17, control as usize),
            Refusal::EnumeratedTooLarge => RefusalRow::of_amount(18, 0),
            Refusal::LineNotHexadecimal => RefusalRow::of_amount(19, 0),
            Refusal::WindowNotAllowed => RefusalRow::of_amount(24, 0),
            Refusal::OtherIdOrChoice => RefusalRow::of_amount(25, 0),
            Refusal::OtherSequence => RefusalRow::of_amount(26, 0),
            Refusal::AlreadyFinished => RefusalRow::of_amount(27, 0),
        }
    }
}
