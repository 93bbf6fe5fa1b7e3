// Answers a line.
use crate::held::Held;
use crate::request::Request;
use crate::told::{refused, told};
use crate::{exported, inner};

// The most characters of a line.
pub(crate) const LONGEST_LINE: usize = 140000;

// The most bytes that are lent.
pub(crate) const MOST_LENT: usize = 70000;

// Room for what a call is lent: bytes that it reads, and a buffer that it writes.
#[derive(Drop)]
pub(crate) struct Lent {
    pub content: [u8; MOST_LENT],
    pub buf: [u8; MOST_LENT],
}

// What a request is answered.
#[derive(Clone, Copy)]
pub(crate) enum Answer<'a> {
    // The eight numbers.
    Numbers([u64; 8]),
    // The eight numbers, and the buffer that was written or the part that was handed over.
    WithBytes([u64; 8], &'a [u8]),
    // The eight numbers, the state then, and the buffer that was written.
    WithState([u64; 8], [u64; 8], &'a [u8]),
}

impl Answer<'_> {
    // Puts the text of the answer.
    pub(crate) fn put<const N: usize>(&self, text: &mut Held<N>) {
        match self {
            Answer::Numbers(numbers) => text.put_numbers(numbers, b' '),
            Answer::WithBytes(numbers, bytes) => {
                text.put_numbers(numbers, b' ');
                text.put_bytes(bytes);
            }
            Answer::WithState(numbers, state, buf) => {
                text.put_numbers(numbers, b' ');
                text.push(b' ');
                text.put_numbers(state, b',');
                text.put_bytes(buf);
            }
        }
    }
}

// What a line is answered; none where it is no request.
pub(crate) fn answer_to<'a>(line: &[u8], lent: &'a mut Lent) -> Option<Answer<'a>> {
    if line.len() > LONGEST_LINE {
        return None;
    }
    let mut request = Request::of(std::str::from_utf8(line).ok()?)?;
    let answer = call(&mut request, lent)?;
    request.is_over().then_some(answer)
}

// What the function that is asked for answers. Each group of functions answers none for a name that is not among them.
fn call<'a>(request: &mut Request, lent: &'a mut Lent) -> Option<Answer<'a>> {
    let Lent { content, buf } = lent;
    match request.name {
        "part" => part(request, content),
        "take_segment" => take_segment(request, content, buf),
        _ => match read(request, content) {
            Some(numbers) => Some(Answer::Numbers(numbers)),
            None => write(request, content, buf),
        },
    }
}

// What a reader answers.
fn read(request: &mut Request, content: &mut [u8]) -> Option<[u64; 8]> {
    exported::read(request, content).or_else(|| inner::read(request, content))
}

// What a writer answers.
fn write<'a>(request: &mut Request, content: &mut [u8], room: &'a mut [u8]) -> Option<Answer<'a>> {
    let (buf, place) = request.lent_and_place(room)?;
    let numbers = exported::write(request, content, buf, place).or_else(|| inner::write(
        request, content, buf, place,
    ))?;
    Some(Answer::WithBytes(numbers, buf))
}

// What the call for a part of a buffer answers, and the part, of no bytes where it is refused.
fn part<'a>(request: &mut Request, room: &'a mut [u8]) -> Option<Answer<'a>> {
    let len = request.number()?;
    let buf = request.bytes(room)?;
    let place = request.number()?;
    Some(match numbers::part(len, buf, place) {
        Ok((view, next)) => Answer::WithBytes(told(Ok((view.slice, next))), view.bytes),
        Err(refusal) => Answer::WithBytes(refused(refusal), &[]),
    })
}

// What the call that takes a frame of an answer in segments answers, which writes into two that are lent: a state and a buffer.
fn take_segment<'a>(
    request: &mut Request,
    content: &mut [u8],
    room: &'a mut [u8],
) -> Option<Answer<'a>> {
    let mut state = request.eight()?;
    let frame = request.bytes(content)?;
    let buf = request.lent(room)?;
    let mut answer = [0; 8];
    thaolisem::thaolisem_take_segment(&mut state, frame, buf, &mut answer);
    Some(Answer::WithState(answer, state, buf))
}
