// The strict walk: an item is plain or a block, and a block is a list of items between its own two tags of one number.
// Stack: no more than sixteen blocks are open, so no more than seventeen calls of `walk_list` are under way at once, each with one of `walk_item`,
// whatever the input; docs/DECISIONS.md has how many bytes that makes.
ghost use Rattle.std.specs.Prelude.{◌≡◌, ◌≤◌, ◌<◌, length};
ghost use Rattle.walk.specs.Walk.{walk_from, reported, paper_walked};
ghost use Rattle.walk.specs.Nested.{Countable, close_block, ItemSays, ListSays};

use crate::tag::{Accepted, tag_at};
use types::{CountedRefusal, Refusal, TagNumber};

// Where the walk of a list ended: at the buffer's end, or at a closing tag, with its place, number and the place after it.
#[derive(Drop)]
enum ListEnd {
    Buffer {
        tags: usize,
    },
    Closing {
        place: usize,
        number: u8,
        next: usize,
        tags: usize,
    },
}

// Where the walk of an item ended: at the place after it, or at a closing tag where an item was to begin.
#[derive(Drop)]
enum ItemEnd {
    Next { place: usize, tags: usize },
    Closing { number: u8, next: usize },
}

// The strict walk from a place to the buffer's end: how many tags it accepts.
#[tactic(auto, using(crate::proofs::Nested::walk_long, crate::proofs::Nested::walk_past, crate::proofs::Nested::walk_by))]
pub fn walk(buf: &[u8], place: usize) -> Result<usize, CountedRefusal>
    ensures { paper_walked result ≡ reported (walk_from buf.now place) }
{
    if 65535 < buf.len() {
        return Err(Refusal::BufferTooLong(buf.len()).into());
    }
    if buf.len() < place {
        return Err(Refusal::PlacePastEnd(place).into());
    }
    match walk_list(buf, place, 0, 0)? {
        ListEnd::Buffer { tags } => Ok(tags),
        ListEnd::Closing {
            place: closing,
            tags,
            ..
        } => Err(CountedRefusal {
            refusal: Refusal::ClosingWithoutOpening(closing),
            tags,
        }),
    }
}

// The walk of a list of items, where so many blocks are open and so many tags were accepted before.
#[cycle(walk_item_walk_list)]
#[tactic(auto, using(crate::proofs::Nested::now_first, crate::proofs::Nested::list_next, crate::proofs::Nested::list_closing, crate::proofs::Nested::list_refused))]
fn walk_list(
    buf: &[u8],
    start: usize,
    blocks: usize,
    before: usize,
) -> Result<ListEnd, CountedRefusal>
    requires { (start ≤ length buf.now) × (before ≤ start) }
    ensures { ListSays buf.now start blocks before result }
{
    let mut place = start;
    let mut tags = before;
    // No `for`: how far the place moves is known only behind the item there.
    while place < buf.len() {
        match walk_item(buf, place, blocks, tags)? {
            ItemEnd::Next { place: p, tags: t } => {
                place = p;
                tags = t;
            }
            ItemEnd::Closing { number, next } => {
                return Ok(ListEnd::Closing {
                    place,
                    number,
                    next,
                    tags,
                });
            }
        }
    }
    Ok(ListEnd::Buffer { tags })
}

// The walk of an item, a block with all its items, where so many blocks are open and so many tags were accepted before.
#[cycle(walk_item_walk_list)]
#[tactic(auto, using(crate::proofs::Nested::tag_inside, crate::proofs::Nested::countable))]
fn walk_item(
    buf: &[u8],
    place: usize,
    blocks: usize,
    tags: usize,
) -> Result<ItemEnd, CountedRefusal>
    requires { (place < length buf.now) × (tags ≤ place) }
    ensures { ItemSays buf.now place blocks tags result }
{
    match tag_at(buf, place, blocks) {
        Ok(
            Accepted {
                tag,
                next,
                blocks: inside,
                ..
            },
        ) => match tag.number {
            TagNumber::Application(_) | TagNumber::ContextSpecific(_) => Ok(ItemEnd::Next {
                place: next,
                tags: tags + 1,
            }),
            TagNumber::ContextSpecificOpening(n) => {
                let list = walk_list(buf, next, inside, tags + 1)?;
                close_block(n, buf.len(), list)
            }
            TagNumber::ContextSpecificClosing(number) => Ok(ItemEnd::Closing { number, next }),
        },
        Err(refusal) => Err(CountedRefusal { refusal, tags }),
    }
}

// What a block of that number came to, by where the walk of the list behind its opening tag ended, in a buffer with that end.
fn close_block(number: u8, end: usize, list: ListEnd) -> Result<ItemEnd, CountedRefusal>
    requires { Countable list }
    ensures { result ≡ close_block number end list }
{
    match list {
        ListEnd::Buffer { tags } => Err(CountedRefusal {
            refusal: Refusal::BytesRunOut(end),
            tags,
        }),
        ListEnd::Closing {
            place,
            number: n,
            next,
            tags,
        } => if n == number {
            Ok(ItemEnd::Next {
                place: next,
                tags: tags + 1,
            })
        } else {
            Err(CountedRefusal {
                refusal: Refusal::ClosingWithoutOpening(place),
                tags,
            })
        },
    }
}
