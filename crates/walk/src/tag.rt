// Tags as the walk takes them: each with its content, and with the blocks that are open.
ghost use Rattle.std.specs.Prelude.{◌≡◌};
ghost use Rattle.types.specs.Tag.{tag_of};
ghost use Rattle.tags.specs.Reading.{paper_tag};
ghost use Rattle.walk.specs.Tag.{item_from, stands_at, tag_at, paper_tag_at};

use types::{Refusal, Tag, TagNumber};

// A tag, its depth (the blocks open around it), the place after its content, and how many blocks are open there.
#[derive(Clone, Copy)]
pub struct Accepted {
    pub tag: Tag,
    pub depth: usize,
    pub next: usize,
    pub blocks: usize,
}

// The tag at a place where so many blocks are open, with its content.
#[tactic(auto, unfolding(crate::specs::Tag::tag_at))]
pub fn tag_at(buf: &[u8], place: usize, blocks: usize) -> Result<Accepted, Refusal>
    ensures { paper_tag_at result ≡ tag_at buf.now place blocks }
{
    let (tag, next) = item_at(buf, place)?;
    stands_at(place, blocks, tag, next)
}

// The tag of the item at a place, with the place after its content.
#[tactic(auto, using(tags::proofs::Exactly::moves_on), unfolding(crate::specs::Tag::item_from))]
fn item_at(buf: &[u8], place: usize) -> Result<(Tag, usize), Refusal>
    ensures { paper_tag result ≡ item_from buf.now place }
{
    let (tag, next) = tags::decode(buf, place)?;
    let end = next + bodies::content_length(tag);
    if buf.len() < end {
        return Err(Refusal::BytesRunOut(end));
    }
    Ok((tag, end))
}

// A tag with its depth and the blocks open after it, or 15 or 16 with its place.
#[tactic(auto, unfolding(crate::specs::Tag::stands_at))]
fn stands_at(place: usize, blocks: usize, tag: Tag, next: usize) -> Result<Accepted, Refusal>
    ensures { paper_tag_at result ≡ stands_at place blocks (tag_of tag) next }
{
    match tag.number {
        TagNumber::Application(_) | TagNumber::ContextSpecific(_) => Ok(Accepted {
            tag,
            depth: blocks,
            next,
            blocks,
        }),
        TagNumber::ContextSpecificOpening(_) => if blocks < 16 {
            Ok(Accepted {
                tag,
                depth: blocks,
                next,
                blocks: blocks + 1,
            })
        } else {
            Err(Refusal::TooManyBlocksOpen(place))
        },
        TagNumber::ContextSpecificClosing(_) => if blocks == 0 {
            Err(Refusal::ClosingWithoutOpening(place))
        } else {
            Ok(Accepted {
                tag,
                depth: blocks - 1,
                next,
                blocks: blocks - 1,
            })
        },
    }
}
