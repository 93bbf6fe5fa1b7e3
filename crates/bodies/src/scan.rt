// The scan for the closing tag of a body.
ghost use Rattle.std.specs.Prelude.{◌≡◌, ◌+◌, ◌<◌, ◌≤◌, ◌^◌, length};
ghost use Rattle.types.specs.Tag.{tag_of};
ghost use Rattle.bodies.specs.Scan.{scan_step, paper_step, scan_step_after, scan_step_from, paper_body, scan_from};

use crate::body::Body;
use crate::item::{content_length, plain_length};
use types::{CountedRefusal, Refusal, Tag, TagNumber};

// What a tag means for a scan: it closes the body and ends at that place, or the scan goes on from a place, with so many openings unclosed.
#[derive(Drop)]
enum Step {
    Closed(usize),
    Onward { unclosed: usize, place: usize },
}

// What a tag that ends at `next` means for the scan of a body of that number, where so many of its openings are unclosed.
#[tactic(auto, unfolding(crate::specs::Scan::scan_step_after))]
fn step_after(number: u8, unclosed: usize, tag: Tag, next: usize) -> Step
    requires { (unclosed + 1 < 2 ^ 64) × (next + 2 ^ 32 < 2 ^ 64) }
    ensures { scan_step result ≡ scan_step_after number unclosed (tag_of tag) next }
{
    let place = next + content_length(tag);
    match tag.number {
        TagNumber::ContextSpecificOpening(n) if n == number => Step::Onward {
            unclosed: unclosed + 1,
            place,
        },
        TagNumber::ContextSpecificClosing(n) if n == number => {
            if unclosed == 0 {
                Step::Closed(next)
            } else {
                Step::Onward {
                    unclosed: unclosed - 1,
                    place,
                }
            }
        }
        _ => Step::Onward { unclosed, place },
    }
}

// What the tag at a place, which may be past the end, means for that scan.
#[tactic(auto, using(tags::proofs::Exactly::moves_on, crate::proofs::Plain::end_step, crate::proofs::Plain::plain_step), unfolding(crate::specs::Scan::scan_step_from))]
fn step_at(number: u8, unclosed: usize, buf: &[u8], place: usize) -> Result<Step, Refusal>
    requires { (unclosed + 1 < 2 ^ 64) × (length buf.now ≤ 65535) }
    ensures { paper_step result ≡ scan_step_from number unclosed buf.now place }
{
    if buf.len() <= place {
        return Err(Refusal::BytesRunOut(buf.len()));
    }
    let plain = plain_length(buf[place]);
    if 0 < plain {
        return Ok(Step::Onward {
            unclosed,
            place: place + plain,
        });
    }
    let (tag, next) = tags::decode(buf, place)?;
    Ok(step_after(number, unclosed, tag, next))
}

// Finds the closing tag of the body of that number that starts at a place, reading at most so many tags; answers where the body lies.
pub(crate) fn scan(
    number: u8,
    allowance: usize,
    buf: &[u8],
    start: usize,
) -> Result<Body, CountedRefusal>
    requires { length buf.now ≤ 65535 }
    ensures { paper_body result ≡ scan_from allowance number start 0 0 buf.now start }
{
    let mut place = start;
    let mut unclosed: usize = 0;
    for tags in 0..allowance {
        // With `map_err(..)?` the closure would hold the counter, of which the invariant then knows nothing.
        match step_at(number, unclosed, buf, place) {
            Ok(Step::Closed(next)) => {
                return Ok(Body {
                    start,
                    len: place - start,
                    number,
                    next,
                    tags: tags + 1,
                });
            }
            Ok(
                Step::Onward {
                    unclosed: open,
                    place: next,
                },
            ) => {
                unclosed = open;
                place = next;
            }
            Err(refusal) => {
                return Err(CountedRefusal { refusal, tags });
            }
        }
    }
    Err(CountedRefusal {
        refusal: Refusal::AllowanceSpent(allowance),
        tags: allowance,
    })
}
