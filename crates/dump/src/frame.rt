// The text of a frame: its header's line, the lines of its tags, and the outcome.
ghost use Rattle.std.specs.Prelude.{◌+◌, ◌*◌, ◌≤◌, ◌≡◌, length};
ghost use Rattle.headers.specs.Header.{header_of, row_of};
ghost use Rattle.walk.specs.Walk.{walk_from};
ghost use Rattle.lines.specs.Hexadecimal.{most_bytes};
ghost use Rattle.dump.specs.Frame.{walk_text, frame_text};
ghost use Rattle.dump.specs.Room.{text_room, tag_room, walk_room};
ghost use Rattle.dump.specs.Puts.{HasRoom, Puts, AllButOutcome};

use crate::frame_text::FrameText;
use headers::Header;
use types::Refusal;

impl FrameText<'_> {
    // Puts the text of a frame.
    pub(crate) fn put_frame(&mut self, frame: &[u8])
        requires { (length frame.now ≤ most_bytes) × HasRoom self.old text_room }
        ensures { Puts self.old self.new (frame_text self.old.number frame.now) text_room }
    {
        match headers::decode(frame, 0) {
            Ok((header, body)) => {
                self.put_header(header);
                if has_tags(header) {
                    self.put_walk(frame, body);
                } else {
                    self.put_ok(0);
                }
            }
            Err(refusal) => self.put_refused(refusal),
        }
    }

    // Puts the lines of the tags that the walk from a place accepts, and the walk's outcome.
    fn put_walk(&mut self, frame: &[u8], body: usize)
        requires { (length frame.now ≤ most_bytes) × (body ≤ length frame.now) × HasRoom self.old walk_room }
        ensures { Puts self.old self.new (walk_text self.old.number (walk_from frame.now body)) walk_room }
    {
        match self.put_tags(frame, body) {
            Ok(tags) => self.put_ok(tags),
            Err(refusal) => self.put_refused(refusal),
        }
    }

    // Puts the line of each tag that the walk from a place accepts, as it is accepted, and answers how many there are.
    fn put_tags(&mut self, frame: &[u8], body: usize) -> Result<usize, Refusal>
        requires { (length frame.now ≤ most_bytes) × (body ≤ length frame.now) × HasRoom self.old walk_room }
        ensures { AllButOutcome self.old self.new (walk_from frame.now body) result (tag_room * most_bytes) }
    {
        let mut numbers = [0; 16];
        let mut blocks = 0;
        let mut start = body;
        let mut tags = 0;
        // Each step is asked where the one before ended, which no iterator of the library's does.
        while let Some(accepted) = walk::step(frame, start, blocks, &mut numbers)? {
            self.put_tag(start, accepted.depth, accepted.tag);
            start = accepted.next;
            blocks = accepted.blocks;
            tags += 1;
        }
        Ok(tags)
    }
}

// Whether tags follow a header.
fn has_tags(header: Header) -> bool
    ensures { result ≡ (row_of (header_of header).kind).walks }
{
    header.described().kind.row().tagged
}
