// The line of a tag: the frame's number, the tag's place and depth, its class, number and value.
ghost use Rattle.std.specs.Prelude.{◌<◌};
ghost use Rattle.types.specs.Tag.{tag_of};
ghost use Rattle.walk.specs.Walk.{seen};
ghost use Rattle.text.specs.Text.{line_room};
ghost use Rattle.dump.specs.Frame.{tag_line};
ghost use Rattle.dump.specs.Room.{tag_room};
ghost use Rattle.dump.specs.Puts.{HasRoom, Puts};

use crate::frame_text::FrameText;
use types::{Tag, TagNumber};

impl FrameText<'_> {
    // Puts the line of the tag that begins at a place of its frame, with so many blocks open around it.
    pub(crate) fn put_tag(&mut self, start: usize, depth: usize, tag: Tag)
        requires { (start < 10000) × (depth < 100) × HasRoom self.old line_room }
        ensures { Puts self.old self.new (tag_line self.old.number (seen start depth (tag_of tag))) tag_room }
    {
        let before = [self.number, start as u64, depth as u64];
        let value = tag.value as u64;
        let class = tag.number;
        match class {
            TagNumber::Application(n) => {
                self.put_line(&before, b"application", &[n.number() as u64, value]);
            }
            TagNumber::ContextSpecific(n) => {
                self.put_line(&before, b"context", &[n as u64, value]);
            }
            TagNumber::ContextSpecificOpening(n) => self.put_line(&before, b"open", &[n as u64]),
            TagNumber::ContextSpecificClosing(n) => self.put_line(&before, b"close", &[n as u64]),
        }
    }
}
