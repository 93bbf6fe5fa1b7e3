// The last line of a frame's text: that all went well, or by which refusal it ends.
ghost use Rattle.types.specs.Refusal.{table};
ghost use Rattle.text.specs.Text.{line_room};
ghost use Rattle.dump.specs.Frame.{ok_line, refused_line};
ghost use Rattle.dump.specs.Puts.{HasRoom, Puts};

use crate::frame_text::FrameText;
use types::Refusal;

impl FrameText<'_> {
    // Puts that all went well, with the number of tags.
    #[tactic(auto, unfolding(crate::specs::Frame::ok_line))]
    pub(crate) fn put_ok(&mut self, tags: usize)
        requires { HasRoom self.old line_room }
        ensures { Puts self.old self.new (ok_line self.old.number tags) line_room }
    {
        self.put_line(&[self.number], b"ok", &[tags as u64]);
    }

    // Puts a refusal's number.
    #[tactic(auto, unfolding(crate::specs::Frame::refused_line))]
    pub(crate) fn put_refused(&mut self, refusal: Refusal)
        requires { HasRoom self.old line_room }
        ensures { Puts self.old self.new (refused_line self.old.number (table refusal).number) line_room }
    {
        self.put_line(&[self.number], b"refused", &[refusal.row().number as u64]);
    }
}
