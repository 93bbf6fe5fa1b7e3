// The line of a header: the frame's number, the header's kind and its fields in order.
ghost use Rattle.headers.specs.Header.{header_of};
ghost use Rattle.text.specs.Text.{line_room};
ghost use Rattle.dump.specs.Frame.{header_line};
ghost use Rattle.dump.specs.Puts.{HasRoom, Puts};

use crate::frame_text::FrameText;
use headers::Header;

impl FrameText<'_> {
    // Puts the line of a header.
    pub(crate) fn put_header(&mut self, header: Header)
        requires { HasRoom self.old line_room }
        ensures { Puts self.old self.new (header_line self.old.number (header_of header)) line_room }
    {
        let description = header.described();
        let word = description.kind.row().word;
        let fields = description.fields.map(u64::from);
        self.put_line(&[self.number], word, &fields[..description.count]);
    }
}
