//! The lines at the end of a report.

ghost use Rattle.std.specs.Prelude.{◌≡◌, ◌==◌, ◌+◌, ◌*◌, ◌≤◌, length};
ghost use Rattle.std.specs.List.{list_all};
ghost use Rattle.report_text.specs.EndParts.{disk_line, end_line, fault_line, frame_line, frames_line, sector_line, sector_text, too_long_line, unreadable_line};
ghost use Rattle.report_text.specs.Text.{Added};

use crate::text::{LINE_SPARE, SHORT_SPARE, Text};

/// Whether all bytes are zeros.
fn is_zero(bytes: &[u8]) -> bool
    ensures { result ≡ list_all (λ b. b == 0) bytes.now }
{
    bytes.iter().all(|byte| *byte == 0)
}

impl Text {
    /// Adds the line of how many frames were sent.
    pub fn frames(&mut self, count: u64)
        requires { SHORT_SPARE ≤ self.old.spare }
        ensures added { Added self.old self.new (frames_line count) }
        ensures spare { self.old.spare ≤ self.new.spare + SHORT_SPARE }
    {
        self.named_number("frames", count);
        self.text("\n");
    }

    /// Adds the line of a sent frame. It needs two spare bytes for each byte, beside those for a short line.
    pub fn frame(&mut self, bytes: &[u8])
        requires { SHORT_SPARE + 2 * length bytes.now ≤ self.old.spare }
        ensures added { Added self.old self.new (frame_line bytes.now) }
        ensures spare { self.old.spare ≤ self.new.spare + SHORT_SPARE + 2 * length bytes.now }
    {
        self.named_hex("frame", bytes);
        self.text("\n");
    }

    /// Adds the line of how many sectors the disk has.
    pub fn disk(&mut self, count: u64)
        requires { SHORT_SPARE ≤ self.old.spare }
        ensures added { Added self.old self.new (disk_line count) }
        ensures spare { self.old.spare ≤ self.new.spare + SHORT_SPARE }
    {
        self.named_number("disk", count);
        self.text("\n");
    }

    /// Adds the line of a sector, where it isn't all zeros.
    pub fn sector(&mut self, n: u64, bytes: &[u8; 512])
        requires { LINE_SPARE ≤ self.old.spare }
        ensures added { Added self.old self.new (sector_text n bytes.now) }
        ensures spare { self.old.spare ≤ self.new.spare + LINE_SPARE }
    {
        if is_zero(bytes) {
            return;
        }
        self.named_number("sector", n);
        self.hex_word(bytes);
        self.text("\n");
    }

    /// Adds the line of a sector that can't be read.
    pub fn unreadable(&mut self, n: u64)
        requires { SHORT_SPARE ≤ self.old.spare }
        ensures added { Added self.old self.new (unreadable_line n) }
        ensures spare { self.old.spare ≤ self.new.spare + SHORT_SPARE }
    {
        self.named_number("sector", n);
        self.text(" unreadable\n");
    }

    /// Adds the line after all end parts.
    pub fn end(&mut self)
        requires { SHORT_SPARE ≤ self.old.spare }
        ensures added { Added self.old self.new end_line }
        ensures spare { self.old.spare ≤ self.new.spare + SHORT_SPARE }
    {
        self.text("end\n");
    }

    /// Adds the line of a script's line that is not in the grammar: its number.
    pub fn fault(&mut self, line: u32)
        requires { SHORT_SPARE ≤ self.old.spare }
        ensures added { Added self.old self.new (fault_line line) }
        ensures spare { self.old.spare ≤ self.new.spare + SHORT_SPARE }
    {
        self.named_number("fault", line as u64);
        self.text("\n");
    }

    /// Adds the line of a script with too many bytes.
    pub fn too_long(&mut self)
        requires { SHORT_SPARE ≤ self.old.spare }
        ensures added { Added self.old self.new too_long_line }
        ensures spare { self.old.spare ≤ self.new.spare + SHORT_SPARE }
    {
        self.text("too long\n");
    }
}
