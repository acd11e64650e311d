// Displays as the bytes around a place: 16 of them at most before it, and 32 at most from there on.
use std::fmt;
use text::hex::Bytes;

#[derive(Clone, Copy)]
pub struct Around<'a> {
    pub bytes: &'a [u8],
    pub place: usize,
}

impl fmt::Display for Around<'_> {
    fn fmt<W: fmt::Write>(&self, f: &mut fmt::Formatter<W>) -> fmt::Result {
        let Some((before, behind)) = self.bytes.split_at_checked(self.place) else {
            return Ok(());
        };
        let from = before.len().saturating_sub(16);
        let to = behind.len().min(32);
        writeln!(f, "  before it  {}", Bytes(&before[from..]))?;
        writeln!(f, "  from there {}", Bytes(&behind[..to]))
    }
}
