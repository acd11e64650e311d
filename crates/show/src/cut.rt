// The line of a field is written up to a length. What has no room is left out.
ghost use Rattle.std.specs.Prelude.{◌≡◌, ◌-◌, length};
ghost use Rattle.show.specs.Cut.{PassesOn};

use std::fmt;

// How many bytes a line may have, without its end.
const LONGEST: usize = 4096;

// Passes on to `out` what there is room for.
#[derive(Drop)]
pub struct Line<'a, W> {
    out: &'a mut fmt::Formatter<W>,
    room: usize,
}

impl<'a, W: fmt::Write> Line<'a, W> {
    pub fn new(out: &'a mut fmt::Formatter<W>) -> Self
        ensures room { result.room ≡ 4096 }
    {
        Line { out, room: LONGEST }
    }
}

impl<W: fmt::Write> fmt::Write for Line<'_, W> {
    fn write_str(&mut self, s: &str) -> fmt::Result
        ensures room { self.new.room ≡ self.old.room - length s.now }
        ensures passes { PassesOn W.write_str_gives self.old.room s.now self.old.out.now result self.new.out.now }
    {
        let kept = s.floor_char_boundary(self.room);
        self.room = self.room.saturating_sub(s.len());
        self.out.write_str(&s[..kept])
    }
}
