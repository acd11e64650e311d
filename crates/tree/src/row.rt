// Fields where they stand: one with its bytes and its two places, and the fields that stand in a row.
ghost use Rattle.std.specs.Prelude.{◌≡◌, ◌+◌, ◌≤◌, length, get_or};
ghost use Rattle.tree.specs.Layout.{Bytes};
ghost use Rattle.tree.specs.Access.{fixed_at};

use crate::access::{extent, fixed};

// A field that stands in bytes, from its tag on up to its end. That bytes are below 256 is said of those in a struct, as proofs have it of a slice.
#[derive(Clone, Copy)]
pub struct Part<'a> {
    pub bytes: &'a [u8],
    pub at: usize,
    pub stop: usize,
    ghost whole: { (at + 3 ≤ stop) × (stop ≤ length bytes.now) },
    ghost of_bytes: { Bytes bytes.now },
}

impl<'a> Part<'a> {
    // Of any bytes: that these are below 256 is known of a parameter.
    pub fn new(bytes: &'a [u8], at: usize, stop: usize) -> Part<'a>
        requires { (at + 3 ≤ stop) × (stop ≤ length bytes.now) }
        ensures { (result.bytes.now ≡ bytes.now) × (result.at ≡ at) × (result.stop ≡ stop) }
    {
        Part { bytes, at, stop }
    }

    pub fn tag(&self) -> u8
        ensures { result ≡ get_or self.now.bytes.now self.now.at 0 }
    {
        self.bytes[self.at]
    }

    // Where its fixed bytes end: its parts start there.
    pub fn fixed(&self) -> Option<usize>
        ensures { result ≡ fixed_at self.now.bytes.now (get_or self.now.bytes.now self.now.at 0) (self.now.at + 3) self.now.stop }
    {
        fixed(self.bytes, self.tag(), self.at + 3, self.stop)
    }

    // What stands in it from a place on.
    pub fn row(&self, from: usize) -> Row<'a>
        requires { from ≤ self.now.stop }
        ensures { (result.bytes.now ≡ self.now.bytes.now) × (result.at ≡ from) × (result.end ≡ self.now.stop) }
    {
        Row::new(self.bytes, from, self.stop)
    }
}

// The fields of bytes from a place on up to an end. It ends before a field that is not whole.
#[derive(Clone, Copy)]
pub struct Row<'a> {
    pub bytes: &'a [u8],
    pub at: usize,
    pub end: usize,
    ghost inside: { (at ≤ end) × (end ≤ length bytes.now) },
    ghost of_bytes: { Bytes bytes.now },
}

impl<'a> Row<'a> {
    pub fn new(bytes: &'a [u8], at: usize, end: usize) -> Row<'a>
        requires { (at ≤ end) × (end ≤ length bytes.now) }
        ensures { (result.bytes.now ≡ bytes.now) × (result.at ≡ at) × (result.end ≡ end) }
    {
        Row { bytes, at, end }
    }
}

impl<'a> Iterator for Row<'a> {
    ghost use Rattle.std.specs.Prelude.{◌-◌};
    ghost use Rattle.std.specs.Iterator.{at_most};
    ghost use Rattle.tree.specs.Rows.{GivesPart};

    type Item = Part<'a>;

    ghost next_gives = { GivesPart };

    ghost remaining = { λ r. at_most (r.end - r.at) };

    fn next(&mut self) -> Option<Part<'a>> {
        let at = self.at;
        let stop = extent(self.bytes, at, self.end)?;
        self.at = stop;
        Some(Part {
            bytes: self.bytes,
            at,
            stop,
        })
    }
}
