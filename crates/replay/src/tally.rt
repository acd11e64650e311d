// One line: its request is answered, and the answer compared with the one that is given.
ghost use Rattle.std.specs.Prelude.{◌≡◌, ◌≢◌, ◌+◌, min};

use crate::verdicts;
use request_fields::ParseError;
use requests::respond;
use std::alloc::Global;

// Lines so far, those with a request that is not answered here, and those whose answer differs.
#[derive(Clone, Copy, Default)]
pub struct Tally {
    pub cases: u64,
    pub skipped: u64,
    pub differences: u64,
}

impl Tally {
    ghost use Rattle.replay.specs.Counts.{counted, skipped, different};

    // Replays a line without its end.
    pub fn replay(&mut self, rt: &impl Print, alloc: Global, line: &[u8])
        ensures { self.new.cases ≡ min (self.old.cases + 1) u64.MAX }
    {
        let Some(tab) = line.iter().position(|b| *b == b'\t') else {
            return self.malformed(rt, "no answer");
        };
        let expected = &line[tab + 1..];
        match respond(alloc, &line[..tab]) {
            Ok(got) => self.compare(rt, expected, got.as_bytes()),
            Err(ParseError::Unknown) => self.skip(),
            Err(ParseError::Malformed) => self.malformed(rt, "request"),
            Err(ParseError::OutOfMemory) => self.malformed(rt, "out of memory"),
        }
    }

    // A line that cannot be had whole.
    pub fn unread(&mut self, rt: &impl Print)
        ensures { self.new ≡ different self.old }
    {
        self.malformed(rt, "line too long, or reading failed");
    }

    // One line more.
    fn count(&mut self)
        ensures { self.new ≡ counted self.old }
    {
        self.cases = self.cases.saturating_add(1);
    }

    fn skip(&mut self)
        ensures { self.new ≡ skipped self.old }
    {
        self.count();
        self.skipped = self.skipped.saturating_add(1);
    }

    fn differ(&mut self)
        ensures { self.new ≡ different self.old }
    {
        self.count();
        self.differences = self.differences.saturating_add(1);
    }

    fn malformed(&mut self, rt: &impl Print, why: &str)
        ensures { self.new ≡ different self.old }
    {
        self.differ();
        verdicts::malformed(rt, self.cases, why);
    }

    fn compare(&mut self, rt: &impl Print, expected: &[u8], got: &[u8])
        ensures same { expected.now ≡ got.now → self.new ≡ counted self.old }
        ensures different { expected.now ≢ got.now → self.new ≡ different self.old }
    {
        if expected == got {
            return self.count();
        }
        self.differ();
        verdicts::difference(rt, self.cases, expected, got);
    }
}
