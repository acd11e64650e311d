// Where the imports stand in the trees after both passes: listed in one sweep over the items, and chained by their source modulo 2048, so
// that a record finds its own without a look at all items. Atoms are 16 bits wide, so at most 32 sources share a chain.
ghost use Rattle.std.specs.Prelude.{◌≡◌, true, [], ◌∷◌, ◌++◌, ◌+◌, ◌%◌, ◌≤◌, ◌<◌, length, get_or, take};
ghost use Rattle.records.specs.Listing.{chain_at, places_in, Unchained, Lists, Linked};

use scope::id::Atom;
use tree::access::extent;
use tree::layout::literal_value;

// Where the items of a module start.
const ITEMS: usize = 3;

// How many chains there are.
pub const CHAINS: usize = 2048;

// How many imports there is room for: a tree of 32,768 bytes has no more.
pub const ROOM: usize = 3641;

// An item of `work`, and the one of `out` that it pairs off with.
#[derive(Clone, Copy)]
pub struct Pair {
    pub at: usize,
    pub made: usize,
}

// A listed import: its places in both trees, and the number of the next one of its chain.
#[derive(Clone, Copy)]
pub struct Import {
    at: u16,
    made: u16,
    next: u16,
}

impl Import {
    // What stands where none is listed yet.
    pub const NONE: Import = Import {
        at: 0,
        made: 0,
        next: 0,
    };
}

// A sweep over the items of both trees: how many imports it listed, and where the items behind them start.
#[derive(Clone, Copy)]
pub struct Swept {
    pub count: usize,
    pub behind: Pair,
}

// Lists the imports of `work`, each with the item of `out` that it pairs off with. Ends where either tree does, or where the list is full.
pub fn list_imports(work: &[u8], out: &[u8], listed: &mut [Import; ROOM]) -> Swept
    ensures { (result.count ≤ 3641) × Lists work.now out.now (take result.count listed.new) result.behind.at result.behind.made }
{
    if has_places(work) && has_places(out) {
        return sweep(work, out, listed);
    }
    Swept {
        count: 0,
        behind: Pair {
            at: ITEMS,
            made: ITEMS,
        },
    }
}

// Whether a tree has items, and all of them at places below 65536.
fn has_places(s: &[u8]) -> bool
    ensures { result ≡ true → (3 ≤ length s.now) × (length s.now ≤ 65536) }
{
    ITEMS <= s.len() && s.len() <= 65536
}

// The sweep over trees that have places.
fn sweep(work: &[u8], out: &[u8], listed: &mut [Import; ROOM]) -> Swept
    requires { (3 ≤ length work.now) × (length work.now ≤ 65536) × (3 ≤ length out.now) × (length out.now ≤ 65536) }
    ensures { (result.count ≤ 3641) × Lists work.now out.now (take result.count listed.new) result.behind.at result.behind.made }
{
    let mut count = 0;
    let mut at = ITEMS;
    let mut made = ITEMS;
    while count < ROOM {
        let Some(stop) = extent(work, at, work.len()) else {
            break;
        };
        let Some(until) = extent(out, made, out.len()) else {
            break;
        };
        if work[at] == 0x10 {
            listed[count] = Import {
                at: at as u16,
                made: made as u16,
                next: 0,
            };
            count += 1;
        }
        at = stop;
        made = until;
    }
    Swept {
        count,
        behind: Pair { at, made },
    }
}

// Chains the listed imports, the last first. A number that no import has ends a chain.
pub fn link_imports(work: &[u8], first: &mut [u16; CHAINS], listed: &mut [Import])
    requires { Unchained first.old × (length listed.old ≤ 3641) }
    ensures { Linked work.now first.new listed.new 0 × (places_in listed.new ≡ places_in listed.old) }
{
    for i in (0..listed.len()).rev() {
        let chain = chain_of(work, listed[i].at);
        listed[i].next = first[chain];
        first[chain] = i as u16;
    }
}

// The chain of the import at a place.
fn chain_of(work: &[u8], place: u16) -> usize
    ensures { (result ≡ chain_at work.now place) × (result < 2048) }
{
    let at = usize::from(place);
    if work.len() < at + 9 {
        return 0;
    }
    usize::from(literal_value(work, at + 3)) % CHAINS
}

// The listed imports, with the first one of each chain, and where the items behind them start.
#[derive(Clone, Copy)]
pub struct Imports<'a> {
    pub first: &'a [u16; CHAINS],
    pub listed: &'a [Import],
    pub behind: Pair,
}

impl<'a> Imports<'a> {
    // The imports of the chain of a source.
    pub fn chain(&self, source: Atom) -> Chain<'a>
        ensures { (result.listed.now ≡ self.now.listed.now) × (result.next ≡ get_or self.now.first.now (source.0 % 2048) 0) }
    {
        Chain {
            listed: self.listed,
            next: usize::from(self.first[usize::from(source.0) % CHAINS]),
        }
    }
}

// The imports of a chain from one on.
#[derive(Clone, Copy)]
pub struct Chain<'a> {
    listed: &'a [Import],
    next: usize,
}

impl Iterator for Chain<'_> {
    ghost use Rattle.std.specs.Prelude.{◌-◌};
    ghost use Rattle.std.specs.Iterator.{at_most};
    ghost use Rattle.records.specs.Listing.{LeadsOn, GivesNext};

    type Item = Pair;

    // Each link leads to a later import, so a chain ends.
    ghost can_next = { λ s. LeadsOn s.listed.now };

    ghost next_gives = { GivesNext };

    ghost remaining = { λ s. at_most (length s.listed.now - s.next) };

    fn next(&mut self) -> Option<Pair> {
        let import = self.listed.get(self.next)?;
        self.next = usize::from(import.next);
        Some(Pair {
            at: usize::from(import.at),
            made: usize::from(import.made),
        })
    }
}
