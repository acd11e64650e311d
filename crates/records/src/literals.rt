// Literals by their places: their bytes are read off the trees.
ghost use Rattle.std.specs.Prelude.{◌≡◌, ◌≢◌, ◌+◌, ◌≤◌, length};
ghost use Rattle.tree.specs.Layout.{same_literal, literal_at, literal_width};
ghost use Rattle.writer.specs.Wrote.{Wrote};
ghost use Rattle.records.specs.Writes.{literal_on, literal_in, pattern_at, placed};

use scope::id::Atom;
use tree::layout::LITERAL;

// Places from this one on are in the tree after the first pass.
const IN_WORK: u32 = 65536;

// What a record is written for: its literal, by value and place, and whether it keeps namespaces.
#[derive(Clone, Copy)]
pub struct Wanted {
    pub value: Atom,
    pub place: u32,
    pub namespaces: bool,
}

// The tree that a place is in, and where it is in that tree.
pub fn tree_with<'a>(tree: &'a [u8], work: &'a [u8], place: u32) -> (&'a [u8], usize)
    ensures literal { literal_in tree.now work.now place ≡ literal_on result.0.now result.1 }
    ensures inside { result.1 ≤ place }
    ensures pattern { place ≢ 0 → placed tree.now work.now place ≡ pattern_at result.0.now result.1 }
{
    if place < IN_WORK {
        (tree, place as usize)
    } else {
        (work, (place - IN_WORK) as usize)
    }
}

// The bytes of the literal at a place, none where no literal stands.
fn literal<'a>(tree: &'a [u8], work: &'a [u8], place: u32) -> &'a [u8]
    ensures { result.now ≡ literal_in tree.now work.now place }
{
    let (s, at) = tree_with(tree, work, place);
    s.get(at..at + LITERAL).unwrap_or_default()
}

// Writes the literal at a place.
pub fn put_literal(tree: &[u8], work: &[u8], place: u32, records: &mut [u8], o: usize) -> usize
    ensures { Wrote records.old o (literal_in tree.now work.now place) records.new result }
{
    writer::put_all(records, o, literal(tree, work, place))
}

// Whether the literal at `at` of `work` is that at a place.
pub fn same_literal(tree: &[u8], work: &[u8], place: u32, at: usize) -> bool
    requires { at + literal_width ≤ length work.now }
    ensures { result ≡ same_literal (literal_at work.now at) (literal_in tree.now work.now place) }
{
    &work[at..at + LITERAL] == literal(tree, work, place)
}
