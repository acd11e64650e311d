// Lazy records and forced sources.
ghost use Rattle.tree.specs.Tree.{field, encode, encodes};
ghost use Rattle.writer.specs.Wrote.{Wrote};
ghost use Rattle.extraction_rules.specs.Records.{record_fields, forced_fields};
ghost use Rattle.state.specs.Cells.{Good};
ghost use Rattle.records.specs.Writes.{placed, literal_in, Placing, WroteFor};

use crate::bindings::put_bindings;
use crate::literals::{put_literal, tree_with};
use crate::parts::field_at;
use state::{Literal, Tables};

// Writes the lazy records.
pub fn put_lazies(tree: &[u8], work: &[u8], t: &Tables, records: &mut [u8], o: usize) -> usize
    ensures { WroteFor (Placing tree.now work.now) (λ s. encodes (record_fields 0x81 s.lazy)) t.now.cells records.old o records.new result }
{
    let mut to = o;
    for i in 0..t.count_lazies() {
        let literal = t.lazy_literal(i);
        let place = t.lazy_place(i);
        to = put_lazy(tree, work, literal, place, records, to);
    }
    to
}

// Writes the lazy record of a literal, with the binding ids of the pattern at its place.
fn put_lazy(
    tree: &[u8],
    work: &[u8],
    literal: Literal,
    place: u32,
    records: &mut [u8],
    o: usize,
) -> usize
    ensures { Wrote records.old o
        (encode (field 0x81 (literal_in tree.now work.now literal.place) (placed tree.now work.now place)))
        records.new result }
{
    let content = writer::open_field(records, o, 0x81);
    let c = put_literal(tree, work, literal.place, records, content);
    let p = put_placed(tree, work, place, records, c);
    writer::close_field(records, o, p);
    p
}

// Writes the binding ids of the pattern at a place, none for 0.
fn put_placed(tree: &[u8], work: &[u8], place: u32, records: &mut [u8], o: usize) -> usize
    ensures { Wrote records.old o (encodes (placed tree.now work.now place)) records.new result }
{
    if place == 0 {
        return o;
    }
    let (s, at) = tree_with(tree, work, place);
    match field_at(s, at) {
        Some(pattern) => put_bindings(pattern, records, o),
        None => o,
    }
}

// Writes the forced sources, first forced first.
pub fn put_forced(t: &Tables, records: &mut [u8], o: usize) -> usize
    ensures { WroteFor (λ _. Unit {0}) (λ s. encodes (forced_fields s.forced)) t.now.cells records.old o records.new result }
{
    let mut to = o;
    for i in 0..t.count_forced() {
        let source = writer::open_field(records, to, 0x83);
        let p = writer::put_u16(records, source, t.forced_at(i).0);
        writer::close_field(records, to, p);
        to = p;
    }
    to
}
