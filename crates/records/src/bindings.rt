// The binding ids of a pattern, left to right, as 20s without outside name.
ghost use Rattle.tree.specs.Tree.{encodes};
ghost use Rattle.tree.specs.Rows.{tree_of, fields_of};
ghost use Rattle.writer.specs.Wrote.{Wrote};
ghost use Rattle.extraction_rules.specs.First.{bindings, bindings_all, bindings_first};

use state::ident::{id_at, put_named};
use tree::row::{Part, Row};

// Writes the binding ids of a pattern.
#[cycle(put_below_put_bindings_put_left)]
pub fn put_bindings(pattern: Part, records: &mut [u8], o: usize) -> usize
    ensures { Wrote records.old o (encodes (bindings (tree_of pattern.entry))) records.new result }
{
    let Some(from) = pattern.fixed() else {
        return o;
    };
    match pattern.tag() {
        0x50 | 0x54 => put_named(records, o, id_at(pattern.bytes, pattern.at + 3)),
        0x55 => put_left(pattern.row(from), records, o),
        _ => put_below(pattern.row(from), records, o),
    }
}

// Writes those of the first of the fields.
#[cycle(put_below_put_bindings_put_left)]
fn put_left(mut row: Row, records: &mut [u8], o: usize) -> usize
    ensures { Wrote records.old o (encodes (bindings_first (fields_of row.entry))) records.new result }
{
    match row.next() {
        Some(left) => put_bindings(left, records, o),
        None => o,
    }
}

// Writes those of all fields.
#[cycle(put_below_put_bindings_put_left)]
fn put_below(row: Row, records: &mut [u8], o: usize) -> usize
    ensures { Wrote records.old o (encodes (bindings_all (fields_of row.entry))) records.new result }
{
    let mut to = o;
    for part in row {
        to = put_bindings(part, records, to);
    }
    to
}
