// The imports of a source: their specifiers.
ghost use Rattle.std.specs.Prelude.{length};
ghost use Rattle.tree.specs.Layout.{two};
ghost use Rattle.tree.specs.Tree.{encodes};
ghost use Rattle.tree.specs.Rows.{tree_of, fields_of};
ghost use Rattle.records.specs.Model.{gathered_of, gathered};
ghost use Rattle.records.specs.Writes.{WroteIf, RowRead, FieldsRead, PartRead, sieve, items_in, item_at, ItemRead};
ghost use Rattle.records.specs.Listing.{Charted};

use crate::literals::Wanted;
use crate::parts::{field_at, import_parts, items_from, put_specifiers};
use crate::places::Imports;
use tree::layout::literal_value;
use tree::row::{Part, Row};

// Writes the specifiers of the imports of a source: of the listed ones, and of those behind them.
pub fn put_gathered(
    work: &[u8],
    imports: Imports,
    wanted: Wanted,
    records: &mut [u8],
    o: usize,
) -> usize
    requires { Charted work.now imports }
    ensures { WroteIf (RowRead work.now 3 (length work.now))
        (encodes (sieve wanted.namespaces (gathered (two wanted.value.0) (items_in work.now)))) records.old o
        records.new result }
{
    let mut to = o;
    for pair in imports.chain(wanted.value) {
        to = put_import_at(work, pair.at, wanted, records, to);
    }
    put_imports(items_from(work, imports.behind.at), wanted, records, to)
}

// Writes those of the imports of a source among the items.
fn put_imports(items: Row, wanted: Wanted, records: &mut [u8], o: usize) -> usize
    ensures { WroteIf (FieldsRead items.entry)
        (encodes (sieve wanted.namespaces (gathered (two wanted.value.0) (fields_of items.entry)))) records.old o
        records.new result }
{
    let mut to = o;
    for item in items {
        to = put_import(item, wanted, records, to);
    }
    to
}

// Writes the specifiers of the item at `at`, if it is an import of the source.
fn put_import_at(work: &[u8], at: usize, wanted: Wanted, records: &mut [u8], o: usize) -> usize
    ensures { WroteIf (ItemRead work.now at)
        (encodes (sieve wanted.namespaces (gathered_of (two wanted.value.0) (item_at work.now at)))) records.old o
        records.new result }
{
    match field_at(work, at) {
        Some(item) => put_import(item, wanted, records, o),
        None => o,
    }
}

// Writes the specifiers of an item, if it is an import of the source.
fn put_import(item: Part, wanted: Wanted, records: &mut [u8], o: usize) -> usize
    ensures { WroteIf (PartRead item.entry)
        (encodes (sieve wanted.namespaces (gathered_of (two wanted.value.0) (tree_of item.entry)))) records.old o
        records.new result }
{
    match import_parts(item) {
        Some(parts) if literal_value(item.bytes, item.at + 3) == wanted.value.0 => {
            put_specifiers(parts, wanted.namespaces, records, o)
        }
        _ => o,
    }
}
