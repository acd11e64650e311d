// The namespace imports with a literal: what the second pass made of them. The items of both trees pair off in order.
ghost use Rattle.std.specs.Prelude.{◌≡◌, length};
ghost use Rattle.tree.specs.Tree.{encodes};
ghost use Rattle.tree.specs.Rows.{tree_of, fields_of};
ghost use Rattle.records.specs.Model.{whole_of, taken_of, taken};
ghost use Rattle.records.specs.Writes.{WroteIf, RowRead, FieldsRead, PartRead, sieve, named_parts, items_in, item_at, ItemRead, literal_in, Valued};
ghost use Rattle.records.specs.Listing.{ChartedBoth};

use crate::literals::{Wanted, same_literal};
use crate::parts::{
    field_at, import_parts, is_namespace, items_from, put_specifiers, starts_named,
};
use crate::places::{Imports, Pair};
use tree::row::{Part, Row};

// Writes what the second pass made of the namespace imports with a literal: of the listed ones, and of those behind them.
pub fn put_taken(
    tree: &[u8],
    work: &[u8],
    out: &[u8],
    imports: Imports,
    wanted: Wanted,
    records: &mut [u8],
    o: usize,
) -> usize
    requires { ChartedBoth work.now out.now imports }
    ensures { WroteIf (RowRead out.now 3 (length out.now) × Valued tree.now work.now wanted)
        (encodes
        (sieve wanted.namespaces
        (taken (literal_in tree.now work.now wanted.place) (items_in work.now) (items_in out.now))))
        records.old o records.new result }
{
    let mut to = o;
    for pair in imports.chain(wanted.value) {
        to = put_pair_at(tree, work, out, pair, wanted, records, to);
    }
    let items = items_from(work, imports.behind.at);
    let made = items_from(out, imports.behind.made);
    put_pairs(tree, items, made, wanted, records, to)
}

// Writes that of the imports with a literal among the items, which pair off with those of the other tree.
fn put_pairs(
    tree: &[u8],
    items: Row,
    made: Row,
    wanted: Wanted,
    records: &mut [u8],
    o: usize,
) -> usize
    ensures { WroteIf (FieldsRead made.entry)
        (encodes
        (sieve wanted.namespaces
        (taken (literal_in tree.now items.entry.bytes.now wanted.place) (fields_of items.entry) (fields_of made.entry))))
        records.old o records.new result }
{
    let mut to = o;
    for (item, other) in items.zip(made) {
        to = put_pair(tree, item, other, wanted, records, to);
    }
    to
}

// Writes what became of the item at a place, if it was a namespace import with the literal.
fn put_pair_at(
    tree: &[u8],
    work: &[u8],
    out: &[u8],
    pair: Pair,
    wanted: Wanted,
    records: &mut [u8],
    o: usize,
) -> usize
    ensures { WroteIf (ItemRead out.now pair.made)
        (encodes
        (sieve wanted.namespaces
        (taken_of (literal_in tree.now work.now wanted.place) (item_at work.now pair.at)
        (item_at out.now pair.made))))
        records.old o records.new result }
{
    let Some(item) = field_at(work, pair.at) else {
        return o;
    };
    let Some(made) = field_at(out, pair.made) else {
        return o;
    };
    put_pair(tree, item, made, wanted, records, o)
}

// Writes what became of an item, if it was a namespace import with the literal.
fn put_pair(
    tree: &[u8],
    item: Part,
    made: Part,
    wanted: Wanted,
    records: &mut [u8],
    o: usize,
) -> usize
    ensures { WroteIf (PartRead made.entry)
        (encodes
        (sieve wanted.namespaces
        (taken_of (literal_in tree.now item.entry.bytes.now wanted.place) (tree_of item.entry) (tree_of made.entry))))
        records.old o records.new result }
{
    if is_whole(tree, item, wanted.place) {
        put_named_parts(made, wanted.namespaces, records, o)
    } else {
        o
    }
}

// Whether an item is an import with the literal at a place and a sole 22. It stands in the tree after the first pass.
fn is_whole(tree: &[u8], item: Part, place: u32) -> bool
    ensures { result ≡ whole_of (literal_in tree.now item.entry.bytes.now place) (tree_of item.entry) }
{
    match import_parts(item) {
        Some(parts) => same_literal(tree, item.bytes, place, item.at + 3) && is_namespace(parts),
        None => false,
    }
}

// Writes the specifiers of an item, if the first is a 20: then it was taken apart.
fn put_named_parts(item: Part, namespaces: bool, records: &mut [u8], o: usize) -> usize
    ensures { WroteIf (PartRead item.entry) (encodes (sieve namespaces (named_parts (tree_of item.entry)))) records.old o records.new result }
{
    let Some(from) = item.fixed() else {
        return o;
    };
    let parts = item.row(from);
    if starts_named(parts) {
        put_specifiers(parts, namespaces, records, o)
    } else {
        o
    }
}
