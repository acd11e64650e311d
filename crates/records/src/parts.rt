// The parts of an import: which specifiers it has, and their copies.
ghost use Rattle.std.specs.Prelude.{◌≡◌};
ghost use Rattle.tree.specs.Tree.{tag_of, encodes};
ghost use Rattle.tree.specs.Rows.{tree_of, fields_of};
ghost use Rattle.inputs.specs.Fields.{sole};
ghost use Rattle.extraction_rules.specs.First.{specifiers_in};
ghost use Rattle.records.specs.Model.{is_namespace, starts_named};
ghost use Rattle.records.specs.Writes.{WroteIf, PartRead, FieldsRead, sieve, specifier_of, FirstIs, FieldAt, ItemsFrom, ImportParts};

use tree::row::{Part, Row};

// The tag of a field, 0 where its fixed bytes are not whole.
fn tag_of(part: Part) -> u8
    ensures { result ≡ tag_of (tree_of part.entry) }
{
    match part.fixed() {
        Some(_) => part.tag(),
        None => 0,
    }
}

// Takes the first specifier from the fields, and what stands in front of it, and answers its tag.
fn take_specifier(row: &mut Row) -> Option<u8>
    ensures { FirstIs (specifiers_in (fields_of row.old)) result row.new }
{
    while let Some(part) = row.next() {
        let tag = tag_of(part);
        if tag != 0x2F {
            return Some(tag);
        }
    }
    None
}

// Whether the specifiers are a sole 22.
pub fn is_namespace(mut row: Row) -> bool
    ensures { result ≡ is_namespace (sole (specifiers_in (fields_of row.entry))) }
{
    match take_specifier(&mut row) {
        Some(tag) => tag == 0x22 && take_specifier(&mut row).is_none(),
        None => false,
    }
}

// Whether the first of them is a 20.
pub fn starts_named(mut row: Row) -> bool
    ensures { result ≡ starts_named (specifiers_in (fields_of row.entry)) }
{
    take_specifier(&mut row).is_some_and(|tag| tag == 0x20)
}

// The items from a place on, none where it is past the end.
pub fn items_from(s: &[u8], at: usize) -> Row<'_>
    ensures { ItemsFrom s.now at result }
{
    Row::new(s, at.min(s.len()), s.len())
}

// The field at a place, if one stands there.
pub fn field_at(s: &[u8], at: usize) -> Option<Part<'_>>
    ensures { FieldAt s.now at result }
{
    items_from(s, at).next()
}

// The parts of an item that is an import.
pub fn import_parts(item: Part<'_>) -> Option<Row<'_>>
    ensures { ImportParts item.entry result }
{
    let from = item.fixed()?;
    if item.tag() == 0x10 {
        Some(item.row(from))
    } else {
        None
    }
}

// Writes a specifier, unless it is a namespace and these are left out; a 2F is none.
fn put_specifier(part: Part, namespaces: bool, records: &mut [u8], o: usize) -> usize
    ensures { WroteIf (PartRead part.entry) (encodes (specifier_of namespaces (tree_of part.entry))) records.old o records.new result }
{
    match tag_of(part) {
        0x2F => o,
        0x22 if !namespaces => o,
        _ => writer::copy(records, o, part.bytes, part.at, part.stop),
    }
}

// Writes the specifiers, with the namespaces or without them.
pub fn put_specifiers(row: Row, namespaces: bool, records: &mut [u8], o: usize) -> usize
    ensures { WroteIf (FieldsRead row.entry) (encodes (sieve namespaces (specifiers_in (fields_of row.entry)))) records.old o records.new result }
{
    let mut to = o;
    for part in row {
        to = put_specifier(part, namespaces, records, to);
    }
    to
}
