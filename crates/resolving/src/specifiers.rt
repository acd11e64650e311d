// The specifiers of a record, as the resolved list has them.
ghost use Rattle.std.specs.Prelude.{◌≡◌, ◌++◌, ◌+◌, ◌<◌, length, get_or};
ghost use Rattle.tree.specs.Tree.{field, none, encode, encodes};
ghost use Rattle.tree.specs.Rows.{tree_of, fields_of};
ghost use Rattle.writer.specs.Wrote.{Wrote};
ghost use Rattle.resolving_rules.specs.Resolve.{resolved_specifier, resolved_specifiers};
ghost use Rattle.resolving.specs.Records.{FieldRead, FieldsRead};
ghost use Rattle.resolving.specs.Specifiers.{outside_of, specifier_at, named_by};
ghost use Rattle.resolving.specs.Writes.{Puts};

use tree::refused::Refused;
use tree::row::{Part, Row};

// Why a list turns back.
#[derive(Clone, Copy, PartialEq, Eq)]
pub enum Why {
    // a source that the table does not name
    Unresolved,
    // a string name
    StringName,
}

// Why a list turns back, and at which field.
pub type Refusal = Refused<Why>;

// The position behind what was written.
pub type Step = Result<usize, Refusal>;

// A named import's outside name.
#[derive(Drop)]
pub enum Outside {
    Nothing,
    Name,
    // a string name
    Text,
}

// A specifier; the bytes of ids are copied as they stand.
#[derive(Drop)]
pub enum Specifier {
    Named(Outside),
    Default,
    Namespace,
}

// A default's alias, '(default, 0)': the byte of an alias, then the atom `default` and the context of no module.
const DEFAULT_ALIAS: [u8; 7] = [1, 0, 3, 0, 0, 0, 0];

// Writes a field without parts, of these bytes and those behind them.
fn put_leaf(list: &mut [u8], o: usize, tag: u8, bytes: &[u8], behind: &[u8]) -> usize
    ensures { Wrote list.old o (encode (field tag (bytes.now ++ behind.now) none)) list.new result }
{
    let content = writer::open_field(list, o, tag);
    let rest = writer::put_all(list, content, bytes);
    let p = writer::put_all(list, rest, behind);
    writer::close_field(list, o, p);
    p
}

// The outside name whose kind byte stands at `at`.
#[tactic(auto, unfolding(crate::specs::Specifiers::outside_of))]
fn outside_at(s: &[u8], at: usize) -> Outside
    requires { at < length s.now }
    ensures { result ≡ outside_of (get_or s.now at 0) }
{
    match s[at] {
        0 => Outside::Nothing,
        2 => Outside::Text,
        _ => Outside::Name,
    }
}

// The specifier that a field is, by its tag; a 20 has its kind byte behind its id.
#[tactic(auto, unfolding(crate::specs::Specifiers::specifier_at))]
fn specifier_of(part: Part) -> Specifier
    requires { get_or part.bytes.now part.at 0 ≡ 0x20 → part.at + 9 < part.stop }
    ensures { result ≡ specifier_at part.entry.bytes.now part.entry.at }
{
    match part.tag() {
        0x20 => Specifier::Named(outside_at(part.bytes, part.at + 9)),
        0x21 => Specifier::Default,
        _ => Specifier::Namespace,
    }
}

// A named import's bytes, an id and its outside name, as a 91; a string name is refused, at the 20 at place.
fn put_named(bytes: &[u8], outside: Outside, place: usize, list: &mut [u8], o: usize) -> Step
    ensures { Puts encode (named_by outside bytes.now place) list.old o list.new result }
{
    match outside {
        Outside::Nothing | Outside::Name => Ok(put_leaf(list, o, 0x91, bytes, &[])),
        Outside::Text => Err(Refusal {
            why: Why::StringName,
            place,
        }),
    }
}

// A specifier: a default's and a namespace's bytes are their ids, and a namespace is told whether it is all of a module.
fn put_specifier(part: Part, all: bool, list: &mut [u8], o: usize) -> Step
    requires { FieldRead part }
    ensures { Puts encode (resolved_specifier all (tree_of part.entry) part.entry.at) list.old o list.new result }
{
    let end = part.fixed().unwrap();
    let bytes = &part.bytes[part.at + 3..end];
    match specifier_of(part) {
        Specifier::Named(outside) => put_named(bytes, outside, part.at, list, o),
        Specifier::Default => Ok(put_leaf(list, o, 0x91, bytes, &DEFAULT_ALIAS)),
        Specifier::Namespace => Ok(put_leaf(list, o, 0x92, bytes, &[u8::from(all)])),
    }
}

// The specifiers of a row, in order.
pub fn put_specifiers(row: Row, all: bool, list: &mut [u8], o: usize) -> Step
    requires { FieldsRead row }
    ensures { Puts encodes (resolved_specifiers all (fields_of row.entry) row.entry.at) list.old o list.new result }
{
    let mut to = o;
    for part in row {
        to = put_specifier(part, all, list, to)?;
    }
    Ok(to)
}
