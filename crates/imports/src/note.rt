// What the first pass notes of a resolved import, and writes of it.
ghost use Rattle.std.specs.Prelude.{◌≡◌, false, List, ◌∷◌, ◌++◌, ℕ, ◌+◌, ◌≤◌, ◌<◌, length, get_or};
ghost use Rattle.tree.specs.Layout.{two, four, id_at};
ghost use Rattle.tree.specs.Tree.{encode, encodes, field, none};
ghost use Rattle.tree.specs.Access.{fixed_at};
ghost use Rattle.tree.specs.Grammar.{rule_of};
ghost use Rattle.tree.specs.Rows.{tree_of, fields_of};
ghost use Rattle.tree.specs.Standing.{Row};
ghost use Rattle.writer.specs.Wrote.{Wrote};
ghost use Rattle.scope.specs.Id.{export};
ghost use Rattle.metadata.specs.Metadata.{with_metadata};
ghost use Rattle.extraction_rules.specs.First.{id_from, note_named, note_specifier, note_all, specifiers_in};
ghost use Rattle.state.specs.Cells.{Good, id_by};
ghost use Rattle.steps.specs.Step.{ReadAt, Steps};
ghost use Rattle.imports.specs.Parts.{OutsideAt, OutsideIs, SpecifierIs, Specified, noting, Attributes};

use scope::id::{Atom, Id, ModuleId, SyntaxContext};
use state::Tables;
use state::ident::{id_at, put_id};
use steps::{Refusal, Step, Why};
use tree::layout::atom_at;
use tree::row::{self, Part};

// A named import's outside name: none, an identifier or a string.
#[derive(Clone, Copy, PartialEq, Eq)]
pub enum Outside {
    Nothing,
    Name(Atom),
    Text(Atom),
}

// A specifier of an import, with its local id.
#[derive(Clone, Copy, PartialEq, Eq)]
pub enum Specifier {
    Named(Id, Outside),
    Default(Id),
    Namespace(Id),
}

// The outside name whose kind byte stands at `at`.
fn outside_at(s: &[u8], at: usize) -> Outside
    requires { (at < length s.now) × ((get_or s.now at 0 ≡ 0 → ⊥) → at + 3 ≤ length s.now) }
    ensures { OutsideAt s.now at result }
{
    match s[at] {
        0 => Outside::Nothing,
        1 => Outside::Name(Atom(atom_at(s, at + 1))),
        _ => Outside::Text(Atom(atom_at(s, at + 1))),
    }
}

// The specifier that a field is whose fixed bytes are whole.
fn specifier_of(part: &Part) -> Specifier
    requires { ((from : ℕ) × (fixed_at part.now.bytes.now (get_or part.now.bytes.now part.now.at 0) (part.now.at + 3) part.now.stop ≡ Some from))
        × (0x20 ≤ get_or part.now.bytes.now part.now.at 0) × (get_or part.now.bytes.now part.now.at 0 ≤ 0x22) }
    ensures { SpecifierIs (tree_of part.now) result }
{
    let id = id_at(part.bytes, part.at + 3);
    match part.tag() {
        0x20 => Specifier::Named(id, outside_at(part.bytes, part.at + 9)),
        0x21 => Specifier::Default(id),
        _ => Specifier::Namespace(id),
    }
}

// A specifier is noted, and written: 'export context; own for default'.
pub fn note_specifier(part: &Part, n: ModuleId, t: &mut Tables, out: &mut [u8], o: usize) -> Step
    ensures { Steps encode (λ x u. Specified part.now.bytes.now part.now.at part.now.stop)
        (λ _. note_specifier n.0 (tree_of part.now) part.now.at) t.old.cells out.old o t.new.cells out.new result }
{
    let tag = part.tag();
    let Some(_) = part.fixed() else {
        return Ok(o);
    };
    if tag < 0x20 || 0x22 < tag {
        return Ok(o);
    }
    match specifier_of(part) {
        Specifier::Named(id, outside) => note_named(id, outside, part.at, n, t, out, o),
        Specifier::Default(id) => note_other(part, id.1, t, out, o),
        Specifier::Namespace(_) => note_other(part, n.export_ctxt(), t, out, o),
    }
}

// A 21 or a 22: its id is noted in a context, and it stays as it is.
fn note_other(part: &Part, c: SyntaxContext, t: &mut Tables, out: &mut [u8], o: usize) -> Step
    requires { part.now.at + 9 ≤ part.now.stop }
    ensures { Steps encode (λ x u. ReadAt part.now.bytes.now part.now.at part.now.stop)
        (λ _. noting (record { id = id_at part.now.bytes.now (part.now.at + 3); context = four c.0 }) (tree_of part.now) part.now.at)
        t.old.cells out.old o t.new.cells out.new result }
{
    let at = part.at;
    t.note_id(id_at(part.bytes, at + 3), c)
        .map_err(|_| Refusal {
            why: Why::TableFull,
            place: at,
        })?;
    Ok(writer::copy(out, o, part.bytes, at, part.stop))
}

// A 20: 'filling none with the local name'; a string name is refused.
fn note_named(
    id: Id,
    outside: Outside,
    at: usize,
    n: ModuleId,
    t: &mut Tables,
    out: &mut [u8],
    o: usize,
) -> Step
    ensures { (x : List ℕ) → id_by id ≡ id_at x 0 → OutsideIs x outside →
        Steps encode (λ x u. Unit {0}) (λ _. note_named n.0 x at) t.old.cells out.old o t.new.cells out.new result }
{
    match outside {
        Outside::Nothing => note_as(id, id.0, at, n, t, out, o),
        Outside::Name(name) => note_as(id, name, at, n, t, out, o),
        Outside::Text(_) => Err(Refusal {
            why: Why::StringName,
            place: at,
        }),
    }
}

// A 20 with this outside name: its id is noted, and the outside name gets the context.
fn note_as(
    id: Id,
    name: Atom,
    at: usize,
    n: ModuleId,
    t: &mut Tables,
    out: &mut [u8],
    o: usize,
) -> Step
    ensures { Steps encode (λ x u. Unit {0})
        (λ _. noting (record { id = id_by id; context = four (export n.0) }) (field 0x20 (id_by id ++ 1 ∷ id_from (two name.0) (export n.0)) none)
        at) t.old.cells out.old o t.new.cells out.new result }
{
    let c = n.export_ctxt();
    t.note_id(id, c).map_err(|_| Refusal {
        why: Why::TableFull,
        place: at,
    })?;
    Ok(put_outside(id, Id(name, c), out, o))
}

// Writes a 20 with an outside name.
fn put_outside(id: Id, outside: Id, out: &mut [u8], o: usize) -> usize
    ensures { Wrote out.old o (encode (field 0x20 (id_by id ++ 1 ∷ id_by outside) none)) out.new result }
{
    let content = writer::open_field(out, o, 0x20);
    let kind = put_id(out, content, id);
    let name = writer::put(out, kind, 1);
    let p = put_id(out, name, outside);
    writer::close_field(out, o, p);
    p
}

// The specifiers of a row, up to its 2F or its end.
pub fn note_all(row: row::Row, n: ModuleId, t: &mut Tables, out: &mut [u8], o: usize) -> Step
    ensures { Steps encodes (λ x u. Row row.entry.bytes.now row.entry.at row.entry.end (rule_of 0x10))
        (λ _. note_all n.0 (specifiers_in (fields_of row.entry)) row.entry.at) t.old.cells out.old o t.new.cells out.new result }
{
    let mut to = o;
    for part in row {
        if part.tag() == 0x2F {
            return Ok(to);
        }
        to = note_specifier(&part, n, t, out, to)?;
    }
    Ok(to)
}

// Writes a 2F with the attributes that stand first in a row, if any, and the export context of module n.
pub fn put_context_attributes(row: row::Row, n: ModuleId, out: &mut [u8], o: usize) -> usize
    ensures { Attributes row.entry.bytes.now row.entry.at row.entry.end
        (λ old. encode (with_metadata (record { injected = false; context = Some (export n.0) }) old)) out.old o out.new result }
{
    let content = writer::open_field(out, o, 0x2F);
    let old = put_attributes(row, out, content);
    let p = metadata::put_context(out, old, n.export_ctxt());
    writer::close_field(out, o, p);
    p
}

// Writes the attributes in the 2F that stands first in a row, if there is one.
fn put_attributes(mut row: row::Row, out: &mut [u8], o: usize) -> usize
    ensures { Attributes row.entry.bytes.now row.entry.at row.entry.end encodes out.old o out.new result }
{
    match row.next() {
        Some(part) => writer::copy(out, o, part.bytes, part.at + 3, part.stop),
        None => o,
    }
}
