// An import in the second pass.
ghost use Rattle.std.specs.Prelude.{◌≡◌, true, false, ◌+◌, ◌≤◌, ◌<◌, get_or};
ghost use Rattle.tree.specs.Layout.{value_of};
ghost use Rattle.tree.specs.Tree.{encode, field, fixed_of, parts_of};
ghost use Rattle.tree.specs.Rows.{tree_of};
ghost use Rattle.metadata.specs.Metadata.{append};
ghost use Rattle.inputs.specs.Lists.{among};
ghost use Rattle.extraction_rules.specs.First.{external, attributes_in};
ghost use Rattle.extraction_rules.specs.Second.{usages_of, specifiers_from, take_apart, import_second};
ghost use Rattle.state.specs.Cells.{Good, id_by, uses, held, sources_in};
ghost use Rattle.steps.specs.Step.{ReadAt, Steps};
ghost use Rattle.imports.specs.Parts.{Writes, usages_from, Usage};

use crate::parts::{sole_namespace, specifiers_end};
use scope::id::{Atom, Id};
use state::Tables;
use state::ident::put_named;
use steps::{Step, begin_field};
use tree::layout::atom_at;
use tree::row::Part;

// An import in the second pass: 'not external, unforced, with a sole 22'. The usages of the namespace become the import's specifiers;
// without usages the source is forced.
pub fn import_second(part: &Part, t: &mut Tables, out: &mut [u8], o: usize) -> Step
    requires { get_or part.now.bytes.now part.now.at 0 ≡ 0x10 }
    ensures { Steps encode
        (λ x u. ReadAt part.now.bytes.now part.now.at part.now.stop
        × (external x.setting (fixed_of (tree_of part.now)) ≡ false →
        among (value_of (fixed_of (tree_of part.now))) (sources_in u.collected) ≡ true))
        (λ x. import_second x.setting (fixed_of (tree_of part.now)) (parts_of (tree_of part.now))) t.old.cells
        out.old o t.new.cells out.new result }
{
    let Some(from) = part.fixed() else {
        return Ok(o);
    };
    let source = Atom(atom_at(part.bytes, part.at + 3));
    if t.is_external(source) || t.is_forced(source) {
        return Ok(writer::copy(out, o, part.bytes, part.at, part.stop));
    }
    match sole_namespace(part, from) {
        Some(id) => Ok(take_apart(part, id, t, out, o)),
        None => Ok(writer::copy(out, o, part.bytes, part.at, part.stop)),
    }
}

// The usages of a namespace become the specifiers of its import; without usages the source is forced.
fn take_apart(part: &Part, id: Id, t: &mut Tables, out: &mut [u8], o: usize) -> usize
    requires { (part.now.at + 9 ≤ part.now.stop) × (get_or part.now.bytes.now part.now.at 0 ≡ 0x10) }
    ensures { Steps encode
        (λ x u. ReadAt part.now.bytes.now part.now.at part.now.stop × (among (value_of (fixed_of (tree_of part.now))) (sources_in u.collected) ≡ true))
        (λ _ u. take_apart (usages_of (id_by id) u.usages) (fixed_of (tree_of part.now)) (parts_of (tree_of part.now)) u)
        t.old.cells out.old o t.new.cells out.new (Ok result) }
{
    if t.has_usages(id) {
        return put_taken_apart(part, id, t, out, o);
    }
    t.force_source(Atom(atom_at(part.bytes, part.at + 3)));
    writer::copy(out, o, part.bytes, part.at, part.stop)
}

// Writes an import whose specifiers are the usages of an id, with its attributes.
fn put_taken_apart(part: &Part, id: Id, t: &Tables, out: &mut [u8], o: usize) -> usize
    requires { get_or part.now.bytes.now part.now.at 0 ≡ 0x10 }
    ensures { ReadAt part.now.bytes.now part.now.at part.now.stop →
        Writes
        (λ u. encode
        (field 0x10 (fixed_of (tree_of part.now))
        (append (specifiers_from (usages_of (id_by id) u.usages)) (attributes_in (parts_of (tree_of part.now)))))) t.now.cells
        out.old o out.new result }
{
    let Some(from) = part.fixed() else {
        return o;
    };
    let content = begin_field(part, from, out, o);
    let q = put_usages(id, t, out, content);
    let p = writer::copy(out, q, part.bytes, specifiers_end(part, from), part.stop);
    writer::close_field(out, o, p);
    p
}

// Writes the usages of an id as 20s without outside name.
fn put_usages(id: Id, t: &Tables, out: &mut [u8], o: usize) -> usize
    ensures { Writes (usages_from (id_by id) 0) t.now.cells out.old o out.new result }
{
    let n = t.count_usages();
    let mut to = o;
    for i in 0..n {
        to = put_usage(i, id, t, out, to);
    }
    to
}

// Writes the usage at a place, if it is one of the id.
fn put_usage(i: usize, id: Id, t: &Tables, out: &mut [u8], o: usize) -> usize
    requires { (i < held uses t.now.cells) }
    ensures { Usage (id_by id) i t.now.cells out.old o out.new result }
{
    match t.usage_at(i, id) {
        Some(property) => put_named(out, o, property),
        None => o,
    }
}
