// An import in the first pass.
ghost use Rattle.std.specs.Prelude.{◌≡◌, ◌+◌, ◌*◌, ◌≤◌, ◌<◌, get_or};
ghost use Rattle.tree.specs.Tree.{encode, fixed_of, parts_of};
ghost use Rattle.tree.specs.Access.{fixed_at};
ghost use Rattle.tree.specs.Rows.{tree_of, fields_of};
ghost use Rattle.inputs.specs.Fields.{inside};
ghost use Rattle.inputs.specs.Lists.{mapped};
ghost use Rattle.extraction_rules.specs.First.{import_first, note_specifiers, specifiers_in};
ghost use Rattle.state.specs.Cells.{Good, records, held, namespaces_in};
ghost use Rattle.steps.specs.Step.{ReadAt, Reads, Steps};
ghost use Rattle.imports.specs.Parts.{Gathers, Extending, Gathering, Collected, import_with};

use crate::note::{note_all, put_context_attributes};
use crate::parts::{namespace_of, specifiers_end};
use scope::id::ModuleId;
use state::ident::literal_at;
use state::{Literal, TableFull, Tables};
use steps::{Refusal, Step, Why, begin_field};
use tree::row::{Part, Row};

// A record collects the specifiers in a row: of these only the namespaces are kept.
pub fn gather(row: Row, literal: Literal, t: &mut Tables) -> Result<(), TableFull>
    ensures { Gathering literal (fields_of row.entry) t.old.cells t.new.cells result }
{
    let i = t.collect(literal)?;
    gather_namespaces(row, i, t);
    Ok(())
}

// The 22s in a row are namespaces of a record.
fn gather_namespaces(row: Row, i: usize, t: &mut Tables)
    requires { i < held records t.old.cells }
    ensures { Gathers i (fields_of row.entry) t.old.cells t.new.cells }
{
    for part in row {
        gather_namespace(&part, i, t);
    }
}

// A field is a namespace of a record, if it is a 22.
fn gather_namespace(part: &Part, i: usize, t: &mut Tables)
    requires { i < held records t.old.cells }
    ensures { Extending i (tree_of part.now) t.old.cells t.new.cells }
{
    if let Some(id) = namespace_of(part) {
        t.add_namespace(i, id);
    }
}

// An import in the first pass.
pub fn import_first(part: &Part, t: &mut Tables, out: &mut [u8], o: usize) -> Step
    requires { get_or part.now.bytes.now part.now.at 0 ≡ 0x10 }
    ensures { Steps encode
        (λ x u. ReadAt part.now.bytes.now part.now.at part.now.stop × Reads x part.now.bytes.now
        × (9 * namespaces_in u.collected ≤ part.now.at) × (part.now.stop ≤ 32768))
        (λ x. import_first x.setting (fixed_of (tree_of part.now)) (parts_of (tree_of part.now)) part.now.at) t.old.cells
        out.old o t.new.cells out.new result }
{
    let Some(from) = part.fixed() else {
        return Ok(o);
    };
    let at = part.at;
    let literal = literal_at(part.bytes, at + 3, t.place_of(at + 3));
    if t.is_external(literal.value) {
        return Ok(writer::copy(out, o, part.bytes, at, part.stop));
    }
    let module = t.module_for(literal.value).map_err(|_| Refusal {
        why: Why::TooManyFiles,
        place: at,
    })?;
    let p = put_import(part, from, module, t, out, o)?;
    gathered(part, from, t, p)
}

// Writes an import whose parts start at `from`. Of a module its specifiers are noted, and its attributes get the module's export context; one
// that no file stands for stays as it is.
fn put_import(
    part: &Part,
    from: usize,
    found: Option<ModuleId>,
    t: &mut Tables,
    out: &mut [u8],
    o: usize,
) -> Step
    requires { (get_or part.now.bytes.now part.now.at 0 ≡ 0x10)
        × (fixed_at part.now.bytes.now (get_or part.now.bytes.now part.now.at 0) (part.now.at + 3) part.now.stop ≡ Some from) }
    ensures { Steps (import_with (mapped (λ n. n.0) found) (fixed_of (tree_of part.now)) (parts_of (tree_of part.now)))
        (λ x u. ReadAt part.now.bytes.now part.now.at part.now.stop)
        (λ _. note_specifiers (mapped (λ n. n.0) found) (specifiers_in (parts_of (tree_of part.now))) (inside part.now.at (fixed_of (tree_of part.now))))
        t.old.cells out.old o t.new.cells out.new result }
{
    let Some(n) = found else {
        return Ok(writer::copy(out, o, part.bytes, part.at, part.stop));
    };
    let content = begin_field(part, from, out, o);
    let q = note_all(part.row(from), n, t, out, content)?;
    let attributes = part.row(specifiers_end(part, from));
    let p = put_context_attributes(attributes, n, out, q);
    writer::close_field(out, o, p);
    Ok(p)
}

// An import, which is written up to p, is collected.
fn gathered(part: &Part, from: usize, t: &mut Tables, p: usize) -> Step
    requires { (get_or part.now.bytes.now part.now.at 0 ≡ 0x10)
        × (fixed_at part.now.bytes.now (get_or part.now.bytes.now part.now.at 0) (part.now.at + 3) part.now.stop ≡ Some from) }
    ensures { Collected part.now.bytes.now (fixed_of (tree_of part.now)) (parts_of (tree_of part.now)) part.now.at t.old.cells t.new.cells p result }
{
    let at = part.at;
    let literal = literal_at(part.bytes, at + 3, t.place_of(at + 3));
    gather(part.row(from), literal, t).map_err(|_| Refusal {
        why: Why::TableFull,
        place: at,
    })?;
    Ok(p)
}
