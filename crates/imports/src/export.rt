// An export specifier, in both passes.
ghost use Rattle.std.specs.Prelude.{◌≡◌, ◌∷◌, ◌++◌, ◌+◌, ◌≤◌, length, get_or};
ghost use Rattle.std.proofs.Math.Seq.{slice};
ghost use Rattle.tree.specs.Layout.{two};
ghost use Rattle.tree.specs.Tree.{encode, field, none, fixed_of};
ghost use Rattle.tree.specs.Access.{fixed_at};
ghost use Rattle.tree.specs.Rows.{tree_of};
ghost use Rattle.writer.specs.Wrote.{Wrote};
ghost use Rattle.extraction_rules.specs.First.{id_from, export_specifier};
ghost use Rattle.state.specs.Cells.{Good};
ghost use Rattle.steps.specs.Step.{Steps};
ghost use Rattle.imports.specs.Parts.{exported_at};

use scope::id::{Atom, Id, SyntaxContext};
use state::Tables;
use state::ident::{id_at, put_id};
use steps::{Refusal, Step, Why};
use tree::layout::atom_at;
use tree::row::Part;

// A 23 whose fixed bytes end at `from`: the original is forced, and 'exported name gets own local context, filling none'.
pub fn export_specifier(part: &Part, from: usize, t: &mut Tables, out: &mut [u8], o: usize) -> Step
    requires { (get_or part.now.bytes.now part.now.at 0 ≡ 0x23) × (fixed_at part.now.bytes.now 0x23 (part.now.at + 3) part.now.stop ≡ Some from) }
    ensures { Steps encode (λ x u. Unit {0}) (λ x. export_specifier x.setting (fixed_of (tree_of part.now)) part.now.at) t.old.cells
        out.old o t.new.cells out.new result }
{
    let at = part.at;
    if part.bytes[at + 3] == 2 || part.bytes[at + 10] == 2 {
        return Err(Refusal {
            why: Why::StringName,
            place: at,
        });
    }
    t.force_id(id_at(part.bytes, at + 4));
    let own = t.own_module();
    Ok(put_exported(part, own.local_ctxt(), out, o))
}

// The exported name of a 23, 'filling none'.
fn exported_name(part: &Part) -> Atom
    requires { (part.now.at + 11 ≤ length part.now.bytes.now)
        × (get_or part.now.bytes.now (part.now.at + 10) 0 ≡ 1 → part.now.at + 13 ≤ length part.now.bytes.now) }
    ensures { two result.0 ≡ exported_at part.now.bytes.now part.now.at }
{
    if part.bytes[part.at + 10] == 1 {
        Atom(atom_at(part.bytes, part.at + 11))
    } else {
        Atom(atom_at(part.bytes, part.at + 4))
    }
}

// Writes a 23 with its exported name in a context.
fn put_exported(part: &Part, c: SyntaxContext, out: &mut [u8], o: usize) -> usize
    requires { (part.now.at + 11 ≤ length part.now.bytes.now)
        × (get_or part.now.bytes.now (part.now.at + 10) 0 ≡ 1 → part.now.at + 13 ≤ length part.now.bytes.now) }
    ensures { Wrote out.old o
        (encode
        (field 0x23 (slice (part.now.at + 3) (part.now.at + 10) part.now.bytes.now ++ 1 ∷ id_from (exported_at part.now.bytes.now part.now.at) c.0) none))
        out.new result }
{
    let at = part.at;
    let content = writer::open_field(out, o, 0x23);
    let kind = writer::copy(out, content, part.bytes, at + 3, at + 10);
    let name = writer::put(out, kind, 1);
    let p = put_id(out, name, Id(exported_name(part), c));
    writer::close_field(out, o, p);
    p
}
