// The rule 'usage' of the first pass: 63 on a 60 whose id is imported.
ghost use Rattle.std.specs.Prelude.{◌≡◌, get_or};
ghost use Rattle.tree.specs.Rows.{tree_of};
ghost use Rattle.extraction_rules.specs.First.{on_ident, usage as usage-rule, used_record, use_from, use_property};
ghost use Rattle.state.specs.Cells.{id_by};
ghost use Rattle.steps.specs.Step.{Sound, Effects};
ghost use Rattle.expressions.specs.Usage.{Named};

use crate::ident::ident_after;
use scope::id::{Atom, Id, ModuleId};
use state::Tables;
use steps::{Effect, Refusal, Why};
use tree::layout::atom_at;
use tree::row::Part;

// The usage of a 63 whose parts are walked.
pub fn usage(part: &Part, t: &mut Tables) -> Effect
    requires { get_or part.now.bytes.now part.now.at 0 ≡ 0x63 }
    ensures { Effects (λ x u. Sound part.now.bytes.now part.now.at part.now.stop) (λ x. usage-rule (on_ident (tree_of part.now)) x.setting part.now.at)
        t.old.cells t.new.cells result }
{
    let mut parts = part.row(part.at + 3);
    let Some(object) = parts.next() else {
        return Ok(());
    };
    let Some(id) = ident_after(&object, false, t) else {
        return Ok(());
    };
    let Some(member) = parts.next() else {
        return Ok(());
    };
    let Some(_) = t.imported_as(id) else {
        return Ok(());
    };
    if member.tag() == 0x71 {
        t.force_id(id);
        return Ok(());
    }
    use_from(part.at, &member, id, t)
}

// An imported id is used by a member of the 63 at a place: the record that it belongs to is looked for.
fn use_from(at: usize, member: &Part, id: Id, t: &mut Tables) -> Effect
    ensures { Effects (λ x u. Named (tree_of member.now))
        (λ x u. use_from (used_record x.setting.own (id_by id) u.collected) x.setting (id_by id)
        (tree_of member.now) member.now.at at u) t.old.cells t.new.cells result }
{
    let Some(source) = t.used_record(t.own_module(), id) else {
        return Ok(());
    };
    let module = t.module_for(source).map_err(|_| Refusal {
        why: Why::TooManyFiles,
        place: at,
    })?;
    match module {
        Some(n) => use_property(at, member, id, n, t),
        None => Ok(()),
    }
}

// The usage is appended: the property that the member names, in the export context of module n.
fn use_property(at: usize, member: &Part, id: Id, n: ModuleId, t: &mut Tables) -> Effect
    ensures { Effects (λ x u. Named (tree_of member.now))
        (λ _. use_property (Some n.0) (id_by id) (tree_of member.now) member.now.at at) t.old.cells t.new.cells result }
{
    let Some(_) = member.fixed() else {
        return Ok(());
    };
    if member.tag() == 0x72 {
        return Err(Refusal {
            why: Why::PrivateName,
            place: member.at,
        });
    }
    if member.tag() != 0x70 {
        return Ok(());
    }
    let property = Id(Atom(atom_at(member.bytes, member.at + 3)), n.export_ctxt());
    t.add_usage(id, property).map_err(|_| Refusal {
        why: Why::TableFull,
        place: at,
    })
}
