// Which id an expression is once it is walked. Walking a chain of members changes nothing that is kept, so this can be asked before.
ghost use Rattle.std.specs.Prelude.{◌≡◌};
ghost use Rattle.tree.specs.Layout.{four};
ghost use Rattle.tree.specs.Rows.{tree_of, fields_of};
ghost use Rattle.extraction_rules.specs.State.{second as second-pass};
ghost use Rattle.state.specs.Does.{Tells};
ghost use Rattle.steps.specs.Step.{ident_by};
ghost use Rattle.expressions.specs.After.{pass_of, ident_after, member_after, named_first};

use scope::id::{Atom, Id, SyntaxContext};
use state::Tables;
use state::ident::id_at;
use tree::layout::atom_at;
use tree::row::{Part, Row};

// The id that an expression is once it is walked: a 60 is one, and in the second pass also a 63 that becomes one.
#[cycle(ident_after_property_after)]
pub fn ident_after(part: &Part, second: bool, t: &Tables) -> Option<Id>
    ensures { Tells (ident_after (tree_of part.now) (pass_of second)) t.now.cells (ident_by result) }
{
    let from = part.fixed()?;
    match part.tag() {
        0x60 => Some(id_at(part.bytes, part.at + 3)),
        0x63 => if second {
            property_after(part.row(from), t)
        } else {
            None
        },
        _ => None,
    }
}

// The id that a 63 with these parts becomes in the second pass.
#[cycle(ident_after_property_after)]
fn property_after(mut parts: Row, t: &Tables) -> Option<Id>
    ensures { Tells (member_after (fields_of parts.entry) second-pass) t.now.cells (ident_by result) }
{
    let object = parts.next()?;
    let id = ident_after(&object, true, t)?;
    if !t.has_usages(id) {
        return None;
    }
    named_first(parts, t.imported_as(id)?)
}

// The name of the first of the fields, if it is a 70, in a context.
fn named_first(mut row: Row, c: SyntaxContext) -> Option<Id>
    ensures { ident_by result ≡ named_first (fields_of row.entry) (four c.0) }
{
    let part = row.next()?;
    part.fixed()?;
    if part.tag() == 0x70 {
        Some(Id(Atom(atom_at(part.bytes, part.at + 3)), c))
    } else {
        None
    }
}
