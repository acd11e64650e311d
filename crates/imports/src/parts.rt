// The parts of an import: its specifiers, and behind them its attributes, if any.
ghost use Rattle.std.specs.Prelude.{◌≡◌, ◌≤◌};
ghost use Rattle.tree.specs.Grammar.{rule_of};
ghost use Rattle.tree.specs.Rows.{tree_of};
ghost use Rattle.tree.specs.Standing.{row_at, Row};
ghost use Rattle.inputs.specs.Fields.{sole};
ghost use Rattle.extraction_rules.specs.First.{specifiers_in};
ghost use Rattle.steps.specs.Step.{ident_by};
ghost use Rattle.imports.specs.Parts.{Ends, namespace_in, namespace_by};

use scope::id::Id;
use state::ident::id_at;
use tree::row::Part;

// Where the specifiers from `from` on stop: at the 2F, or where no whole field follows.
pub fn specifiers_end(part: &Part, from: usize) -> usize
    requires { from ≤ part.now.stop }
    ensures { Ends part.now.bytes.now from part.now.stop result }
{
    let mut at = from;
    for p in part.row(from) {
        if p.tag() == 0x2F {
            return p.at;
        }
        at = p.stop;
    }
    at
}

// The id of a field, if it is a 22.
pub fn namespace_of(part: &Part) -> Option<Id>
    ensures { ident_by result ≡ namespace_in (tree_of part.now) }
{
    part.fixed()?;
    if part.tag() == 0x22 {
        Some(id_at(part.bytes, part.at + 3))
    } else {
        None
    }
}

// The id of a 22 that is the only specifier from `from` on.
pub fn sole_namespace(part: &Part, from: usize) -> Option<Id>
    requires { from ≤ part.now.stop }
    ensures { Row part.now.bytes.now from part.now.stop (rule_of 0x10) →
        ident_by result ≡ namespace_by (sole (specifiers_in (row_at part.now.bytes.now from part.now.stop))) }
{
    let first = part.row(from).next()?;
    if specifiers_end(part, first.stop) == first.stop {
        namespace_of(&first)
    } else {
        None
    }
}
