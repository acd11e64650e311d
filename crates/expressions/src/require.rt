// Calls of require: 'callee 60 named require in any context, just one argument, no spread, a 61, not external'.
ghost use Rattle.tree.specs.Rows.{tree_of, fields_of};
ghost use Rattle.inputs.specs.Fields.{sole};
ghost use Rattle.extraction_rules.specs.First.{argument, not_external};
ghost use Rattle.expressions.specs.After.{required_after};
ghost use Rattle.expressions.specs.Require.{literal_first, Found, RequiredIs, Requires, CalleeSet};

use crate::ident::ident_after;
use scope::id::{Atom, ModuleId};
use scope::{Mark, TooManyFiles};
use state::ident::literal_at;
use state::{Literal, Tables};
use tree::row::{Part, Row};

// The literal of a call, if it meets the require conditions once it is walked. Asked before it is walked.
pub fn required_at(part: &Part, t: &Tables) -> Option<Literal>
    ensures { RequiredIs (λ e. required_after e (tree_of part.now)) part.now.bytes.now t.now.cells result }
{
    if !t.counts_require() || part.tag() != 0x65 {
        return None;
    }
    let mut parts = part.row(part.at + 3);
    let callee = parts.next()?;
    let id = ident_after(&callee, t.is_second(), t)?;
    let name = id.0;
    if name != Atom::REQUIRE {
        return None;
    }
    source_in(parts, t)
}

// The literal of the one argument, if it is not external.
fn source_in(arguments: Row, t: &Tables) -> Option<Literal>
    ensures { RequiredIs (λ e _. not_external e (argument (sole (fields_of arguments.entry)))) arguments.entry.bytes.now t.now.cells result }
{
    let at = sole_literal(arguments)?;
    let literal = literal_at(arguments.bytes, at, t.place_of(at));
    if t.is_external(literal.value) {
        None
    } else {
        Some(literal)
    }
}

// Where the literal of the one argument stands.
fn sole_literal(mut arguments: Row) -> Option<usize>
    ensures { Found arguments.entry.bytes.now (argument (sole (fields_of arguments.entry))) result }
{
    let part = arguments.next()?;
    if arguments.next().is_some() {
        return None;
    }
    argument_in(&part)
}

// Where the literal of a 75 without spread stands, that holds a 61.
fn argument_in(part: &Part) -> Option<usize>
    ensures { Found part.now.bytes.now (argument (Some (tree_of part.now))) result }
{
    if part.tag() != 0x75 {
        return None;
    }
    let from = part.fixed()?;
    if from != part.at + 4 || part.bytes[part.at + 3] != 0 {
        return None;
    }
    first_literal(part.row(from))
}

// Where the literal of the first of the fields stands, if it is a 61.
fn first_literal(mut row: Row) -> Option<usize>
    ensures { Found row.entry.bytes.now (literal_first (fields_of row.entry)) result }
{
    let part = row.next()?;
    part.fixed()?;
    if part.tag() == 0x61 {
        Some(part.at + 3)
    } else {
        None
    }
}

// The module of a required source is marked as cjs.
pub fn mark_required(literal: Literal, t: &mut Tables) -> Result<Option<ModuleId>, TooManyFiles>
    ensures { Requires literal t.old.cells t.new.cells result }
{
    let module = t.module_for(literal.value)?;
    if let Some(n) = module {
        t.set_mark(n, Mark::Cjs);
    }
    Ok(module)
}

// The callee of the 65 written at o gets the export context of a module: its context stands behind two heads and a name.
pub fn set_callee(out: &mut [u8], o: usize, n: ModuleId)
    ensures { CalleeSet n.0 o out.old out.new }
{
    if 8 <= out.len() && o < out.len() - 8 {
        writer::put_u32(out, o + 8, n.export_ctxt().0);
    }
}
