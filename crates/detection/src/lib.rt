// Whether a module is an ES module. Port of `Es6ModuleDetector` and the `is_es6` expression in swc_bundler's `load.rs`.
#![tactic(auto)]

ghost use Rattle.std.specs.Prelude.{◌≡◌};
ghost use Rattle.tree.specs.declared.grammar.Set.TheVariants.{Module as module-set};
ghost use Rattle.tree.specs.Read.{read};
ghost use Rattle.tree.specs.Rows.{tree_of, fields_of};
ghost use Rattle.detection.specs.declared.DetectError.TheVariants.{Unread as unread};
ghost use Rattle.detection.specs.Detection.{first_ident, module_or_exports, other_here, found_other, found_other_in, forced_es6, es6, outcome_of, UnreadAs, detect, AcceptedIn};

use modes::Modes;
use scope::id::Atom;
use tree::grammar::Set;
use tree::layout::atom_at;
use tree::read::{Unread, read_tree};
use tree::row::{Part, Row};

// The most bytes of a tree.
const MOST: usize = 65538;

// Where a module's items start: it has no fixed bytes.
const ITEMS: usize = 3;

// Why nothing is detected.
#[derive(Clone, Copy, PartialEq, Eq)]
pub enum DetectError {
    // over 65,538 bytes
    TooLong,
    // no tree
    Unread(Unread),
}

impl From<Unread> for DetectError {
    ghost from_gives = { λ u e. e ≡ unread u };

    fn from(unread: Unread) -> DetectError {
        DetectError::Unread(unread)
    }
}

// The name of the first of the fields, if it is an identifier: a call's callee, a member's object.
fn first_ident(mut row: Row) -> Option<Atom>
    ensures { result ≡ first_ident (fields_of row.entry) }
{
    let part = row.next()?;
    part.fixed()?;
    if part.tag() == 0x60 {
        Some(Atom(atom_at(part.bytes, part.at + 3)))
    } else {
        None
    }
}

fn is_module_or_exports(name: Atom) -> bool
    ensures { result ≡ module_or_exports (Some name) }
{
    name == Atom::MODULE || name == Atom::EXPORTS
}

// Whether a field with this tag and these parts belongs to another module system, as `visit_member_expr` and `visit_call_expr` have it.
fn other_here(tag: u8, parts: Row) -> bool
    ensures { result ≡ other_here tag (fields_of parts.entry) }
{
    match tag {
        // a member, in any context
        0x63 => first_ident(parts).is_some_and(is_module_or_exports),
        // a call, whatever the name
        0x65 => first_ident(parts).is_some(),
        _ => false,
    }
}

// Whether a field, or one below it, belongs to another module system.
#[cycle(found_other_found_other_in)]
fn found_other(part: Part) -> bool
    ensures { result ≡ found_other (tree_of part.entry) }
{
    let Some(from) = part.fixed() else {
        return false;
    };
    other_here(part.tag(), part.row(from)) || found_other_in(part.row(from))
}

// The same for the fields of a row.
#[cycle(found_other_found_other_in)]
fn found_other_in(row: Row) -> bool
    ensures { result ≡ found_other_in (fields_of row.entry) }
{
    for part in row {
        if found_other(part) {
            return true;
        }
    }
    false
}

// Whether an import or an export is among the items, as `visit_module_decl` has it.
fn forced_es6(items: Row) -> bool
    requires { AcceptedIn items }
    ensures { result ≡ forced_es6 (fields_of items.entry) }
{
    for part in items {
        if let 0x10..=0x14 = part.tag() {
            return true;
        }
    }
    false
}

// The `is_es6` expression, for a module's items.
fn items_es6(modes: Modes, items: Row) -> bool
    requires { AcceptedIn items }
    ensures { result ≡ es6 modes (fields_of items.entry) }
{
    !modes.require || forced_es6(items) || !found_other_in(items)
}

// Whether a tree is an ES module. It is read first, also with require off.
pub fn is_es6(modes: Modes, tree: &[u8]) -> Result<bool, DetectError>
    ensures { (outcome_of result ≡ detect modes tree.now) × UnreadAs result (read module-set tree.now) }
{
    if tree.len() > MOST {
        return Err(DetectError::TooLong);
    }
    read_tree(tree, Set::Module)?;
    Ok(items_es6(modes, Row::new(tree, ITEMS, tree.len())))
}
