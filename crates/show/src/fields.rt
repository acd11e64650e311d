// The fields of a tree or a resolved list in order, one a line, each behind two spaces for each level.
ghost use Rattle.std.specs.Prelude.{◌≡◌, ◌+◌, ◌≤◌, length, IfSome};

use crate::buffer::split_front;
use crate::cut::Line;
use crate::names::name_of;
use crate::resolved::{fixed_of, put_fixed};
use std::fmt;

// How deep fields are shown inside others. Reading refuses what is deeper; bytes that it refuses are shown in one row from there on,
// so that the recursion ends early.
const DEEPEST: usize = 65;

// Displays as the fields, up to the first that is not whole.
#[derive(Clone, Copy)]
pub struct Fields<'a>(pub &'a [u8]);

impl fmt::Display for Fields<'_> {
    fn fmt<W: fmt::Write>(&self, f: &mut fmt::Formatter<W>) -> fmt::Result {
        put_fields(f, self.0, 0)?;
        Ok(())
    }
}

// The field at the front: its fixed bytes, the fields inside it, and what stands behind it.
#[derive(Clone, Copy)]
struct Field<'a> {
    tag: u8,
    fixed: &'a [u8],
    inside: &'a [u8],
    behind: &'a [u8],
}

fn first_field(s: &[u8]) -> Option<Field<'_>>
    ensures { IfSome result (λ f. 3 + length f.fixed.now + length f.inside.now + length f.behind.now ≡ length s.now) }
{
    let (field, behind) = split_front(s)?;
    let tag = field[0];
    let from = fixed_of(field, tag, 3, field.len())?;
    Some(Field {
        tag,
        fixed: &field[3..from],
        inside: &field[from..],
        behind,
    })
}

// Writes the fields at a depth, and answers whether all are whole.
fn put_fields<W: fmt::Write>(
    f: &mut fmt::Formatter<W>,
    s: &[u8],
    depth: usize,
) -> Result<bool, fmt::Error>
    requires { depth ≤ 65 }
{
    let mut rest = s;
    while !rest.is_empty() {
        let Some(field) = first_field(rest) else {
            return Ok(false);
        };
        put_field(f, field, depth)?;
        if depth == DEEPEST {
            rest = &rest[3 + field.fixed.len()..];
            continue;
        }
        if !put_fields(f, field.inside, depth + 1)? {
            return Ok(false);
        }
        rest = field.behind;
    }
    Ok(true)
}

// Writes the line of one field.
fn put_field<W: fmt::Write>(
    f: &mut fmt::Formatter<W>,
    field: Field<'_>,
    depth: usize,
) -> fmt::Result {
    let mut line = fmt::Formatter::new(Line::new(f));
    for _ in 0..depth {
        write!(line, "  ")?;
    }
    write!(line, "{:02X}", field.tag)?;
    if let Some(name) = name_of(field.tag) {
        write!(line, " {name}")?;
    }
    put_fixed(&mut line, field.tag, field.fixed)?;
    writeln!(f)
}
