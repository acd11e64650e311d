// Ids, and as numbers: the atom's number times 2^32, plus the context's. Literals: their value, and where they stand.
ghost use Rattle.std.specs.Prelude.{◌≡◌, [], ◌∷◌, ◌++◌, ◌+◌, ◌/◌, ◌%◌, ◌<◌, ◌≤◌, length};
ghost use Rattle.tree.specs.Layout.{two, id_at, value_of};
ghost use Rattle.tree.specs.Tree.{encode, field, none};
ghost use Rattle.writer.specs.Wrote.{Wrote};
ghost use Rattle.state.specs.Cells.{id_limit, id_of, id_by};

use crate::{Literal, PER_ATOM};
use scope::id::{Atom, Id, SyntaxContext};
use tree::layout::{atom_at, context_at};

// An id as a number.
pub fn id_number(id: Id) -> u64
    ensures { (id_of result ≡ id_by id) × (result < id_limit) }
{
    let name = id.0;
    let c = id.1;
    (name.0 as u64) * PER_ATOM + (c.0 as u64)
}

// The id of a number.
pub fn numbered_id(n: u64) -> Id
    requires { n < id_limit }
    ensures { id_by result ≡ id_of n }
{
    Id(
        Atom((n / PER_ATOM) as u16),
        SyntaxContext((n % PER_ATOM) as u32),
    )
}

// The id at `at`.
pub fn id_at(s: &[u8], at: usize) -> Id
    requires { at + 6 ≤ length s.now }
    ensures { id_by result ≡ id_at s.now at }
{
    Id(Atom(atom_at(s, at)), SyntaxContext(context_at(s, at + 2)))
}

// The literal at `at`, which is known by a place.
pub fn literal_at(s: &[u8], at: usize, place: u32) -> Literal
    requires { at + 6 ≤ length s.now }
    ensures { (value_of (id_at s.now at) ≡ two result.value.0) × (result.place ≡ place) }
{
    Literal {
        value: Atom(atom_at(s, at)),
        place,
    }
}

// A literal as a number: its value times 2^32, plus its place.
pub fn literal_number(literal: Literal) -> u64
    ensures { (result / 4294967296 ≡ literal.value.0) × (result % 4294967296 ≡ literal.place) × (result < id_limit) }
{
    let value = literal.value;
    (value.0 as u64) * PER_ATOM + (literal.place as u64)
}

// The literal of a number.
pub fn numbered_literal(n: u64) -> Literal
    requires { n < id_limit }
    ensures { (result.value.0 ≡ n / 4294967296) × (result.place ≡ n % 4294967296) }
{
    Literal {
        value: Atom((n / PER_ATOM) as u16),
        place: (n % PER_ATOM) as u32,
    }
}

// Writes an id.
pub fn put_id(out: &mut [u8], o: usize, id: Id) -> usize
    ensures { Wrote out.old o (id_by id) out.new result }
{
    let name = id.0;
    let context = id.1;
    let c = writer::put_u16(out, o, name.0);
    writer::put_u32(out, c, context.0)
}

// Writes a 60.
pub fn put_ident(out: &mut [u8], o: usize, id: Id) -> usize
    ensures { Wrote out.old o (encode (field 0x60 (id_by id) none)) out.new result }
{
    let c = writer::open_field(out, o, 0x60);
    let p = put_id(out, c, id);
    writer::close_field(out, o, p);
    p
}

// Writes a 20 without outside name.
pub fn put_named(out: &mut [u8], o: usize, id: Id) -> usize
    ensures { Wrote out.old o (encode (field 0x20 (id_by id ++ 0 ∷ []) none)) out.new result }
{
    let c = writer::open_field(out, o, 0x20);
    let k = put_id(out, c, id);
    let p = writer::put(out, k, 0);
    writer::close_field(out, o, p);
    p
}
