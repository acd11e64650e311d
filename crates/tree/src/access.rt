// Where a field ends, and where its fixed bytes end: what every walk over the bytes goes by.
ghost use Rattle.std.specs.Prelude.{◌≡◌, ◌+◌, ◌≤◌, ◌<◌, length};
ghost use Rattle.tree.specs.Width.{value_width, width_at};
ghost use Rattle.tree.specs.Access.{value_at, choice_of, kind_at, key_at, piece_at, fixed_at, extent_at};

use crate::grammar::{Piece, Value, pieces_of};
use crate::layout::{ATOM, ID, LITERAL, skip};

// How many bytes a value takes.
fn value_width(v: Value) -> usize
    ensures { result ≡ value_width v }
{
    match v {
        Value::Empty => 0,
        Value::Byte => 1,
        Value::Atom => ATOM,
        Value::Id => ID,
        Value::Literal => LITERAL,
        Value::Number => 8,
    }
}

fn value_end(v: Value, at: usize, stop: usize) -> Option<usize>
    requires { at ≤ stop }
    ensures { result ≡ value_at v at stop }
{
    skip(at, value_width(v), stop)
}

// What a kind byte chooses.
#[tactic(auto, unfolding(crate::specs::Access::choice_of, crate::specs::Access::kinds))]
fn choice_of(p: Piece, b: u8) -> Option<Value>
    ensures { result ≡ choice_of p b }
{
    match p {
        Piece::Source => match b {
            0 => Some(Value::Empty),
            1 => Some(Value::Literal),
            _ => None,
        },
        Piece::Original => match b {
            1 => Some(Value::Id),
            2 => Some(Value::Atom),
            _ => None,
        },
        Piece::Outside => match b {
            0 => Some(Value::Empty),
            1 => Some(Value::Id),
            2 => Some(Value::Atom),
            _ => None,
        },
        Piece::Spread => match b {
            0 | 1 => Some(Value::Empty),
            _ => None,
        },
        Piece::Plain(_) | Piece::KeyValue => None,
    }
}

#[tactic(auto, unfolding(crate::specs::Access::kind_at, crate::specs::Access::on_choice))]
fn kind_end(s: &[u8], p: Piece, at: usize, stop: usize) -> Option<usize>
    requires { (at ≤ stop) × (stop ≤ length s.now) }
    ensures { result ≡ kind_at s.now p at stop }
{
    if at < stop {
        value_end(choice_of(p, s[at])?, at + 1, stop)
    } else {
        None
    }
}

// Of a key there are two kinds, 0 and 1, and of its value.
const LAST_KEY_KIND: u8 = 1;

const LAST_VALUE_KIND: u8 = 1;

#[tactic(auto, unfolding(crate::specs::Access::key_at))]
fn key_end(s: &[u8], at: usize, stop: usize) -> Option<usize>
    requires { (at ≤ stop) × (stop ≤ length s.now) }
    ensures { result ≡ key_at s.now at stop }
{
    if 3 <= stop - at
        && s[at] <= LAST_KEY_KIND
        && s[at + 1] <= LAST_VALUE_KIND
        && usize::from(s[at + 2]) <= stop - (at + 3)
    {
        Some(stop)
    } else {
        None
    }
}

#[tactic(auto, unfolding(crate::specs::Access::piece_at))]
fn piece_end(s: &[u8], p: Piece, at: usize, stop: usize) -> Option<usize>
    requires { (at ≤ stop) × (stop ≤ length s.now) }
    ensures { result ≡ piece_at s.now p at stop }
{
    match p {
        Piece::Plain(v) => value_end(v, at, stop),
        Piece::KeyValue => key_end(s, at, stop),
        _ => kind_end(s, p, at, stop),
    }
}

// How many fixed bytes each tag has; 9 where a kind byte chooses.
const WIDTHS: [u8; 256] = [
    0, 0, 0, 0, 0, 0, 0, 0, 0, 0, 0, 0, 0, 0, 0, 0, // 00 to 0F
    6, 9, 6, 0, 0, 0, 0, 0, 0, 0, 0, 0, 0, 0, 0, 0, // 10 to 1F
    9, 6, 6, 9, 6, 0, 0, 0, 0, 0, 0, 0, 0, 0, 0, 0, // 20 to 2F
    9, 0, 0, 0, 0, 0, 0, 0, 0, 0, 0, 0, 0, 0, 0, 0, // 30 to 3F
    0, 0, 0, 6, 0, 0, 0, 0, 0, 0, 0, 0, 0, 0, 0, 0, // 40 to 4F
    6, 0, 0, 2, 6, 0, 0, 0, 0, 0, 0, 0, 0, 0, 0, 0, // 50 to 5F
    6, 6, 8, 0, 0, 0, 0, 0, 0, 0, 0, 1, 0, 1, 0, 0, // 60 to 6F
    2, 0, 2, 0, 0, 9, 0, 6, 2, 0, 0, 0, 0, 0, 0, 0, // 70 to 7F
    6, 6, 6, 2, 0, 0, 0, 0, 0, 0, 0, 0, 0, 0, 0, 0, // 80 to 8F
    0, 0, 0, 0, 0, 0, 0, 0, 0, 0, 0, 0, 0, 0, 0, 0, // 90 to 9F
    0, 0, 0, 0, 0, 0, 0, 0, 0, 0, 0, 0, 0, 0, 0, 0, // A0 to AF
    0, 0, 0, 0, 0, 0, 0, 0, 0, 0, 0, 0, 0, 0, 0, 0, // B0 to BF
    0, 0, 0, 0, 0, 0, 0, 0, 0, 0, 0, 0, 0, 0, 0, 0, // C0 to CF
    0, 0, 0, 0, 0, 0, 0, 0, 0, 0, 0, 0, 0, 0, 0, 0, // D0 to DF
    0, 0, 0, 0, 0, 0, 0, 0, 0, 0, 0, 0, 0, 0, 0, 0, // E0 to EF
    0, 0, 0, 0, 0, 0, 0, 0, 0, 0, 0, 0, 0, 0, 0, 0, // F0 to FF
];

fn width_of(tag: u8) -> usize
    ensures { result ≡ width_at tag }
{
    usize::from(WIDTHS[usize::from(tag)])
}

// Where the spread byte at `at` of a 75 ends.
fn spread_end(s: &[u8], at: usize, stop: usize) -> Option<usize>
    requires { stop ≤ length s.now }
    ensures { result ≡ fixed_at s.now 0x75 at stop }
{
    if at < stop && s[at] < 2 {
        Some(at + 1)
    } else {
        None
    }
}

// The same as `fixed`, piece by piece: for tags with a kind byte. It is kept out of `fixed`, which is then short enough to stand in its
// callers.
#[inline(never)]
#[tactic(auto, unfolding(crate::specs::Access::fixed_at, crate::specs::Access::then_piece))]
pub fn pieces_end(s: &[u8], tag: u8, at: usize, stop: usize) -> Option<usize>
    requires { (at ≤ stop) × (stop ≤ length s.now) }
    ensures { result ≡ fixed_at s.now tag at stop }
{
    if tag == 0x75 {
        return spread_end(s, at, stop);
    }
    let ps = pieces_of(tag);
    piece_end(s, ps.second, piece_end(s, ps.first, at, stop)?, stop)
}

// Where the fixed bytes from `at` of a field with this tag end: its parts start there.
pub fn fixed(s: &[u8], tag: u8, at: usize, stop: usize) -> Option<usize>
    requires { (at ≤ stop) × (stop ≤ length s.now) }
    ensures { result ≡ fixed_at s.now tag at stop }
{
    let width = width_of(tag);
    if width < 9 {
        skip(at, width, stop)
    } else {
        pieces_end(s, tag, at, stop)
    }
}

// Where the field at `at` ends, if it is whole inside `end`: the next one starts there.
#[tactic(auto, unfolding(crate::specs::Access::extent_at, crate::specs::Access::length_at))]
pub fn extent(s: &[u8], at: usize, end: usize) -> Option<usize>
    requires { (at ≤ end) × (end ≤ length s.now) }
    ensures { result ≡ extent_at s.now at end }
{
    if 3 <= end - at {
        let n = u16::from_be_bytes([s[at + 1], s[at + 2]]);
        skip(at + 3, usize::from(n), end)
    } else {
        None
    }
}
