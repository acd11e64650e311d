// The grammar of document 01, section 'Tree': which fixed bytes and which parts a tag has.
ghost use Rattle.std.specs.Prelude.{◌≡◌, ◌-◌, ◌≤◌, ◌<◌};
ghost use Rattle.tree.specs.Packed.{unpack_rule, unpack_step, set_numbers, low_entries, high_entries, entry_at, sets_at};
ghost use Rattle.tree.specs.Grammar.{find, step_at, done_at, rule_of, pieces_of};
ghost use Rattle.tree.specs.Read.{top};
ghost use Rattle.tree.specs.declared.grammar.Set.TheVariants.{Module};
ghost use Rattle.tree.specs.Runs.{Answers, nibble_in};
ghost use Rattle.tree.specs.PackedPieces.{fixed_rows, first_pieces, second_pieces, piece_number};

use crate::grammar::Piece::*;
use crate::grammar::Value::*;

// Sets of tags.
#[derive(Clone, Copy, PartialEq, Eq)]
pub enum Set {
    Module,
    Item,
    Specifier,
    ExportSpecifier,
    Attributes,
    Attribute,
    Declaration,
    Statement,
    Declarator,
    Block,
    Pattern,
    PatternProperty,
    Expression,
    Callee,
    Target,
    Body,
    Member,
    SuperMember,
    Argument,
    Property,
    Records,
    Collected,
    Lazy,
    Dynamic,
    Forced,
}

// A place for parts: none, one, at most one, any number.
#[derive(Clone, Copy, PartialEq, Eq)]
pub enum Slot {
    Nothing,
    One(Set),
    Maybe(Set),
    Many(Set),
}

// The parts of a field: up to four slots in a row. What is left of a rule is again a rule.
#[derive(Clone, Copy, PartialEq, Eq)]
pub struct Rule {
    pub first: Slot,
    pub second: Slot,
    pub third: Slot,
    pub fourth: Slot,
}

// What a slot says to a tag: it is taken and the slot stays, or the slot is used up; the slot is passed over; refused.
#[derive(Clone, Copy, PartialEq, Eq)]
pub enum Fit {
    Stay,
    Used,
    Over,
    No,
}

// Bytes with no choice in them.
#[derive(Clone, Copy, PartialEq, Eq)]
pub enum Value {
    Empty,
    Byte,
    Atom,
    Id,
    Literal,
    Number,
}

// A piece of the fixed bytes: a value, or a kind byte with what it chooses.
#[derive(Clone, Copy, PartialEq, Eq)]
pub enum Piece {
    Plain(Value),
    // 0, or 1 and a literal
    Source,
    // 1 and an id, or 2 and an atom
    Original,
    // 0, or 1 and an id, or 2 and an atom
    Outside,
    // 0 or 1
    Spread,
    // key kind, value kind, key length, key, and the value up to the end
    KeyValue,
}

#[derive(Clone, Copy, PartialEq, Eq)]
pub struct Pieces {
    pub first: Piece,
    pub second: Piece,
}

// The number of a tag in a row of sixteen, four bits for each, the first one lowest.
pub fn nibble_of(row: u64, tag: u8) -> u8
    ensures { result ≡ nibble_in row tag }
{
    let column = tag % 16;
    ((row >> (4 * column)) % 16) as u8
}

// What fixed bytes sixteen tags have, as numbers.
fn fixed_row(row: u8) -> u64
    ensures { Answers fixed_rows row result }
{
    match row {
        1 => 0x353,
        2 => 0x8A889,
        3 => 0x7,
        4 => 0x8000,
        5 => 0x82008,
        6 => 0x10100000000438,
        7 => 0x280600202,
        8 => 0x2333,
        _ => 0,
    }
}

fn first_piece(n: u8) -> Piece
    ensures { Answers first_pieces n (piece_number result) }
{
    match n {
        1 => Plain(Byte),
        2 => Plain(Atom),
        3 => Plain(Literal),
        4 => Plain(Number),
        5 => Source,
        6 => Spread,
        7 => KeyValue,
        8 | 9 => Plain(Id),
        10 => Original,
        _ => Plain(Empty),
    }
}

fn second_piece(n: u8) -> Piece
    ensures { Answers second_pieces n (piece_number result) }
{
    match n {
        9 | 10 => Outside,
        _ => Plain(Empty),
    }
}

// What fixed bytes a tag has.
pub fn pieces_of(tag: u8) -> Pieces
    ensures { result ≡ pieces_of tag }
{
    let n = nibble_of(fixed_row(tag / 16), tag);
    let first = first_piece(n);
    let second = second_piece(n);
    Pieces { first, second }
}

// The code has rules packed: a byte for each slot, the first one lowest. A byte is the number of the slot's set, and 32 for one, 64 for
// at most one, 96 for any number; 0 is no slot.

// What the grammar says of a tag: a bit for each set that it is in, and above these 32 bits its packed rule. The bits from 25 on, which
// are of no set, go with those of the first set, as in `unpack_set`.
fn entry_of(tag: u8) -> u64
    ensures { result ≡ entry_at tag }
{
    if tag < 0x80 {
        low_entry(tag)
    } else {
        high_entry(tag)
    }
}

// Tags below 80. Each tag has an arm of its own, which makes the match a lookup.
fn low_entry(tag: u8) -> u64
    ensures { Answers low_entries tag result }
{
    match tag {
        0x01 => 0x61FE000001,
        0x02 => 0x7877767500100000,
        0x10 => 0x446200000002,
        0x11 => 0x6300000002,
        0x12 => 0x2,
        0x13 => 0x2600000002,
        0x14 => 0x2C00000002,
        0x20 => 0x4,
        0x21 => 0x4,
        0x22 => 0x4,
        0x23 => 0x8,
        0x24 => 0x8,
        0x2F => 0x6500000010,
        0x30 => 0x20,
        0x40 => 0x82,
        0x41 => 0x68000000C2,
        0x42 => 0x4C2A00000100,
        0x43 => 0x296A000000C2,
        0x44 => 0x2C00000082,
        0x45 => 0x6700008282,
        0x46 => 0x47272C00000082,
        0x47 => 0x4C00000082,
        0x48 => 0x272C00000082,
        0x50 => 0x4400,
        0x51 => 0x6A00000400,
        0x52 => 0x6B00000400,
        0x53 => 0x2A00000800,
        0x54 => 0x4C00000800,
        0x55 => 0x2C2A00000400,
        0x56 => 0x2A00000400,
        0x60 => 0xB000,
        0x61 => 0xB000,
        0x62 => 0xB000,
        0x63 => 0x302C0000F000,
        0x64 => 0x310000B000,
        0x65 => 0x722D0000B000,
        0x66 => 0x2C2E0000B000,
        0x67 => 0x2F6A0000B000,
        0x68 => 0x296A0000B000,
        0x69 => 0x730000B000,
        0x6A => 0x6C0000B000,
        0x6B => 0x2C2C0000B000,
        0x6C => 0x2C2C2C0000B000,
        0x6D => 0x2C0000B000,
        0x6E => 0x2C0000B000,
        0x70 => 0x30000,
        0x71 => 0x2C00030000,
        0x72 => 0x10000,
        0x73 => 0x2000,
        0x74 => 0x2000,
        0x75 => 0x2C00040000,
        0x77 => 0x80000,
        0x78 => 0x2C00080000,
        _ => 0,
    }
}

// Tags from 80 on. Apart, so that either table is dense.
fn high_entry(tag: u8) -> u64
    ensures { Answers high_entries tag result }
{
    match tag {
        0x80 => 0x6200200000,
        0x81 => 0x6200400000,
        0x82 => 0x800000,
        0x83 => 0x1000000,
        _ => 0,
    }
}

// The sets that a tag is in, a bit for each.
#[tactic(auto, unfolding(crate::specs::Packed::sets_at))]
fn sets_of(tag: u8) -> u32
    ensures { result ≡ sets_at tag }
{
    (entry_of(tag) % 4294967296) as u32
}

// The rule of a tag's parts.
pub fn rule_of(tag: u8) -> u32
    ensures { unpack_rule result ≡ rule_of tag }
{
    (entry_of(tag) / 4294967296) as u32
}

// What the rule says to the tag: the rule that is left behind it, or None where it is refused. Its slots are asked in turn.
pub fn step_by(whole: u32, tag: u8) -> Option<u32>
    ensures { unpack_step result ≡ step_at (unpack_rule whole) tag }
{
    let sets = sets_of(tag);
    let mut rule = whole;
    while rule != 0 {
        let slot = rule % 256;
        if slot != 0 {
            if (sets >> (slot % 32)) % 2 == 1 {
                return Some(if slot < 96 { rule / 256 } else { rule });
            }
            if slot < 64 {
                return None;
            }
        }
        rule /= 256;
    }
    None
}

// Nothing is lacking.
pub fn done(whole: u32) -> bool
    ensures { result ≡ done_at (unpack_rule whole) }
{
    let mut rule = whole;
    while rule != 0 {
        let slot = rule % 256;
        if slot != 0 && slot < 64 {
            return false;
        }
        rule /= 256;
    }
    true
}

// 32 and the number of a set.
fn set_number(set: Set) -> u32
    ensures { (set ≡ find (result - 32) set_numbers Module) × (32 ≤ result) × (result < 64) }
{
    32 + set as u32
}

// The rule of one field of a set.
pub fn root_rule(set: Set) -> u32
    ensures { unpack_rule result ≡ top set }
{
    set_number(set)
}
