// The fixed bytes of a field as they stand in its line.
ghost use Rattle.std.specs.Prelude.{◌≡◌, drop, IfOk};

use std::{fmt, str};
use text::hex::Hex;
use tree::grammar::{Piece, Pieces, Value, pieces_of};

// What stands behind the bytes that were written.
pub type Behind<'a> = Result<&'a [u8], fmt::Error>;

// Writes the next n bytes, as many as there are, in hexadecimal behind a word.
pub fn put_run<'a, W: fmt::Write>(
    f: &mut fmt::Formatter<W>,
    word: &str,
    s: &'a [u8],
    n: usize,
) -> Behind<'a>
    ensures { IfOk result (λ behind. behind.now ≡ drop n s.now) }
{
    let (run, behind) = s.split_at(n.min(s.len()));
    write!(f, " {word}={}", Hex(run))?;
    Ok(behind)
}

// An atom, and four bytes behind another word.
pub fn put_two<'a, W: fmt::Write>(f: &mut fmt::Formatter<W>, word: &str, s: &'a [u8]) -> Behind<'a>
    ensures { IfOk result (λ behind. behind.now ≡ drop 6 s.now) }
{
    let behind = put_run(f, "a", s, 2)?;
    put_run(f, word, behind, 4)
}

// The next n bytes as they are, if they can be shown so: no control character, no space, nothing above ASCII.
fn put_text<'a, W: fmt::Write>(
    f: &mut fmt::Formatter<W>,
    word: &str,
    s: &'a [u8],
    n: usize,
) -> Behind<'a> {
    let (run, behind) = s.split_at(n.min(s.len()));
    match str::from_utf8(run) {
        Ok(text) if run.iter().all(|b| b.is_ascii_graphic()) => write!(f, " {word}=\"{text}\"")?,
        _ => write!(f, " {word}={}", Hex(run))?,
    }
    Ok(behind)
}

fn put_value<'a, W: fmt::Write>(
    f: &mut fmt::Formatter<W>,
    value: Value,
    s: &'a [u8],
) -> Behind<'a> {
    match value {
        Value::Empty => Ok(s),
        Value::Byte => put_run(f, "byte", s, 1),
        Value::Atom => put_run(f, "a", s, 2),
        Value::Id => put_two(f, "ctx", s),
        Value::Literal => put_two(f, "stamp", s),
        Value::Number => put_run(f, "bytes", s, 8),
    }
}

// What a kind byte chooses.
fn value_of(piece: Piece, kind: u8) -> Value {
    match (piece, kind) {
        (Piece::Plain(value), _) => value,
        (Piece::Source, 1) => Value::Literal,
        (Piece::Original, 1) | (Piece::Outside, 1) => Value::Id,
        (Piece::Original, _) | (Piece::Outside, 2) => Value::Atom,
        _ => Value::Empty,
    }
}

// The words of a kind byte, and what it chooses.
fn put_choice<'a, W: fmt::Write>(
    f: &mut fmt::Formatter<W>,
    word: &str,
    piece: Piece,
    s: &'a [u8],
) -> Behind<'a> {
    let [kind, behind @ ..] = s else {
        return Ok(s);
    };
    match *kind {
        0 => return Ok(behind),
        2 => write!(f, "{word} string")?,
        _ => write!(f, "{word}")?,
    }
    put_value(f, value_of(piece, *kind), behind)
}

// The kinds of an attribute's key and value, and both with the key's length in front.
fn put_attribute<'a, W: fmt::Write>(f: &mut fmt::Formatter<W>, s: &'a [u8]) -> Behind<'a> {
    let s = put_run(f, "kinds", s, 2)?;
    let [n, s @ ..] = s else {
        return Ok(s);
    };
    let s = put_text(f, "key", s, usize::from(*n))?;
    put_text(f, "value", s, s.len())
}

fn put_piece<'a, W: fmt::Write>(
    f: &mut fmt::Formatter<W>,
    piece: Piece,
    s: &'a [u8],
) -> Behind<'a> {
    match piece {
        Piece::Plain(value) => put_value(f, value, s),
        Piece::Source => put_choice(f, " from", piece, s),
        Piece::Original => put_choice(f, "", piece, s),
        Piece::Outside => put_choice(f, " as", piece, s),
        Piece::Spread => put_choice(f, " spread", piece, s),
        Piece::KeyValue => put_attribute(f, s),
    }
}

// Writes the fixed bytes of a field with this tag.
pub fn put_pieces<W: fmt::Write>(f: &mut fmt::Formatter<W>, tag: u8, s: &[u8]) -> fmt::Result {
    let Pieces { first, second } = pieces_of(tag);
    let s = put_piece(f, first, s)?;
    put_piece(f, second, s)?;
    Ok(())
}
