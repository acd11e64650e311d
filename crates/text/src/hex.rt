// Bytes in lowercase hexadecimal, two digits a byte; a field without bytes is `-`.
ghost use Rattle.std.specs.Prelude.{◌<◌, ◌≡◌, ◌/◌, Some, cond, length, vec_len};
ghost use Rattle.text.specs.Digits.{hex_digit_ascii};
ghost use Rattle.text.specs.Fields.{field_at};
ghost use Rattle.text.specs.Hex.{DigitIs, ByteIs, hexed, spelt, IsSpelt, NotSpelt, BytesPut, BytesPutFrom, BytesRead, BytesFrom};

use crate::fields::field;
use crate::write::Text;
use std::alloc::{AllocError, AllocFailed, Global};
use std::{fmt, str};

// The value of the digit c.
pub fn digit_of(c: u8) -> Option<u8>
    ensures { DigitIs c result }
{
    match c {
        b'0'..=b'9' => Some(c - b'0'),
        b'a'..=b'f' => Some(c - b'a' + 10),
        _ => None,
    }
}

const GLYPHS: [u8; 16] = *b"0123456789abcdef";

// The digit of the value v.
pub fn glyph_of(v: u8) -> u8
    requires { v < 16 }
    ensures { result ≡ hex_digit_ascii v }
{
    GLYPHS[usize::from(v)]
}

// The byte whose two digits these are.
fn byte_of(high: u8, low: u8) -> Option<u8>
    ensures { ByteIs high low result }
{
    Some(digit_of(high)? * 16 + digit_of(low)?)
}

// Why no bytes are read.
#[derive(Clone, Copy, PartialEq, Eq, Debug)]
pub enum BytesError {
    // The text is the spelling of no bytes.
    Malformed,
    OutOfMemory,
}

impl From<AllocError> for BytesError {
    ghost use Rattle.std.specs.Prelude.{◌≡◌};
    ghost use Rattle.text.specs.declared.hex.BytesError.TheVariants.{OutOfMemory};

    ghost from_gives = { λ _ e. e ≡ OutOfMemory };

    fn from(_e: AllocError) -> BytesError {
        BytesError::OutOfMemory
    }
}

impl From<AllocFailed<u8>> for BytesError {
    ghost use Rattle.std.specs.Prelude.{◌≡◌};
    ghost use Rattle.text.specs.declared.hex.BytesError.TheVariants.{OutOfMemory};

    ghost from_gives = { λ _ e. e ≡ OutOfMemory };

    fn from(_e: AllocFailed<u8>) -> BytesError {
        BytesError::OutOfMemory
    }
}

// Whether these are the digits of some bytes.
fn is_hex(s: &[u8]) -> bool
    ensures { cond result (IsSpelt hexed s.now) (NotSpelt hexed s.now) }
{
    let mut rest = s;
    while let [high, low, behind @ ..] = rest {
        let Some(_) = byte_of(*high, *low) else {
            return false;
        };
        rest = behind;
    }
    rest.is_empty()
}

// Puts the bytes whose digits these are at the front of `out`, and answers how many there are.
pub fn hex_into(s: &[u8], out: &mut [u8]) -> Option<usize>
    ensures { BytesPut hexed s.now out.old result out.new }
{
    let mut count = 0;
    let mut rest = s;
    while let [high, low, behind @ ..] = rest {
        let byte = byte_of(*high, *low)?;
        if out.len() <= count {
            return None;
        }
        out[count] = byte;
        count += 1;
        rest = behind;
    }
    if rest.is_empty() { Some(count) } else { None }
}

// The same for a field.
pub fn bytes_into(s: &[u8], out: &mut [u8]) -> Option<usize>
    ensures { BytesPut spelt s.now out.old result out.new }
{
    match s {
        b"-" => Some(0),
        [] => None,
        _ => hex_into(s, out),
    }
}

// The same for the field k, from 0.
pub fn bytes_at_into(s: &[u8], k: usize, out: &mut [u8]) -> Option<usize>
    ensures { BytesPutFrom (field_at k s.now) out.old result out.new }
{
    bytes_into(field(s, k)?, out)
}

// The bytes whose digits these are.
pub fn read_hex(alloc: Global, s: &[u8]) -> Result<Vec<u8>, BytesError>
    ensures { BytesRead hexed s.now result }
{
    let Ok(bytes) = vec![in alloc; 0; s.len() / 2] else {
        let spelt = is_hex(s);
        return Err(if spelt {
            BytesError::OutOfMemory
        } else {
            BytesError::Malformed
        });
    };
    fill_hex(s, bytes)
}

// The same in a buffer of half as many bytes as there are characters.
fn fill_hex(s: &[u8], mut bytes: Vec<u8>) -> Result<Vec<u8>, BytesError>
    requires { vec_len bytes ≡ length s.now / 2 }
    ensures { BytesRead hexed s.now result }
{
    match hex_into(s, &mut bytes) {
        Some(_) => Ok(bytes),
        None => Err(BytesError::Malformed),
    }
}

// The same for a field.
pub fn read_bytes(alloc: Global, s: &[u8]) -> Result<Vec<u8>, BytesError>
    ensures { BytesRead spelt s.now result }
{
    match s {
        b"-" => Ok(Vec::new(alloc)),
        [] => Err(BytesError::Malformed),
        _ => read_hex(alloc, s),
    }
}

// The bytes in the field k, from 0.
pub fn bytes_at(alloc: Global, s: &[u8], k: usize) -> Result<Vec<u8>, BytesError>
    ensures { BytesFrom (field_at k s.now) result }
{
    let Some(text) = field(s, k) else {
        return Err(BytesError::Malformed);
    };
    read_bytes(alloc, text)
}

// So many digits are written at once: a write for each byte takes far longer.
const DIGITS: usize = 128;

// Displays as the digits of the bytes.
#[derive(Clone, Copy)]
pub struct Hex<'a>(pub &'a [u8]);

impl fmt::Display for Hex<'_> {
    ghost output = { λ h. Some (hexed h.0.now) };

    fn fmt<W: fmt::Write>(&self, f: &mut fmt::Formatter<W>) -> fmt::Result {
        let mut digits = Text::<DIGITS>::new();
        for bytes in self.0.chunks(DIGITS / 2) {
            digits.clear();
            digits.put_hex(bytes);
            f.write_str(str::from_utf8(digits.as_bytes()).map_err(|_| fmt::Error)?)?;
        }
        Ok(())
    }
}

// Displays as the field of the bytes.
#[derive(Clone, Copy)]
pub struct Bytes<'a>(pub &'a [u8]);

impl fmt::Display for Bytes<'_> {
    ghost output = { λ b. Some (spelt b.0.now) };

    fn fmt<W: fmt::Write>(&self, f: &mut fmt::Formatter<W>) -> fmt::Result {
        let bytes = self.0;
        if bytes.is_empty() {
            return write!(f, "-");
        }
        write!(f, "{}", Hex(bytes))
    }
}
