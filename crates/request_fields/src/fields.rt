// What one field of a request spells, beside plain bytes: a flag, modes, a length, a file, a context.
ghost use Rattle.std.specs.Prelude.{IfOk};
ghost use Rattle.request_fields.specs.Spelled.{IsNumber, IsFlag, IsLength, IsFile, IsContext};

use crate::ParseError;
use std::alloc::Global;
use text::decimal::read_decimal;
use text::hex::read_bytes;

fn number_in(field: &[u8]) -> Result<usize, ParseError>
    ensures { IfOk result (IsNumber field.now) }
{
    read_decimal(field).ok_or(ParseError::Malformed)
}

// 0 or 1
pub fn flag_in(field: &[u8]) -> Result<bool, ParseError>
    ensures { IfOk result (IsFlag field.now) }
{
    match number_in(field)? {
        0 => Ok(false),
        1 => Ok(true),
        _ => Err(ParseError::Malformed),
    }
}

// modes as bits
pub fn modes_in(field: &[u8]) -> Result<u32, ParseError>
    ensures { IfOk result (IsNumber field.now) }
{
    u32::try_from(number_in(field)?).map_err(|_| ParseError::Malformed)
}

// The longest buffer.
pub const LONGEST: usize = 131_072;

// the length of a buffer
pub fn length_in(field: &[u8]) -> Result<usize, ParseError>
    ensures { IfOk result (IsLength field.now) }
{
    let length = number_in(field)?;
    if LONGEST < length {
        return Err(ParseError::Malformed);
    }
    Ok(length)
}

// a file, in two bytes
pub fn file_in(alloc: Global, field: &[u8]) -> Result<u16, ParseError>
    ensures { IfOk result (IsFile field.now) }
{
    match read_bytes(alloc, field)?.as_slice() {
        [high, low] => Ok(u16::from_be_bytes([*high, *low])),
        _ => Err(ParseError::Malformed),
    }
}

// a context in four bytes, or `-` for none
pub fn context_in(alloc: Global, field: &[u8]) -> Result<Option<u32>, ParseError>
    ensures { IfOk result (IsContext field.now) }
{
    match read_bytes(alloc, field)?.as_slice() {
        [] => Ok(None),
        [a, b, c, d] => Ok(Some(u32::from_be_bytes([*a, *b, *c, *d]))),
        _ => Err(ParseError::Malformed),
    }
}
