// Numbers in decimal, of one to nine digits.
ghost use Rattle.text.specs.Fields.{field_at};
ghost use Rattle.text.specs.Decimal.{NumberRead, NumberIn};

use crate::fields::field;
use crate::hex::digit_of;

// The greatest digit.
const NINE: u8 = 9;

// The number whose digits these are.
pub fn read_decimal(s: &[u8]) -> Option<usize>
    ensures { NumberRead s.now result }
{
    if s.is_empty() || 9 < s.len() {
        return None;
    }
    let mut n = 0usize;
    for c in s {
        let digit = digit_of(*c)?;
        if NINE < digit {
            return None;
        }
        n = n * 10 + usize::from(digit);
    }
    Some(n)
}

// The number in the field k, from 0.
pub fn number_at(s: &[u8], k: usize) -> Option<usize>
    ensures { NumberIn (field_at k s.now) result }
{
    read_decimal(field(s, k)?)
}
