// Numbers as text: written without leading zeros, and parsed as Rust's `u32` is.
ghost use Rattle.std.specs.Prelude.{◌≡◌};
ghost use Rattle.writer.specs.Wrote.{Wrote};
ghost use Rattle.metadata.specs.Decimal.{decimal, number_from, limited, unsigned, parsed};

// Writes n at o, and answers the position behind it.
pub fn put_decimal(out: &mut [u8], o: usize, n: u32) -> usize
    ensures { Wrote out.old o (decimal n) out.new result }
{
    if n < 10 {
        return writer::put(out, o, b'0' + n as u8);
    }
    let last = put_decimal(out, o, n / 10);
    writer::put(out, last, b'0' + (n % 10) as u8)
}

// What a text stands for.
pub fn parse(text: &[u8]) -> Option<u32>
    ensures { result ≡ parsed text.now }
{
    let digits = behind_plus(text);
    if digits.is_empty() {
        return None;
    }
    number_in(digits)
}

// The text without a plus at its front.
fn behind_plus(text: &[u8]) -> &[u8]
    ensures { result.now ≡ unsigned text.now }
{
    text.strip_prefix(b"+").unwrap_or(text)
}

// 'at most 4,294,967,295'
const GREATEST: u64 = 4294967295;

// The number of these digits. A text that is none is left where that shows, however long it is.
fn number_in(digits: &[u8]) -> Option<u32>
    ensures { result ≡ limited (number_from 0 digits.now) }
{
    let mut n: u64 = 0;
    for b in digits {
        if !b.is_ascii_digit() {
            return None;
        }
        n = n * 10 + u64::from(*b - b'0');
        if n > GREATEST {
            return None;
        }
    }
    Some(n as u32)
}
