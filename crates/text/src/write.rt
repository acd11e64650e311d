// A text of at most N bytes. What has no room is left out.
ghost use Rattle.std.specs.Prelude.{◌≡◌, ◌≤◌, [], ◌∷◌, length};
ghost use Rattle.text.specs.Hex.{hexed, spelt};
ghost use Rattle.text.specs.Decimal.{NumberWritten};
ghost use Rattle.text.specs.Write.{Written};

use crate::hex::glyph_of;
use std::marker::Model;

#[derive(Drop)]
pub struct Text<const N: usize> {
    bytes: [u8; N],
    len: usize,
}

// Clauses see the bytes that are written.
impl<const N: usize> Model for Text<N> {
    ghost use Rattle.std.specs.Prelude.{ℕ, ◌≤◌, List, take};

    ghost Value = { List ℕ };

    ghost view = { λ t. take t.len t.bytes };

    ghost invariant = { λ t. t.len ≤ N };
}

impl<const N: usize> Text<N> {
    pub fn new() -> Self
        ensures { result ≡ [] }
    {
        Text {
            bytes: [0; N],
            len: 0,
        }
    }

    pub fn clear(&mut self)
        ensures { self.new ≡ [] }
    {
        self.len = 0;
    }

    pub fn as_bytes(&self) -> &[u8]
        ensures value { result.now ≡ self.now }
        ensures within { length result.now ≤ N }
    {
        &self.bytes[..self.len]
    }

    // Writes one byte.
    pub fn put(&mut self, b: u8)
        ensures { Written N self.old (b ∷ []) self.new }
    {
        if self.len < N {
            self.bytes[self.len] = b;
            self.len += 1;
        }
    }

    // Writes two bytes, one behind the other.
    fn put_two(&mut self, first: u8, second: u8)
        ensures { Written N self.old (first ∷ second ∷ []) self.new }
    {
        if 2 <= N - self.len {
            self.bytes[self.len] = first;
            self.bytes[self.len + 1] = second;
            self.len += 2;
        } else {
            self.put(first);
            self.put(second);
        }
    }

    // Writes all of s.
    pub fn put_all(&mut self, s: &[u8])
        ensures { Written N self.old s.now self.new }
    {
        for b in s {
            self.put(*b);
        }
    }

    // Writes the digits of the bytes.
    pub fn put_hex(&mut self, bytes: &[u8])
        ensures { Written N self.old (hexed bytes.now) self.new }
    {
        for b in bytes {
            self.put_two(glyph_of(b / 16), glyph_of(b % 16));
        }
    }

    // Writes the bytes as a field.
    pub fn put_bytes(&mut self, bytes: &[u8])
        ensures { Written N self.old (spelt bytes.now) self.new }
    {
        if bytes.is_empty() {
            self.put(b'-');
        } else {
            self.put_hex(bytes);
        }
    }

    // Writes n in decimal: what stands before its last digit, and that digit.
    pub fn put_decimal(&mut self, n: u64)
        ensures { NumberWritten N self.old n self.new }
    {
        if 10 <= n {
            self.put_decimal(n / 10);
        }
        self.put(glyph_of((n % 10) as u8));
    }
}
