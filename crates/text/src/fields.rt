// A line's fields, apart by single spaces.
ghost use Rattle.std.specs.Prelude.{◌<◌, ◌≡◌, length, IfSome, IfNone, option_copied};
ghost use Rattle.std.specs.Str.Iter.{HasSubslice};
ghost use Rattle.text.specs.Fields.{first_of, field_at};

// The place of the first b.
pub fn find(s: &[u8], b: u8) -> Option<usize>
    ensures found { IfSome result (λ i. i ≡ first_of b s.now) }
    ensures inside { IfSome result (λ i. i < length s.now) }
    ensures none { IfNone result (first_of b s.now ≡ length s.now) }
{
    s.iter().position(|x| *x == b)
}

// The field number k, from 0.
pub fn field(s: &[u8], k: usize) -> Option<&[u8]>
    ensures value { option_copied result ≡ field_at k s.now }
    ensures within { IfSome (option_copied result) (HasSubslice s.now) }
{
    s.split(|b| *b == b' ').nth(k)
}
