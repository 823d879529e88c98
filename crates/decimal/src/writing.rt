// Bytes, words and numbers in decimal, written into a lent buffer: each writer puts its bytes from `at` on, as far as the buffer has room for them,
// and answers where the next one goes on.
ghost use Rattle.std.specs.Prelude.{[], ◌∷◌};
ghost use Rattle.decimal.specs.Decimal.{decimal};
ghost use Rattle.decimal.specs.Writing.{Room, Wrote};

// One byte.
pub fn put_byte(out: &mut [u8], at: usize, v: u8) -> usize
    requires { Room at (v ∷ []) }
    ensures { Wrote out.old at (v ∷ []) out.new result }
{
    if at < out.len() {
        out[at] = v;
    }
    at + 1
}

// The bytes of a word.
pub fn put_text(out: &mut [u8], at: usize, text: &[u8]) -> usize
    requires { Room at text.now }
    ensures { Wrote out.old at text.now out.new result }
{
    let mut to = at;
    for &byte in text {
        to = put_byte(out, to, byte);
    }
    to
}

// A number in decimal.
pub fn put_decimal(out: &mut [u8], at: usize, v: u64) -> usize
    requires { Room at (decimal v) }
    ensures { Wrote out.old at (decimal v) out.new result }
{
    if v < 10 {
        return put_byte(out, at, b'0' + v as u8);
    }
    let last = put_decimal(out, at, v / 10);
    put_byte(out, last, b'0' + (v % 10) as u8)
}

// A space and a number in decimal.
pub fn put_field(out: &mut [u8], at: usize, v: u64) -> usize
    requires { Room at (32 ∷ decimal v) }
    ensures { Wrote out.old at (32 ∷ decimal v) out.new result }
{
    let number = put_byte(out, at, b' ');
    put_decimal(out, number, v)
}
