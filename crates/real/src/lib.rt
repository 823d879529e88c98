// A real number as a decimal that reads back as the same number: rounded to the fewest digits that keep it less than half a gap away, where the
// gap is that to the nearest other real. Nothing here knows of meshes.
#![tactic(auto)]

mod digits;
mod rounding;

ghost use Rattle.std.specs.Prelude.{◌≤◌, ◌<◌};

use decimal::writing::{put_byte, put_text};
use digits::{Digits, POINT};
use rounding::{FRACTIONS, NOT_FINITE};

// The digits before the point, from `start` on, or a 0 where there is none.
fn put_whole(digits: &Digits, start: usize, out: &mut [u8], at: usize) -> usize
    requires { at ≤ 1 }
    ensures { result ≤ 311 }
{
    if start < POINT {
        return put_text(out, at, &digits.places[start..POINT]);
    }
    put_byte(out, at, b'0')
}

// The point and the digits behind it, up to `end`, where there are any.
fn put_fraction(digits: &Digits, end: usize, out: &mut [u8], at: usize) -> usize
    requires end_bound { end ≤ 1385 }
    requires at_bound { at ≤ 311 }
    ensures { result ≤ 1387 }
{
    if end <= POINT {
        return at;
    }
    let fraction = put_byte(out, at, b'.');
    put_text(out, fraction, &digits.places[POINT..end])
}

// The digits on both sides of the point.
fn put_digits(number: Digits, out: &mut [u8], at: usize) -> usize
    requires { at ≤ 1 }
    ensures { result ≤ 1387 }
{
    let mut digits = number;
    let start = digits.first();
    let end = digits.last();
    digits.characters();
    let point = put_whole(&digits, start, out, at);
    put_fraction(&digits, end, out, point)
}

// The sign of a real with these bits, where it has one.
fn put_sign(bits: u64, out: &mut [u8]) -> usize
    ensures { result ≤ 1 }
{
    if bits >> 63 == 1 {
        return put_byte(out, 0, b'-');
    }
    0
}

// A real, from the front of the buffer on, and how many bytes it takes. A buffer of 1,387 bytes is long enough for any.
pub fn put_real(x: f64, out: &mut [u8]) -> usize
    ensures { result ≤ 1387 }
{
    if x.is_nan() {
        return put_text(out, 0, b"nan");
    }
    let bits = x.to_bits();
    let at = put_sign(bits, out);
    let exponent = bits / FRACTIONS % (NOT_FINITE + 1);
    if exponent == NOT_FINITE {
        return put_text(out, at, b"inf");
    }
    put_digits(rounding::of_size(bits % FRACTIONS, exponent), out, at)
}
