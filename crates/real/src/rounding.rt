// The decimal with the fewest digits that is nearer to a real than half the gap to the nearest other real.
ghost use Rattle.std.specs.Prelude.{◌<◌};

use crate::digits::{Digits, PLACES, POINT};

// A real's bits are its sign, 11 bits of exponent and 52 of fraction.
pub const FRACTIONS: u64 = 1 << 52;

// The exponent of what is no finite number.
pub const NOT_FINITE: u64 = 2047;

// number * 2 ^ (power - 1077), exactly.
fn scaled(number: u64, power: u64) -> Digits {
    let mut digits = Digits::whole(number, POINT);
    if power < 1077 {
        digits.halve_times(1077 - power);
    } else {
        digits.double_times(power - 1077);
    }
    digits
}

// Whether two numbers are less than `gap` apart.
fn near(a: &Digits, b: &Digits, gap: &Digits) -> bool {
    let mut above_a = *a;
    above_a.add(gap);
    let mut above_b = *b;
    above_b.add(gap);
    *a < above_b && *b < above_a
}

// The number with no digit from `end` on that is nearest.
fn rounded(exact: &Digits, end: usize) -> Digits {
    let mut digits = *exact;
    if end < PLACES {
        let next = digits.places[end];
        digits.clear(end);
        if next >= 5 {
            digits.add(&Digits::whole(1, end));
        }
    }
    digits
}

// The fewest digits of a number that is less than `gap` away: 17 are always enough.
fn shortest(exact: &Digits, gap: &Digits) -> Digits {
    let start = exact.first();
    for count in 1..17 {
        let digits = rounded(exact, start + count);
        if near(&digits, exact, gap) {
            return digits;
        }
    }
    rounded(exact, start + 17)
}

// How far from a real every number still reads back as it: half of the gap to the next one, or to the one below where that is smaller.
fn nearness(fraction: u64, exponent: u64) -> Digits
    requires { exponent < 2047 }
{
    if fraction == 0 && exponent > 1 {
        return scaled(1, exponent);
    }
    scaled(1, exponent + 1)
}

// The real with this fraction, of 52 bits, and this exponent, without its sign. Exponent 0 is that of the smallest reals, which have no bit
// before the fraction.
pub fn of_size(fraction: u64, exponent: u64) -> Digits
    requires fraction_bound { fraction < 4503599627370496 }
    requires exponent_bound { exponent < 2047 }
{
    if exponent == 0 {
        return shortest(&scaled(fraction, 3), &scaled(1, 2));
    }
    shortest(
        &scaled(FRACTIONS + fraction, exponent + 2),
        &nearness(fraction, exponent),
    )
}
