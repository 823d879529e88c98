// Little-endian fields of a slice of bytes: read and written, and the bits of a finite f64.
#![tactic(auto)]

ghost use Rattle.std.specs.Prelude.{ℕ, ◌+◌, ◌≤◌, ◌<◌, ◌≡◌, true, [], ◌∷◌, length, take, drop, replicate};
ghost use Rattle.std.proofs.lemmas.List.Edits.{sets};
ghost use Rattle.std.specs.Float.{binary64};
ghost use Rattle.std.specs.Float.Ieee.{of_bits};
ghost use Rattle.field.specs.Bytes.{u8_at, u16_at, u32_at, u64_at, bytes_of, finite};

pub fn byte_at(b: &[u8], at: usize) -> u32
    requires { at + 1 ≤ length b.now }
    ensures { (result ≡ u8_at b.now at) × (result < 256) }
{
    u32::from(b[at])
}

pub fn half_at(b: &[u8], at: usize) -> u32
    requires { at + 2 ≤ length b.now }
    ensures { (result ≡ u16_at b.now at) × (result < 65536) }
{
    u32::from(u16::from_le_bytes([b[at], b[at + 1]]))
}

pub fn word_at(b: &[u8], at: usize) -> u32
    requires { at + 4 ≤ length b.now }
    ensures { result ≡ u32_at b.now at }
{
    u32::from_le_bytes([b[at], b[at + 1], b[at + 2], b[at + 3]])
}

pub fn long_at(b: &[u8], at: usize) -> u64
    requires { at + 8 ≤ length b.now }
    ensures { result ≡ u64_at b.now at }
{
    u64::from_le_bytes([
        b[at],
        b[at + 1],
        b[at + 2],
        b[at + 3],
        b[at + 4],
        b[at + 5],
        b[at + 6],
        b[at + 7],
    ])
}

// A finite f64's exponent field is not all ones.
pub fn is_finite(bits: u64) -> bool
    ensures { result ≡ finite bits }
{
    bits / 4503599627370496 % 2048 != 2047
}

pub fn real(bits: u64) -> f64
    requires { finite bits ≡ true }
    ensures { result ≡ of_bits binary64 bits }
{
    f64::from_bits(bits)
}

// Four numbers as a byte each.
pub fn put_bytes(out: &mut [u8], at: usize, a: u32, b: u32, c: u32, d: u32)
    requires { (at + 4 ≤ length out.old) × (a < 256) × (b < 256) × (c < 256) × (d < 256) }
    ensures { out.new ≡ sets out.old at (a ∷ b ∷ c ∷ d ∷ []) }
{
    out[at] = a as u8;
    out[at + 1] = b as u8;
    out[at + 2] = c as u8;
    out[at + 3] = d as u8;
}

// The four bytes of v, the lowest first.
pub fn put_word(out: &mut [u8], at: usize, v: u32)
    requires { at + 4 ≤ length out.old }
    ensures { out.new ≡ sets out.old at (bytes_of 4 v) }
{
    out[at..at + 4].copy_from_slice(&v.to_le_bytes());
}

// The eight bytes of v.
pub fn put_long(out: &mut [u8], at: usize, v: u64)
    requires { at + 8 ≤ length out.old }
    ensures { out.new ≡ sets out.old at (bytes_of 8 v) }
{
    out[at..at + 8].copy_from_slice(&v.to_le_bytes());
}

// n zeros.
pub fn put_zeros(out: &mut [u8], at: usize, n: usize)
    requires { at + n ≤ length out.old }
    ensures { out.new ≡ sets out.old at (replicate n 0) }
{
    out[at..at + n].fill(0);
}

// n bytes of `from` from `at` on, put to out from `to` on.
pub fn copy(from: &[u8], at: usize, out: &mut [u8], to: usize, n: usize)
    requires { (at + n ≤ length from.now) × (to + n ≤ length out.old) }
    ensures { out.new ≡ sets out.old to (take n (drop at from.now)) }
{
    out[to..to + n].copy_from_slice(&from[at..at + n]);
}
