// Rule 7: every field of a row keeps to its layout. Rule 8: the rows of a part stand in the order of their names.
#![tactic(auto)]

ghost use Rattle.std.specs.Prelude.{◌+◌, ◌≤◌, ◌<◌, ◌≡◌, length, get_or};
ghost use Rattle.paper.specs.Sound.{value_fitting, body_fitting, fields_fit};
ghost use Rattle.index.specs.Index.{row_from};
ghost use Rattle.fields.specs.Order.{key_ascends};

use paper::{Part, Slot};
use rows::Tables;

// Kind 0 has no bits, kind 1 any, kind 2 those of a finite f64.
fn value_fits(kind: u32, bits: u64) -> bool
    ensures { result ≡ value_fitting kind bits }
{
    ((kind != 0) | (bits == 0)) & ((kind < 2) | field::is_finite(bits))
}

// A vertex has three finite coordinates.
fn point_fits(image: &[u8], at: usize) -> bool
    requires { at + 48 ≤ length image.now }
    ensures { result ≡ body_fitting 0 (row_from image.now at).body }
{
    let x = field::long_at(image, at + 24);
    let y = field::long_at(image, at + 32);
    let z = field::long_at(image, at + 40);
    field::is_finite(x) & field::is_finite(y) & field::is_finite(z)
}

// An edge has two slots, a triangle three, a tetrahedron four, and zeros behind them.
fn rest_is_zero(image: &[u8], at: usize, dim: u32) -> bool
    requires at_in_bounds { at + 48 ≤ length image.now }
    requires dim_nonzero { 0 < dim }
    ensures { dim ≤ 3 → result ≡ body_fitting dim (row_from image.now at).body }
{
    let third = field::word_at(image, at + 32);
    let fourth = field::word_at(image, at + 36);
    let last = field::long_at(image, at + 40);
    ((1 < dim) | (third == 0)) & ((2 < dim) | (fourth == 0)) & (last == 0)
}

fn body_fits(image: &[u8], at: usize, dim: u32) -> bool
    requires { at + 48 ≤ length image.now }
    ensures { dim ≤ 3 → result ≡ body_fitting dim (row_from image.now at).body }
{
    if dim == 0 {
        return point_fits(image, at);
    }
    rest_is_zero(image, at, dim)
}

// Dimension, owner, kind, the zero byte, the set's parts, own part in it, value and body of the row at `at`.
pub fn fields(image: &[u8], at: usize, n: u32, part: Part) -> bool
    requires at_in_bounds { at + 48 ≤ length image.now }
    requires n_bound { (n ≤ 64) × (part.0 < n) }
    ensures { result ≡ fields_fit n part.0 (row_from image.now at) }
{
    let dim = field::byte_at(image, at + 4);
    let owner = field::byte_at(image, at + 5);
    let kind = field::byte_at(image, at + 6);
    let pad = field::byte_at(image, at + 7);
    let mask = field::long_at(image, at + 8);
    let value = field::long_at(image, at + 16);
    let head = (dim <= 3) & (owner < n) & (kind <= 2) & (pad == 0);
    head & part_set::fits(mask, n)
        & part_set::has(mask, part.0)
        & value_fits(kind, value)
        & body_fits(image, at, dim)
}

// The first row of a part is in order, any other where its name is above that of the row before it.
pub fn order(tables: &Tables, keys: &[u64], part: Part, slot: Slot) -> bool
    requires part_in_bounds { part.0 < length tables.now.starts.now }
    requires slot_in_bounds { get_or tables.now.starts.now part.0 0 + slot.0 < length keys.now }
    ensures { result ≡ key_ascends keys.now tables.now.starts.now part.0 slot.0 }
{
    if slot.0 == 0 {
        return true;
    }
    let row = tables.row_of(part, slot);
    keys[row - 1] < keys[row]
}
