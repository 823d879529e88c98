// Rule 10: the copies of a row that its residence set names agree with it, and every part that holds the entity is in the set.
#![tactic(auto)]

ghost use Rattle.std.specs.Prelude.{◌+◌, ◌≤◌, ◌<◌, ◌≡◌, [], length, get_or};
ghost use Rattle.laws.specs.Lists.{member, same};
ghost use Rattle.field.specs.Bytes.{longs};
ghost use Rattle.paper.specs.Sound.{remote_slot_of, twin_agrees};
ghost use Rattle.index.specs.Index.{row_from};
ghost use Rattle.index.specs.Find.{Searchable};
ghost use Rattle.paper.specs.declared.Rule.TheVariants.{Copies};
ghost use Rattle.paper.specs.Sound.{judged};
ghost use Rattle.copies.specs.Copies.{twins_agree, Ready, TwinAsked, are_same_fields, NameCompared, faces_agree, shapes_agree, ShapeThere, is_same_copy, RemoteThere, part_keys, holders_all_listed, AllSearchable};
ghost use Rattle.rows.specs.Tables.{set_of};
ghost use Rattle.rows.specs.Values.{RowValueStands};

use paper::{Part, Slot};
use rows::Tables;

// Do the rows at `at` and `to` have one name?
fn same_name(image: &[u8], at: usize, to: usize) -> bool
    requires { (at + 48 ≤ length image.now) × (to + 48 ≤ length image.now) }
    ensures { NameCompared (row_from image.now at) (row_from image.now to) result }
{
    index::name_at(image, at) == index::name_at(image, to)
}

// Do they have equal kinds, values, residence sets and owners?
fn same_fields(image: &[u8], at: usize, to: usize) -> bool
    requires at_in_bounds { (at + 48 ≤ length image.now) × (to + 48 ≤ length image.now) }
    requires at_stands { RowValueStands (row_from image.now at) }
    requires to_stands { RowValueStands (row_from image.now to) }
    ensures { result ≡ are_same_fields (row_from image.now at) (row_from image.now to) }
{
    let kind = field::byte_at(image, at + 6);
    let to_kind = field::byte_at(image, to + 6);
    let bits = field::long_at(image, at + 16);
    let to_bits = field::long_at(image, to + 16);
    let value = rows::values::one_value(kind, bits, to_kind, to_bits);
    let mask = field::long_at(image, at + 8) == field::long_at(image, to + 8);
    let owner = field::byte_at(image, at + 5) == field::byte_at(image, to + 5);
    value & mask & owner
}

// The coordinates of the vertex at `at`, by their bits.
fn point(image: &[u8], at: usize) -> [u64; 3]
    requires { at + 48 ≤ length image.now }
    ensures { result ≡ longs 3 (row_from image.now at).body }
{
    [
        field::long_at(image, at + 24),
        field::long_at(image, at + 32),
        field::long_at(image, at + 40),
    ]
}

// Do two vertices have equal coordinates, bit for bit?
fn same_point(image: &[u8], at: usize, to: usize) -> bool
    requires { (at + 48 ≤ length image.now) × (to + 48 ≤ length image.now) }
    ensures { result ≡ same (longs 3 (row_from image.now at).body) (longs 3 (row_from image.now to).body) }
{
    point(image, at) == point(image, to)
}

// Do the dim + 1 slots of two rows name rows of equal keys? The rows of their parts stand from row `here` and row `there` on.
fn same_faces(
    image: &[u8],
    keys: &[u64],
    here: usize,
    at: usize,
    there: usize,
    to: usize,
    dim: u32,
) -> bool
    requires dim_nonzero { 0 < dim }
    requires here_shape { ShapeThere image.now keys.now here at dim }
    requires there_shape { ShapeThere image.now keys.now there to dim }
    ensures { result ≡ faces_agree image.now keys.now here at there to dim }
{
    for i in 0..dim as usize + 1 {
        let face = here + field::word_at(image, at + 24 + 4 * i) as usize;
        let mate = there + field::word_at(image, to + 24 + 4 * i) as usize;
        if keys[face] != keys[mate] {
            return false;
        }
    }
    true
}

// Do two rows of dimension `dim` have equal coordinates, or equal boundaries?
fn same_shape(
    image: &[u8],
    keys: &[u64],
    here: usize,
    at: usize,
    there: usize,
    to: usize,
    dim: u32,
) -> bool
    requires here_shape { ShapeThere image.now keys.now here at dim }
    requires there_shape { ShapeThere image.now keys.now there to dim }
    ensures { result ≡ shapes_agree image.now keys.now here at there to dim }
{
    if dim == 0 {
        return same_point(image, at, to);
    }
    same_faces(image, keys, here, at, there, to, dim)
}

// Do the two rows hold the same entity, with an equal residence set and owner?
fn same_copy(tables: &Tables, keys: &[u64], part: Part, slot: Slot, other: Part, to: Slot) -> bool
    requires ready { Ready tables.now.image.now tables.now.offs.now tables.now.starts.now keys.now }
    requires slot_in_bounds { slot.0 < length (get_or (set_of tables.now) part.0 []) }
    requires to_in_bounds { to.0 < length (get_or (set_of tables.now) other.0 []) }
    ensures { result ≡ is_same_copy (set_of tables.now) part.0 slot.0 other.0 to.0 }
{
    let image = tables.image;
    let from = tables.offset_of(part, slot);
    let at = tables.offset_of(other, to);
    if !same_name(image, from, at) {
        return false;
    }
    if !same_fields(image, from, at) {
        return false;
    }
    let here = tables.row_of(part, Slot(0));
    let there = tables.row_of(other, Slot(0));
    let dim = field::byte_at(image, from + 4);
    same_shape(image, keys, here, from, there, at, dim)
}

// The slot that the row at `at`, of the part `own`, names in the part `other`.
pub fn remote_slot(image: &[u8], at: usize, own: Part, other: Part) -> Slot
    requires { RemoteThere image.now at own.0 other.0 }
    ensures { result.0 ≡ remote_slot_of (row_from image.now at) own.0 other.0 }
{
    let mask = field::long_at(image, at + 8);
    let i = part_set::place(mask, own.0, other.0) as usize;
    Slot(field::word_at(image, at + 48 + 4 * i))
}

// Does the row's copy in the part `other` agree with it, and name it back?
fn twin(tables: &Tables, keys: &[u64], part: Part, slot: Slot, other: Part) -> bool
    requires ready { Ready tables.now.image.now tables.now.offs.now tables.now.starts.now keys.now }
    requires twin_asked { TwinAsked tables.now.image.now part.0 slot.0 other.0 }
    ensures { result ≡ twin_agrees (set_of tables.now) part.0 slot.0 other.0 }
{
    let at = tables.offset_of(part, slot);
    let t = remote_slot(tables.image, at, part, other);
    if tables.rows_in(other) <= t.0 {
        return false;
    }
    if !same_copy(tables, keys, part, slot, other, t) {
        return false;
    }
    let to = tables.offset_of(other, t);
    remote_slot(tables.image, to, other, part).0 == slot.0
}

// Does each copy that the row's residence set names agree with it?
pub fn twins(tables: &Tables, keys: &[u64], part: Part, slot: Slot) -> bool
    requires ready { Ready tables.now.image.now tables.now.offs.now tables.now.starts.now keys.now }
    requires slot_in_bounds { slot.0 < length (get_or (set_of tables.now) part.0 []) }
    ensures { result ≡ twins_agree (set_of tables.now) part.0 slot.0 }
{
    let at = tables.offset_of(part, slot);
    let mask = field::long_at(tables.image, at + 8);
    let others = part_set::without(mask, part.0);
    for other in part_set::parts(others) {
        if !twin(tables, keys, part, slot, Part(other)) {
            return false;
        }
    }
    true
}

// Does a part hold the name?
fn holds(tables: &Tables, keys: &[u64], part: Part, name: u64) -> bool
    requires { Searchable keys.now tables.now.starts.now part.0 }
    ensures { result ≡ member name (part_keys keys.now tables.now.starts.now part.0) }
{
    index::find(keys, tables.starts, part, name).is_ok()
}

// Is each part that holds the name in the set?
fn holders_listed(tables: &Tables, keys: &[u64], mask: u64, name: u64) -> bool
    requires { AllSearchable keys.now tables.now.starts.now tables.now.parts }
    ensures { result ≡ holders_all_listed keys.now tables.now.starts.now tables.now.parts mask name }
{
    for q in 0..tables.parts {
        let held = holds(tables, keys, Part(q), name);
        if held & !part_set::has(mask, q) {
            return false;
        }
    }
    true
}

// Does each copy agree, and is every part that holds the entity in the residence set?
pub fn copies(tables: &Tables, keys: &[u64], part: Part, slot: Slot) -> bool
    requires ready { Ready tables.now.image.now tables.now.offs.now tables.now.starts.now keys.now }
    requires slot_in_bounds { slot.0 < length (get_or (set_of tables.now) part.0 []) }
    ensures { result ≡ judged Copies (set_of tables.now) part.0 slot.0 }
{
    if !twins(tables, keys, part, slot) {
        return false;
    }
    let at = tables.offset_of(part, slot);
    let mask = field::long_at(tables.image, at + 8);
    let name = index::name_at(tables.image, at);
    holders_listed(tables, keys, mask, name)
}
