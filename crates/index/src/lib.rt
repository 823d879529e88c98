// The index of an image: refusals 1 to 6, the offset and the name of every row, the first row of every part, and the search in a part.
#![tactic(auto)]

ghost use Rattle.std.specs.Prelude.{◌+◌, ◌*◌, ◌≤◌, ◌≡◌, length};
ghost use Rattle.paper.specs.Image.{row_length_of};
ghost use Rattle.paper.specs.Sound.{name_of_row};
ghost use Rattle.index.specs.Index.{row_from};
ghost use Rattle.paper.specs.Sound.{marked, parts_counted};
ghost use Rattle.index.specs.Head.{head_number, head_answer};
ghost use Rattle.index.specs.Find.{Searchable, Sought};
ghost use Rattle.index.specs.Walk.{RowsAhead, RowsWalked, Walkable, WalkDone};

use paper::{Part, Slot, Unplaced};

// Whether the image starts with its mark.
fn has_mark(image: &[u8]) -> bool
    ensures { result ≡ marked image.now }
{
    image.starts_with(b"DMP")
}

// Whether the image has 1 to 64 parts, and two zeros behind their count.
fn has_count(image: &[u8]) -> bool
    requires { 8 ≤ length image.now }
    ensures { result ≡ parts_counted image.now }
{
    let count = field::byte_at(image, 5);
    (0 < count) & (count <= 64) & (field::half_at(image, 6) == 0)
}

// The first refusal of the image's head, if it has one.
pub fn head(image: &[u8]) -> Result<(), Unplaced>
    ensures { head_answer result ≡ head_number image.now }
{
    if paper::IMAGE_BYTES < image.len() {
        return Err(Unplaced::ImageTooLong);
    }
    if image.len() < 8 {
        return Err(Unplaced::ImageTooShort);
    }
    if !has_mark(image) {
        return Err(Unplaced::WrongMark);
    }
    if field::half_at(image, 3) != 1 {
        return Err(Unplaced::WrongVersion);
    }
    if !has_count(image) {
        return Err(Unplaced::WrongCount);
    }
    Ok(())
}

// How many bytes a row takes whose residence set is `mask`.
pub fn row_length(mask: u64) -> usize
    ensures { (result ≡ row_length_of mask) × (result ≤ 300) }
{
    let parts = part_set::count(mask) as usize;
    if parts < 2 {
        return 48;
    }
    44 + 4 * parts
}

// The name of an entity, which orders the rows of a part: its dimension above its number.
pub fn name(dim: u32, number: u32) -> u64
    ensures { result ≡ dim * 4294967296 + number }
{
    dim as u64 * 4294967296 + number as u64
}

// The name of the row at `at`.
pub fn name_at(image: &[u8], at: usize) -> u64
    requires { at + 8 ≤ length image.now }
    ensures { result ≡ name_of_row (row_from image.now at) }
{
    name(field::byte_at(image, at + 4), field::word_at(image, at))
}

// Writes the offset and the name of each of `count` rows from `at` on, the first of them as row `first`. Where they end, and nothing if
// they run past the image.
fn walk_rows(
    image: &[u8],
    offs: &mut [u32],
    keys: &mut [u64],
    first: usize,
    count: usize,
    at: usize,
) -> Option<usize>
    requires { RowsAhead image.now offs.old keys.old first count at }
    ensures { RowsWalked image.now first count at offs.old keys.old offs.new keys.new result }
{
    let mut to = at;
    for i in first..first + count {
        if image.len() < to + 48 {
            return None;
        }
        offs[i] = to as u32;
        keys[i] = name_at(image, to);
        to += row_length(field::long_at(image, to + 8));
    }
    if image.len() < to {
        return None;
    }
    Some(to)
}

// Writes the offset and the name of each row, and the first row of each part with the total behind them. How many rows there are, and
// nothing if the parts do not fill the image.
pub fn walk(image: &[u8], offs: &mut [u32], starts: &mut [u32], keys: &mut [u64]) -> Option<usize>
    requires { Walkable image.now offs.old starts.old keys.old }
    ensures { WalkDone image.now offs.old starts.old keys.old offs.new starts.new keys.new result }
{
    let n = field::byte_at(image, 5) as usize;
    let mut at = 8;
    let mut row = 0;
    for p in 0..n {
        starts[p] = row as u32;
        if image.len() < at + 4 {
            return None;
        }
        let count = field::word_at(image, at) as usize;
        at = walk_rows(image, offs, keys, row, count, at + 4)?;
        row += count;
    }
    starts[n] = row as u32;
    if at == image.len() {
        return Some(row);
    }
    None
}

// The slot of the row of `part` that has this name, or the slot where it would stand.
pub fn find(keys: &[u64], starts: &[u32], part: Part, name: u64) -> Result<Slot, Slot>
    requires { Searchable keys.now starts.now part.0 }
    ensures { Sought keys.now starts.now part.0 name result }
{
    let p = part.0 as usize;
    let names = &keys[starts[p] as usize..starts[p + 1] as usize];
    match names.binary_search(&name) {
        Ok(i) => Ok(Slot(i as u32)),
        Err(i) => Err(Slot(i as u32)),
    }
}
