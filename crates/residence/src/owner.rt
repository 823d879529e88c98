// Rule 12: an entity is owned by the poorest of its parts; and the partition objects of each part.
ghost use Rattle.std.specs.Prelude.{◌+◌, ◌≤◌, ◌<◌, ◌≡◌, cond, [], length, get_or, ltb, eqb};
ghost use Rattle.part_set.specs.Masks.{parts_in};
ghost use Rattle.rows.specs.Tables.{set_of};
ghost use Rattle.paper.specs.declared.Rule.TheVariants.{Owner};
ghost use Rattle.paper.specs.Sound.{judged};
ghost use Rattle.demands.specs.Passed.{PassedAhead};
ghost use Rattle.residence.specs.Tables.{Counted};
ghost use Rattle.residence.specs.Owners.{open_from, poorest_of, RowsCountable, OpenCounted};

use paper::{Part, Slot};
use rows::Tables;

// How many of `count` entries from `first` on are 0.
fn count_open(covered: &[u8], first: usize, count: u32) -> u32
    requires { first + count ≤ length covered.now }
    ensures { result ≡ open_from covered.now first count }
{
    // A chain of filter and count takes five times as long here.
    let mut found = 0;
    for &entry in &covered[first..first + count as usize] {
        found += u32::from(entry == 0);
    }
    found
}

// Writes how many rows of each part are not covered: its partition objects, of any dimension.
pub fn count_objects(starts: &[u32], covered: &[u8], n: u32, counts: &mut [u32])
    requires { RowsCountable starts.now covered.now n counts.old }
    ensures { OpenCounted starts.now covered.now n counts.old counts.new }
{
    for p in 0..n as usize {
        let first = starts[p];
        counts[p] = count_open(covered, first as usize, starts[p + 1] - first);
    }
}

// Of two parts the one with fewer objects; of equals the first.
fn poorer(counts: &[u32], p: u32, q: u32) -> u32
    requires { (p < length counts.now) × (q < length counts.now) }
    ensures { result ≡ cond (ltb (get_or counts.now q 0) (get_or counts.now p 0)) q p }
{
    if counts[q as usize] < counts[p as usize] {
        return q;
    }
    p
}

// The owner of an entity that resides in the parts of `mask`: of these the poorest, and of equals the first.
pub fn owner_of(mask: u64, counts: &[u32]) -> u32
    requires mask_nonzero { 0 < mask }
    requires in_bounds { 64 ≤ length counts.now }
    ensures { (result ≡ poorest_of counts.now (parts_in mask)) × (result < 64) }
{
    let mut best = part_set::lowest(mask);
    for part in part_set::parts(part_set::rest(mask)) {
        best = poorer(counts, best, part);
    }
    best
}

// Whether the row's owner is the one that its residence set gives.
pub fn owner(tables: &Tables, counts: &[u32], part: Part, slot: Slot) -> bool
    requires passed_ahead { PassedAhead Owner (set_of tables.now) }
    requires counted { Counted tables.now.image.now counts.now }
    requires slot_in_bounds { slot.0 < length (get_or (set_of tables.now) part.0 []) }
    ensures { result ≡ judged Owner (set_of tables.now) part.0 slot.0 }
{
    let at = tables.offset_of(part, slot);
    let mask = field::long_at(tables.image, at + 8);
    field::byte_at(tables.image, at + 5) == owner_of(mask, counts)
}
