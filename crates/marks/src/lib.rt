// The closures of the partition objects, marked in lent words: bit q of a row's word says that the row goes to part q.
#![tactic(auto)]

ghost use Rattle.std.specs.Prelude.{◌+◌, ◌^◌, ◌<◌, ◌≡◌, [], length, get_or, set, replicate};
ghost use Rattle.std.specs.Int.Bits.{bit_or};
ghost use Rattle.residence.specs.Marks.{slots_named};
ghost use Rattle.paper.specs.Image.{row_at};
ghost use Rattle.rows.specs.Tables.{set_of};
ghost use Rattle.marks.specs.Closures.{RowKnown, Markable, Marked, closure_marks, Closed, Blank, Placed, object_marks, part_marks, AllMarked};

use paper::{Part, Slot};
use rows::Tables;

// Zero in every word.
pub fn clear(work: &mut [u64])
    ensures { work.new ≡ replicate (length work.old) 0 }
{
    work.fill(0);
}

// The word of a row with bit q.
fn put(row: usize, q: u32, work: &mut [u64])
    requires { (row < length work.old) × (q < 64) }
    ensures { work.new ≡ set work.old row (bit_or (get_or work.old row 0) (2 ^ q)) }
{
    work[row] = part_set::with(work[row], q);
}

// Entry i of the boundary of a row.
fn face(tables: &Tables, part: Part, slot: Slot, i: usize) -> Slot
    requires row_known { RowKnown tables.now.image.now tables.now.offs.now tables.now.starts.now part.0 slot.0 }
    requires i_in_bounds { i < length (slots_named (row_at (set_of tables.now) part.0 slot.0)) }
    ensures { result.0 ≡ get_or (slots_named (row_at (set_of tables.now) part.0 slot.0)) i 0 }
{
    let at = tables.offset_of(part, slot);
    Slot(field::word_at(tables.image, at + 24 + 4 * i))
}

// The closure of an entity is itself and the closures of its boundary: dim is that of the row, and falls at each call.
// A row gets its bit last, so the closure of a row that has the bit is marked already.
fn mark(tables: &Tables, part: Part, slot: Slot, dim: usize, q: u32, work: &mut [u64])
    requires { Markable tables.now.image.now tables.now.offs.now tables.now.starts.now part.0 slot.0 dim q work.old }
    ensures { Marked tables.now.image.now tables.now.starts.now part.0 (closure_marks tables.now.image.now part.0 dim slot.0 q) work.old work.new }
{
    let row = tables.row_of(part, slot);
    if part_set::has(work[row], q) {
        return;
    }
    if dim == 0 {
        put(row, q, work);
        return;
    }
    // `0..=dim` is slower.
    for i in 0..dim + 1 {
        let below = face(tables, part, slot, i);
        mark(tables, part, below, dim - 1, q, work);
    }
    put(row, q, work);
}

// The closure of a row that is an object, with the bit of its destination.
fn mark_object(
    tables: &Tables,
    covered: &[u8],
    dest: &[u8],
    part: Part,
    slot: Slot,
    work: &mut [u64],
)
    requires placed { Placed tables.now.image.now tables.now.offs.now tables.now.starts.now covered.now dest.now work.old }
    requires slot_in_bounds { slot.0 < length (get_or (set_of tables.now) part.0 []) }
    requires closed { Closed tables.now.image.now tables.now.starts.now part.0 work.old }
    ensures { Marked tables.now.image.now tables.now.starts.now part.0 (object_marks tables.now.image.now tables.now.starts.now covered.now dest.now part.0 slot.0) work.old work.new }
{
    let row = tables.row_of(part, slot);
    if covered[row] != 0 {
        return;
    }
    let at = tables.offset_of(part, slot);
    let dim = field::byte_at(tables.image, at + 4) as usize;
    mark(tables, part, slot, dim, u32::from(dest[row]), work);
}

// The closures of the objects of a part.
fn mark_part(tables: &Tables, covered: &[u8], dest: &[u8], part: Part, work: &mut [u64])
    requires placed { Placed tables.now.image.now tables.now.offs.now tables.now.starts.now covered.now dest.now work.old }
    requires part_in_bounds { part.0 < length (set_of tables.now) }
    requires closed { Closed tables.now.image.now tables.now.starts.now part.0 work.old }
    ensures { Marked tables.now.image.now tables.now.starts.now part.0 (part_marks tables.now.image.now tables.now.starts.now covered.now dest.now part.0) work.old work.new }
{
    for s in 0..tables.rows_in(part) {
        mark_object(tables, covered, dest, part, Slot(s), work);
    }
}

// The closures of all objects.
pub fn mark_all(tables: &Tables, covered: &[u8], dest: &[u8], work: &mut [u64])
    requires placed { Placed tables.now.image.now tables.now.offs.now tables.now.starts.now covered.now dest.now work.old }
    requires blank { Blank tables.now.image.now tables.now.starts.now work.old }
    ensures { AllMarked tables.now.image.now tables.now.starts.now covered.now dest.now work.old work.new }
{
    for p in 0..tables.parts {
        mark_part(tables, covered, dest, Part(p), work);
    }
}
