// Where the objects go: the part of each object's row after the move, how many objects each part then has, and how many changed their part.
#![tactic(auto)]

ghost use Rattle.std.specs.Prelude.{ℕ, ◌+◌, ◌≤◌, ◌<◌, ◌≡◌, length, get_or};
ghost use Rattle.paper.specs.Move.{all_entries};
ghost use Rattle.index.specs.Index.{max_rows};
ghost use Rattle.plan.specs.Plan.{moved_count, Destined, Tallied};
ghost use Rattle.places.specs.Sending.{Sendable, Tallyable};
ghost use Rattle.places.specs.Counting.{ObjectsCountable, RowCounted, RowsCounted};
ghost use Rattle.places.specs.Sweep.{Stayed, EntryAhead, EntrySent, Addressed, Sent};

use moves::Order;
use paper::{Part, Slot};
use plan::Source;
use rows::Tables;

// Each row its own part.
fn stay(tables: &Tables, dest: &mut [u8])
    requires { max_rows + 1 ≤ length dest.old }
    ensures { Stayed tables.now.starts.now tables.now.parts dest.old dest.new }
{
    for p in 0..tables.parts {
        let first = tables.row_of(Part(p), Slot(0));
        let count = tables.rows_in(Part(p)) as usize;
        dest[first..first + count].fill(p as u8);
    }
}

// Sends the entity that entry i names to the entry's part, and answers its place.
fn send_entry(list: &[u8], order: &Order, from: usize, i: usize, dest: &mut [u8]) -> usize
    requires { EntryAhead list.now order.now.keys.now order.now.ord.now dest.old order.now.count from i }
    ensures { EntrySent list.now order.now.keys.now order.now.ord.now order.now.count i dest.old dest.new result }
{
    let j = order.seek(from, moves::name_of(list, i));
    dest[order.ord[j] as usize] = moves::part_of(list, i) as u8;
    j
}

// Sends each entity that the list names. The names of the list ascend, and those of the entities too: one sweep finds them all.
fn send(list: &[u8], order: &Order, dest: &mut [u8])
    requires addressed { Addressed list.now order.now.keys.now order.now.ord.now order.now.count }
    requires rows { (j : ℕ) → j < order.now.count → get_or order.now.ord.now j 0 < length dest.old }
    ensures { Sent list.now order.now.keys.now order.now.ord.now order.now.count (all_entries list.now) dest.old dest.new }
{
    let mut from = 0;
    for i in 0..moves::entries(list) {
        from = send_entry(list, order, from, i, dest);
    }
}

// Counts row g of part p where it is an object. Does it leave the part?
fn tally_row(g: usize, p: u32, covered: &[u8], dest: &[u8], counts: &mut [u32]) -> bool
    requires { ObjectsCountable covered.now dest.now counts.old g 1 }
    ensures { RowCounted covered.now dest.now p g counts.old counts.new result }
{
    if covered[g] != 0 {
        return false;
    }
    let q = u32::from(dest[g]);
    counts[q as usize] += 1;
    p != q
}

// Counts the `count` rows of part p from `first` on; how many leave the part.
fn tally_part(
    first: usize,
    count: usize,
    p: u32,
    covered: &[u8],
    dest: &[u8],
    counts: &mut [u32],
) -> u32
    requires { ObjectsCountable covered.now dest.now counts.old first count }
    ensures { RowsCounted covered.now dest.now p first count counts.old counts.new result }
{
    let mut left = 0;
    for s in 0..count {
        left += u32::from(tally_row(first + s, p, covered, dest, counts));
    }
    left
}

// The part of each row that is an object: its own, or the one that the list names. The contract alone reads `covered`.
pub fn destinations(source: &Source, list: &[u8], keys: &[u64], covered: &[u8], dest: &mut [u8])
    requires { Sendable source.now.tables.image.now list.now source.now.tables.starts.now keys.now covered.now source.now.ord.now dest.old source.now.entities }
    ensures { Destined source.now.tables.image.now list.now source.now.tables.starts.now covered.now dest.new }
{
    stay(&source.tables, dest);
    let order = Order {
        keys,
        ord: source.ord,
        count: source.entities,
    };
    send(list, &order, dest);
}

// How many objects each part gets, and how many change their part. The contract alone reads the list.
pub fn tally(source: &Source, list: &[u8], covered: &[u8], dest: &[u8], counts: &mut [u32]) -> u32
    requires { Tallyable source.now.tables.image.now list.now source.now.tables.starts.now covered.now dest.now counts.old source.now.tables.parts }
    ensures { Tallied source.now.tables.image.now list.now counts.new × (result ≡ moved_count source.now.tables.image.now list.now) }
{
    let tables = &source.tables;
    let mut left = 0;
    for p in 0..tables.parts {
        let first = tables.row_of(Part(p), Slot(0));
        let count = tables.rows_in(Part(p)) as usize;
        left += tally_part(first, count, p, covered, dest, counts);
    }
    left
}
