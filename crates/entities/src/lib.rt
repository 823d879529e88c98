// The rows of an image that are the lowest copy of their entity, in the order of their names: each entity once where the copies agree.
#![tactic(auto)]

ghost use Rattle.std.specs.Prelude.{◌+◌, ◌≤◌, ◌<◌, ◌≡◌, [], length, get_or};
ghost use Rattle.paper.specs.declared.Rule.TheVariants.{Fields};
ghost use Rattle.demands.specs.Passed.{Passed};
ghost use Rattle.index.specs.Index.{max_rows, Named};
ghost use Rattle.rows.specs.Tables.{set_of};
ghost use Rattle.entities.specs.LowestCopies.{is_low, Entities};
ghost use Rattle.entities.specs.Gathering.{PartRoom, PartGathered, Gathered};

use paper::{Part, Slot};
use rows::Tables;

// A name is there twice among the rows that are listed, of which there are `count`.
#[derive(Clone, Copy, Debug, PartialEq, Eq)]
pub struct Repeated {
    pub count: usize,
}

// Does the row stand in the lowest part of its residence set?
fn low(tables: &Tables, part: Part, slot: Slot) -> bool
    requires fields { Passed Fields (set_of tables.now) }
    requires slot_in_bounds { slot.0 < length (get_or (set_of tables.now) part.0 []) }
    ensures { result ≡ is_low (set_of tables.now) part.0 slot.0 }
{
    let mask = field::long_at(tables.image, tables.offset_of(part, slot) + 8);
    part_set::lowest(mask) == part.0
}

// Writes the lowest copies of a part behind the first `k` entries, and returns how many entries there are then. Each row is written,
// and stays where it is one of them.
fn gather_part(tables: &Tables, ord: &mut [u32], part: Part, k: usize) -> usize
    requires fields { Passed Fields (set_of tables.now) }
    requires part_room { PartRoom (set_of tables.now) part.0 k ord.old }
    ensures { PartGathered (set_of tables.now) tables.now.starts.now part.0 ord.old ord.new k result }
{
    let mut to = k;
    for s in 0..tables.rows_in(part) {
        ord[to] = tables.row_of(part, Slot(s)) as u32;
        to += usize::from(low(tables, part, Slot(s)));
    }
    to
}

// Writes the lowest copies of each part, part by part, and where those of each part begin with the total behind them; returns the total.
fn gather(tables: &Tables, ord: &mut [u32], st: &mut [u32]) -> usize
    requires fields { Passed Fields (set_of tables.now) }
    requires room { (max_rows + 1 ≤ length ord.old) × (65 ≤ length st.old) }
    ensures { Gathered (set_of tables.now) tables.now.starts.now ord.old st.old ord.new st.new tables.now.parts result }
{
    let mut k = 0;
    for p in 0..tables.parts {
        st[p as usize] = k as u32;
        k = gather_part(tables, ord, Part(p), k);
    }
    st[tables.parts as usize] = k as u32;
    k
}

// Lists the lowest copies of all parts in the order of their names at the front of `ord`, and tells how many there are, or that two of
// them have one name. `tmp` is room for the merge.
pub fn entities(
    tables: &Tables,
    keys: &[u64],
    ord: &mut [u32],
    tmp: &mut [u32],
) -> Result<usize, Repeated>
    requires fields { Passed Fields (set_of tables.now) }
    requires named { Named tables.now.image.now tables.now.starts.now keys.now }
    requires room { (max_rows + 1 ≤ length ord.old) × (max_rows + 1 ≤ length tmp.old) }
    ensures { Entities (set_of tables.now) tables.now.starts.now keys.now ord.old tmp.old ord.new tmp.new tables.now.parts result }
{
    let mut st = [0u32; paper::PART_ENTRIES];
    let count = gather(tables, ord, &mut st);
    merge::merge_runs(keys, ord, tmp, &mut st, tables.parts as usize);
    if merge::ascends(keys, ord, count) {
        Ok(count)
    } else {
        Err(Repeated { count })
    }
}
