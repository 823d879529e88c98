// The new residence set of each entity, the union of the marks of its copies, and which entity each row is.
#![tactic(auto)]

ghost use Rattle.std.specs.Prelude.{◌≡◌, get_or, set};
ghost use Rattle.part_set.specs.Masks.{parts_in};
ghost use Rattle.plan.specs.Plan.{Masked, Numbered};
ghost use Rattle.homes.specs.Joining.{Joinable};
ghost use Rattle.homes.specs.CopyRows.{copy_rows, other_rows, joined, numbered, CopiesThere, EntityThere};

use paper::{Part, Slot};
use plan::Source;
use rows::Tables;

// The union of a set and the words of the rows in `others`, whose slots stand from `from` on; each row is marked as entity i.
fn join_copies(
    tables: &Tables,
    from: usize,
    others: u64,
    own: u64,
    i: u32,
    work: &[u64],
    ent: &mut [u32],
) -> u64
    requires { CopiesThere tables.now.image.now tables.now.starts.now from (parts_in others) work.now ent.old }
    ensures { (result ≡ joined work.now own (copy_rows tables.now.image.now tables.now.starts.now from (parts_in others))) × (ent.new ≡ numbered i ent.old (copy_rows tables.now.image.now tables.now.starts.now from (parts_in others))) }
{
    let mut at = from;
    let mut all = own;
    for part in part_set::parts(others) {
        let slot = Slot(field::word_at(tables.image, at));
        let row = tables.row_of(Part(part), slot);
        all = part_set::union(all, work[row]);
        ent[row] = i;
        at += 4;
    }
    all
}

// The union of the words of an entity's rows, each of which is marked as entity i. Its lowest row is row g, at `at`.
fn join_one(tables: &Tables, at: usize, g: usize, i: u32, work: &[u64], ent: &mut [u32]) -> u64
    requires { EntityThere tables.now.image.now tables.now.starts.now at g work.now ent.old }
    ensures { (result ≡ joined work.now (get_or work.now g 0) (other_rows tables.now.image.now tables.now.starts.now at)) × (ent.new ≡ numbered i (set ent.old g i) (other_rows tables.now.image.now tables.now.starts.now at)) }
{
    let others = part_set::rest(field::long_at(tables.image, at + 8));
    ent[g] = i;
    join_copies(tables, at + 48, others, work[g], i, work, ent)
}

// The new residence set of each entity, and the entity of each row. The contract alone reads the list, `covered` and `dest`.
pub fn join(
    source: &Source,
    list: &[u8],
    covered: &[u8],
    dest: &[u8],
    work: &[u64],
    masks: &mut [u64],
    ent: &mut [u32],
)
    requires { Joinable source.now.tables.image.now list.now source.now.tables.starts.now covered.now dest.now work.now masks.old ent.old source.now.tables.parts }
    ensures { Masked source.now.tables.image.now list.now masks.new × Numbered source.now.tables.image.now source.now.tables.starts.now ent.new }
{
    for i in 0..source.entities {
        let g = source.ord[i] as usize;
        let at = source.tables.offs[g] as usize;
        masks[i] = join_one(&source.tables, at, g, i as u32, work, ent);
    }
}
