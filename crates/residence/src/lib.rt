// Rule 11: an entity that is in several parts bounds another in each of them. It reads which rows are covered; rule 12, the owner, stands in
// a module of its own.
#![tactic(auto)]

pub mod covered;
pub mod owner;

ghost use Rattle.std.specs.Prelude.{◌<◌, ◌≡◌, [], length, get_or};
ghost use Rattle.part_set.specs.Masks.{parts_in};
ghost use Rattle.rows.specs.Tables.{set_of};
ghost use Rattle.paper.specs.declared.Rule.TheVariants.{Residence};
ghost use Rattle.paper.specs.Sound.{judged};
ghost use Rattle.demands.specs.Passed.{PassedAhead};
ghost use Rattle.residence.specs.Tables.{Covers};
ghost use Rattle.residence.specs.Marks.{copies_all_covered, CopiesThere};

use paper::{Part, Slot};
use rows::Tables;

// Whether the copies in the parts of `mask` are covered, whose slots stand from `at` on.
fn copies_covered(tables: &Tables, covered: &[u8], at: usize, mask: u64) -> bool
    requires { CopiesThere tables.now.image.now tables.now.starts.now covered.now at (parts_in mask) }
    ensures { result ≡ copies_all_covered tables.now.image.now tables.now.starts.now covered.now at (parts_in mask) }
{
    let mut to = at;
    for part in part_set::parts(mask) {
        let slot = Slot(field::word_at(tables.image, to));
        let row = tables.row_of(Part(part), slot);
        if covered[row] != 1 {
            return false;
        }
        to += 4;
    }
    true
}

// A row that is in one part passes, any other where it and all its copies are covered.
pub fn residence(tables: &Tables, covered: &[u8], part: Part, slot: Slot) -> bool
    requires passed_ahead { PassedAhead Residence (set_of tables.now) }
    requires covers { Covers tables.now.image.now tables.now.starts.now covered.now }
    requires slot_in_bounds { slot.0 < length (get_or (set_of tables.now) part.0 []) }
    ensures { result ≡ judged Residence (set_of tables.now) part.0 slot.0 }
{
    let at = tables.offset_of(part, slot);
    let mask = field::long_at(tables.image, at + 8);
    let others = part_set::without(mask, part.0);
    if others == 0 {
        return true;
    }
    let row = tables.row_of(part, slot);
    (covered[row] == 1) & copies_covered(tables, covered, at + 48, others)
}
