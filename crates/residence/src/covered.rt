// The table of covered rows: 1 for each row that some row of its part names on its boundary.
ghost use Rattle.std.specs.Prelude.{◌+◌, ◌≤◌, ◌<◌, ◌≡◌, [], length, get_or};
ghost use Rattle.laws.specs.Lists.{member};
ghost use Rattle.index.specs.Index.{row_from};
ghost use Rattle.rows.specs.Tables.{set_of};
ghost use Rattle.residence.specs.Tables.{slot_covered};
ghost use Rattle.residence.specs.Marks.{Marked, slots_named, RowStands, Standing, Blank, CoverFilled};

use paper::{Part, Slot};
use rows::Tables;

// Marks the slots that the row at `at` names; slot 0 of its part has entry `first`.
fn cover_row(image: &[u8], at: usize, first: usize, covered: &mut [u8])
    requires { RowStands image.now at first covered.old }
    ensures { Marked first (λ s. member s (slots_named (row_from image.now at))) covered.old covered.new }
{
    let dim = field::byte_at(image, at + 4) as usize;
    if dim == 0 {
        return;
    }
    // `0..=dim` is slower.
    for i in 0..dim + 1 {
        let slot = field::word_at(image, at + 24 + 4 * i) as usize;
        covered[first + slot] = 1;
    }
}

// Marks the slots that the rows of a part name.
fn cover_part(tables: &Tables, part: Part, covered: &mut [u8])
    requires standing { Standing tables.now.image.now tables.now.offs.now tables.now.starts.now tables.now.parts covered.old }
    requires part_lt_n { part.0 < tables.now.parts }
    ensures { Marked (get_or tables.now.starts.now part.0 0) (slot_covered (get_or (set_of tables.now) part.0 [])) covered.old covered.new }
{
    let first = tables.row_of(part, Slot(0));
    for s in 0..tables.rows_in(part) {
        let at = tables.offset_of(part, Slot(s));
        cover_row(tables.image, at, first, covered);
    }
}

// Marks every row that some row of its part names.
pub fn cover(tables: &Tables, covered: &mut [u8])
    requires { Blank tables.now.image.now tables.now.offs.now tables.now.starts.now tables.now.parts covered.old }
    ensures { CoverFilled tables.now.image.now tables.now.starts.now covered.old covered.new }
{
    for p in 0..tables.parts {
        cover_part(tables, Part(p), covered);
    }
}
