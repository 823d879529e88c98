// The lines of a set: a line for each row, part by part.
ghost use Rattle.std.specs.Prelude.{[], ◌∷◌, ◌<◌, length, get_or, map};
ghost use Rattle.decimal.specs.Decimal.{decimal};
ghost use Rattle.paper.specs.Listing.{copy_text, row_line, part_lines, set_line_list};
ghost use Rattle.paper.specs.declared.Rule.TheVariants.{Fields};
ghost use Rattle.demands.specs.Passed.{Passed};
ghost use Rattle.index.specs.Index.{row_from};
ghost use Rattle.rows.specs.Tables.{set_of};
ghost use Rattle.decimal.specs.Writing.{Room, Wrote};
ghost use Rattle.text.specs.Lines.{spaced, copies_text, RowThere};

use decimal::writing::{put_byte, put_decimal, put_field};
use paper::{Part, Slot};
use rows::Tables;

// Each number behind a space.
pub fn put_fields(out: &mut [u8], at: usize, numbers: &[u64]) -> usize
    requires { Room at (spaced (map decimal numbers.now)) }
    ensures { Wrote out.old at (spaced (map decimal numbers.now)) out.new result }
{
    let mut to = at;
    for &number in numbers {
        to = put_field(out, to, number);
    }
    to
}

// A space and a remote copy as part:slot.
fn put_copy(out: &mut [u8], at: usize, part: Part, slot: Slot) -> usize
    requires { Room at (32 ∷ copy_text (part.0, slot.0)) }
    ensures { Wrote out.old at (32 ∷ copy_text (part.0, slot.0)) out.new result }
{
    let colon = put_field(out, at, part.0 as u64);
    let number = put_byte(out, colon, 58);
    put_decimal(out, number, slot.0 as u64)
}

// The remote copies of the row at `row`, which its part `own` holds.
fn put_copies(image: &[u8], row: usize, own: Part, out: &mut [u8], at: usize) -> usize
    requires row_there { RowThere image.now row own.0 }
    requires room { Room at (copies_text (row_from image.now row) own.0) }
    ensures { Wrote out.old at (copies_text (row_from image.now row) own.0) out.new result }
{
    let mask = field::long_at(image, row + 8);
    let mut from = row + 48;
    let mut to = at;
    for other in part_set::parts(part_set::without(mask, own.0)) {
        let slot = Slot(field::word_at(image, from));
        from += 4;
        to = put_copy(out, to, Part(other), slot);
    }
    to
}

// The line of the row at `row`, which is row `slot` of `part`.
fn put_row(image: &[u8], row: usize, part: Part, slot: Slot, out: &mut [u8], at: usize) -> usize
    requires row_there { RowThere image.now row part.0 }
    requires room { Room at (row_line part.0 slot.0 (row_from image.now row)) }
    ensures { Wrote out.old at (row_line part.0 slot.0 (row_from image.now row)) out.new result }
{
    let dim = field::byte_at(image, row + 4) as u64;
    let number = field::word_at(image, row) as u64;
    let mask = field::long_at(image, row + 8);
    let owner = field::byte_at(image, row + 5) as u64;
    let numbers = [slot.0 as u64, dim, number, mask, owner];
    let second = put_decimal(out, at, part.0 as u64);
    let copies = put_fields(out, second, &numbers);
    let feed = put_copies(image, row, part, out, copies);
    put_byte(out, feed, 10)
}

// The lines of the rows of a part.
fn put_part(tables: &Tables, part: Part, out: &mut [u8], at: usize) -> usize
    requires fits { Passed Fields (set_of tables.now) }
    requires part_in_bounds { part.0 < length (set_of tables.now) }
    requires room { Room at (part_lines part.0 (get_or (set_of tables.now) part.0 [])) }
    ensures { Wrote out.old at (part_lines part.0 (get_or (set_of tables.now) part.0 [])) out.new result }
{
    let rows = tables.rows_in(part);
    let mut to = at;
    for s in 0..rows {
        let row = tables.offset_of(part, Slot(s));
        to = put_row(tables.image, row, part, Slot(s), out, to);
    }
    to
}

// The lines of all parts.
pub fn put_set(tables: &Tables, out: &mut [u8], at: usize) -> usize
    requires fits { Passed Fields (set_of tables.now) }
    requires room { Room at (set_line_list (set_of tables.now)) }
    ensures { Wrote out.old at (set_line_list (set_of tables.now)) out.new result }
{
    let mut to = at;
    for p in 0..tables.parts {
        to = put_part(tables, Part(p), out, to);
    }
    to
}
