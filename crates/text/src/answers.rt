// The text for each answer of the check: a refusal's line, or the head and the lines of a sound set.
ghost use Rattle.std.specs.Prelude.{◌≤◌, length};
ghost use Rattle.paper.specs.Outcome.{accepted};
ghost use Rattle.paper.specs.Sound.{sound_of};
ghost use Rattle.paper.specs.Listing.{head_line, answer_text};
ghost use Rattle.paper.specs.declared.Rule.TheVariants.{Fields};
ghost use Rattle.demands.specs.Passed.{Passed};
ghost use Rattle.rows.specs.Tables.{set_of};
ghost use Rattle.decimal.specs.Writing.{Room, Wrote};
ghost use Rattle.text.specs.Lines.{refusal_line};

use crate::lines::{put_fields, put_set};
use decimal::writing::{put_byte, put_text};
use paper::Refusal;
use rows::Tables;

// The line of a refusal: `refused`, number, place.
fn put_refusal(out: &mut [u8], at: usize, refusal: Refusal) -> usize
    requires { Room at (refusal_line refusal.number refusal.major refusal.minor) }
    ensures { Wrote out.old at (refusal_line refusal.number refusal.major refusal.minor) out.new result }
{
    let numbers = [
        refusal.number as u64,
        refusal.major as u64,
        refusal.minor as u64,
    ];
    let word = put_text(out, at, b"refused");
    let feed = put_fields(out, word, &numbers);
    put_byte(out, feed, 10)
}

// The line of a set of n parts: mark, version, part count.
fn put_head(out: &mut [u8], at: usize, n: u32) -> usize
    requires { Room at (head_line n) }
    ensures { Wrote out.old at (head_line n) out.new result }
{
    let mark = put_text(out, at, b"DMP");
    let feed = put_fields(out, mark, &[1, n as u64]);
    put_byte(out, feed, 10)
}

// The text of a sound set.
fn put_sound(tables: &Tables, out: &mut [u8]) -> usize
    requires fits { Passed Fields (set_of tables.now) }
    requires room { Room 0 (answer_text (accepted (set_of tables.now))) }
    ensures { Wrote out.old 0 (answer_text (accepted (set_of tables.now))) out.new result }
{
    let rows = put_head(out, 0, tables.parts);
    put_set(tables, out, rows)
}

// The text for the answer of the check.
pub fn put_answer(image: &[u8], out: &mut [u8]) -> usize
    requires { length image.now ≤ 65536 }
    ensures { Wrote out.old 0 (answer_text (sound_of image.now)) out.new result }
{
    let mut offs = [0u32; paper::ROW_ENTRIES];
    let mut starts = [0u32; paper::PART_ENTRIES];
    let mut keys = [0u64; paper::ROW_ENTRIES];
    match sound::survey(image, &mut offs, &mut starts, &mut keys) {
        Err(refusal) => put_refusal(out, 0, refusal),
        Ok(sound) => {
            let tables = Tables {
                image,
                offs: &offs,
                starts: &starts,
                parts: sound.parts,
            };
            put_sound(&tables, out)
        }
    }
}
