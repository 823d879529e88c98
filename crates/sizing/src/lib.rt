// Sizing of a migration: the refusals 1 to 18 and every number of the answer, with the tables that the new image is written from.
#![tactic(auto)]

ghost use Rattle.std.specs.Prelude.{◌≡◌, length};
ghost use Rattle.paper.specs.Image.{row_total};
ghost use Rattle.rows.specs.Tables.{set_of};
ghost use Rattle.moves.specs.Catalog.{Catalog};
ghost use Rattle.sizing.specs.Sizing.{SizesUp};
ghost use Rattle.sizing.specs.Steps.{SizingRooms, Empty, SurveyedBy, Judges, Movable, Relocated};

use moves::Order;
use paper::{Refusal, Unplaced};
use plan::Source;
use rows::Tables;

// The part count and the entities of the old image, and the answer's numbers.
#[derive(Clone, Copy)]
pub struct Fits {
    pub parts: u32,
    pub entities: usize,
    pub bytes: usize,
    pub rows: usize,
    pub moved: u32,
}

// The refusals 13 to 17: the entries of the list, then the words of the working buffer, of which each row wants one.
fn judge_list(
    source: &Source,
    list: &[u8],
    keys: &[u64],
    covered: &[u8],
    rows: usize,
    words: usize,
) -> Result<(), Refusal>
    requires catalog { Catalog (set_of source.now.tables) keys.now source.now.ord.now covered.now source.now.entities }
    requires rows_value { rows ≡ row_total (set_of source.now.tables) }
    ensures { Judges (set_of source.now.tables) list.now words result }
{
    let order = Order {
        keys,
        ord: source.ord,
        count: source.entities,
    };
    moves::list_rules(
        source.tables.image,
        list,
        &order,
        covered,
        source.tables.parts,
    )?;
    if words < rows {
        return Err(Unplaced::WorkTooShort.into());
    }
    Ok(())
}

// Places the objects anew and works out the new residence sets; the answer is how many objects change their part. The sets take the place of the
// names, which nothing reads any more.
fn relocate(
    source: &Source,
    list: &[u8],
    keys: &mut [u64],
    covered: &[u8],
    work: &mut [u64],
    ent: &mut [u32],
    counts: &mut [u32],
) -> u32
    requires surveyed { SurveyedBy source.now keys.old covered.now }
    requires movable { Movable source.now.tables.image.now list.now work.old ent.old counts.old }
    ensures { Relocated source.now.tables.image.now list.now source.now.tables.starts.now ent.new keys.new counts.new result }
{
    let mut dest = [0u8; paper::ROW_ENTRIES];
    places::destinations(source, list, keys, covered, &mut dest);
    let moved = places::tally(source, list, covered, &dest, counts);
    marks::mark_all(&source.tables, covered, &dest, work);
    homes::join(source, list, covered, &dest, work, keys, ent);
    moved
}

// Sizing of a sound image: the refusals 13 to 18, or all numbers. What is read is `source`; the other tables are each filled or overwritten.
fn size_sound(
    source: &Source,
    list: &[u8],
    keys: &mut [u64],
    covered: &[u8],
    rows: usize,
    work: &mut [u64],
    ent: &mut [u32],
    counts: &mut [u32],
) -> Result<Fits, Refusal>
    requires surveyed { SurveyedBy source.now keys.old covered.now }
    requires rows_value { rows ≡ row_total (set_of source.now.tables) }
    requires empty { Empty work.old ent.old counts.old }
    ensures { SizesUp source.now.tables.image.now list.now source.now.tables.offs.now source.now.tables.starts.now source.now.ord.now ent.new keys.new counts.new (length work.old) result }
{
    judge_list(source, list, keys, covered, rows, work.len())?;
    let moved = relocate(source, list, keys, covered, work, ent, counts);
    let parts = source.tables.parts;
    let entities = source.entities;
    let sizes = slots::sizes(keys, entities, parts);
    let bytes = sizes.bytes;
    if bytes > paper::IMAGE_BYTES {
        return Err(Unplaced::ResultTooLong.into());
    }
    Ok(Fits {
        parts,
        entities,
        bytes,
        rows: sizes.rows,
        moved,
    })
}

// Sizing: the refusals 1 to 18, or all numbers, with the tables that the new image is written from, each of which is filled here.
pub fn size(
    image: &[u8],
    list: &[u8],
    offs: &mut [u32],
    starts: &mut [u32],
    keys: &mut [u64],
    ord: &mut [u32],
    work: &mut [u64],
    ent: &mut [u32],
    counts: &mut [u32],
) -> Result<Fits, Refusal>
    requires sizing_rooms { SizingRooms offs.old starts.old keys.old ord.old }
    requires empty { Empty work.old ent.old counts.old }
    ensures { SizesUp image.now list.now offs.new starts.new ord.new ent.new keys.new counts.new (length work.old) result }
{
    let mut covered = [0u8; paper::ROW_ENTRIES];
    let examined = sound::examine(image, offs, starts, keys, &mut covered, ord)?;
    let tables = Tables {
        image,
        offs,
        starts,
        parts: examined.parts,
    };
    let source = Source {
        tables,
        ord,
        entities: examined.entities,
    };
    size_sound(
        &source,
        list,
        keys,
        &covered,
        examined.rows,
        work,
        ent,
        counts,
    )
}
