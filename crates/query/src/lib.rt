// Lookup and box: the residence set and the owner of an entity, and the least and greatest x, y, z of a part's vertices.
#![tactic(auto)]

ghost use Rattle.std.specs.Prelude.{◌+◌, ◌≤◌, ◌≡◌, [], ◌∷◌, length, T};
ghost use Rattle.paper.specs.Outcome.{accepted};
ghost use Rattle.paper.specs.Sound.{body_fitting};
ghost use Rattle.paper.specs.Lookup.{home_of};
ghost use Rattle.paper.specs.Box.{point_of};
ghost use Rattle.paper.specs.Answers.{lookup_answer};
ghost use Rattle.paper.specs.Promises.{LooksUp, Bounds};
ghost use Rattle.index.specs.Index.{row_from, Named};
ghost use Rattle.sound.specs.Stages.{SoundIndex};
ghost use Rattle.query.specs.Vertices.{box_within, vertices, further};

use paper::{Box, BoxAnswer, Home, LookupAnswer, Number, Part, Point, Slot, Unplaced};
use rows::Tables;

// The residence set and the owner of the row at `at`.
fn home_at(image: &[u8], at: usize) -> Home
    requires { at + 48 ≤ length image.now }
    ensures { lookup_answer (Ok result) ≡ accepted (home_of (row_from image.now at)) }
{
    Home {
        residence: field::long_at(image, at + 8),
        owner: Part(field::byte_at(image, at + 5)),
    }
}

// Looks for the entity's name in one part after the other. All copies agree, so the first one answers.
fn lookup_in(tables: &Tables, keys: &[u64], dimension: u8, number: Number) -> LookupAnswer
    requires sound_index { SoundIndex tables.now.image.now tables.now.offs.now tables.now.starts.now tables.now.parts }
    requires named { Named tables.now.image.now tables.now.starts.now keys.now }
    ensures { LooksUp tables.now.image.now dimension number.0 result }
{
    let name = index::name(u32::from(dimension), number.0);
    for p in 0..tables.parts {
        if let Ok(slot) = index::find(keys, tables.starts, Part(p), name) {
            let at = tables.offset_of(Part(p), slot);
            return Ok(home_at(tables.image, at));
        }
    }
    Err(Unplaced::NoSuchEntity.into())
}

// The coordinates of the vertex whose row is at `at`.
fn point_at(image: &[u8], at: usize) -> Point
    requires at_in_bounds { at + 48 ≤ length image.now }
    requires fits { T (body_fitting 0 (row_from image.now at).body) }
    ensures { result ≡ point_of (row_from image.now at) }
{
    Point {
        x: field::real(field::long_at(image, at + 24)),
        y: field::real(field::long_at(image, at + 32)),
        z: field::real(field::long_at(image, at + 40)),
    }
}

// The first vertex starts the box, and each later one grows it.
fn grown(extent: Option<Box>, p: Point) -> Box
    ensures { box_within (Some result) ≡ further (box_within extent) (p ∷ []) }
{
    match extent {
        None => Box {
            least: p,
            greatest: p,
        },
        Some(b) => b.grow(p),
    }
}

// The box so far, if there is one, grown by the row at `at` where that is a vertex.
fn with_row(extent: Option<Box>, image: &[u8], at: usize) -> Option<Box>
    requires at_in_bounds { at + 48 ≤ length image.now }
    requires fits { T (body_fitting (row_from image.now at).dim (row_from image.now at).body) }
    ensures { box_within result ≡ further (box_within extent) (vertices (row_from image.now at ∷ [])) }
{
    if field::byte_at(image, at + 4) == 0 {
        return Some(grown(extent, point_at(image, at)));
    }
    extent
}

// The box around the vertices of a part, in slot order.
fn box_in(tables: &Tables, part: Part) -> BoxAnswer
    requires { SoundIndex tables.now.image.now tables.now.offs.now tables.now.starts.now tables.now.parts }
    ensures { Bounds tables.now.image.now part.0 result }
{
    if tables.parts <= part.0 {
        return Err(Unplaced::NoSuchPart.into());
    }
    let rows = tables.rows_in(part);
    let mut extent = None;
    for s in 0..rows {
        let at = tables.offset_of(part, Slot(s));
        extent = with_row(extent, tables.image, at);
    }
    Ok(extent)
}

// The residence set and the owner of an entity. No entity has a dimension above 3.
pub fn lookup(image: &[u8], dimension: u8, number: Number) -> LookupAnswer
    ensures { LooksUp image.now dimension number.0 result }
{
    let mut offs = [0u32; paper::ROW_ENTRIES];
    let mut starts = [0u32; paper::PART_ENTRIES];
    let mut keys = [0u64; paper::ROW_ENTRIES];
    let sound = sound::survey(image, &mut offs, &mut starts, &mut keys)?;
    let tables = Tables {
        image,
        offs: &offs,
        starts: &starts,
        parts: sound.parts,
    };
    lookup_in(&tables, &keys, dimension, number)
}

// The least and greatest x, y, z of a part's vertices.
pub fn box_of(image: &[u8], part: Part) -> BoxAnswer
    ensures { Bounds image.now part.0 result }
{
    let mut offs = [0u32; paper::ROW_ENTRIES];
    let mut starts = [0u32; paper::PART_ENTRIES];
    let mut keys = [0u64; paper::ROW_ENTRIES];
    let sound = sound::survey(image, &mut offs, &mut starts, &mut keys)?;
    let tables = Tables {
        image,
        offs: &offs,
        starts: &starts,
        parts: sound.parts,
    };
    box_in(&tables, part)
}
