// The face: the public functions with C's calling convention, and nothing else. Every number that an answer does not set is 0.
#![tactic(auto)]

ghost use Rattle.std.specs.Prelude.{◌≡◌};
ghost use Rattle.paper.specs.Answers.{check_answer, migrate_answer, lookup_answer, box_answer};
ghost use Rattle.paper.specs.Sound.{check_of};
ghost use Rattle.paper.specs.Lookup.{lookup_of};
ghost use Rattle.paper.specs.Box.{box_asked};
ghost use Rattle.composthum.specs.Numbers.{checked_of, migrated_of, HandsBack, found_of, boxed_of};

use paper::{BoxAnswer, CheckAnswer, LookupAnswer, MigrateAnswer, Number, Part};

#[repr(C)]
#[derive(Clone, Copy, Default)]
pub struct Checked {
    pub refusal: u32,
    pub major: u32,
    pub minor: u32,
    pub parts: u32,
    pub rows: u32,
}

#[repr(C)]
#[derive(Clone, Copy, Default)]
pub struct Migrated {
    pub refusal: u32,
    pub major: u32,
    pub minor: u32,
    pub length: u32,
    pub rows: u32,
    pub moved: u32,
}

#[repr(C)]
#[derive(Clone, Copy, Default)]
pub struct Found {
    pub refusal: u32,
    pub major: u32,
    pub minor: u32,
    pub owner: u32,
    pub residence: u64,
}

// `any` is 0 where the part has no vertex.
#[repr(C)]
#[derive(Clone, Copy, Default)]
pub struct Boxed {
    pub refusal: u32,
    pub major: u32,
    pub minor: u32,
    pub any: u32,
    pub least: [f64; 3],
    pub greatest: [f64; 3],
}

impl From<CheckAnswer> for Checked {
    ghost from_gives = { λ answer told. told ≡ checked_of (check_answer answer) };

    fn from(answer: CheckAnswer) -> Checked {
        match answer {
            Err(refusal) => Checked {
                refusal: refusal.number,
                major: refusal.major,
                minor: refusal.minor,
                ..Checked::default()
            },
            Ok(sound) => Checked {
                parts: sound.parts,
                rows: sound.rows,
                ..Checked::default()
            },
        }
    }
}

impl From<MigrateAnswer> for Migrated {
    ghost from_gives = { λ answer told. told ≡ migrated_of (migrate_answer answer) };

    fn from(answer: MigrateAnswer) -> Migrated {
        match answer {
            Err(refusal) => Migrated {
                refusal: refusal.number,
                major: refusal.major,
                minor: refusal.minor,
                ..Migrated::default()
            },
            Ok(sizes) => Migrated {
                length: sizes.length,
                rows: sizes.rows,
                moved: sizes.moved,
                ..Migrated::default()
            },
        }
    }
}

impl From<LookupAnswer> for Found {
    ghost from_gives = { λ answer told. told ≡ found_of (lookup_answer answer) };

    fn from(answer: LookupAnswer) -> Found {
        match answer {
            Err(refusal) => Found {
                refusal: refusal.number,
                major: refusal.major,
                minor: refusal.minor,
                ..Found::default()
            },
            Ok(home) => Found {
                owner: home.owner.0,
                residence: home.residence,
                ..Found::default()
            },
        }
    }
}

impl From<BoxAnswer> for Boxed {
    ghost from_gives = { λ answer told. told ≡ boxed_of (box_answer answer) };

    fn from(answer: BoxAnswer) -> Boxed {
        match answer {
            Err(refusal) => Boxed {
                refusal: refusal.number,
                major: refusal.major,
                minor: refusal.minor,
                ..Boxed::default()
            },
            Ok(None) => Boxed::default(),
            Ok(Some(b)) => Boxed {
                any: 1,
                least: [b.least.x, b.least.y, b.least.z],
                greatest: [b.greatest.x, b.greatest.y, b.greatest.z],
                ..Boxed::default()
            },
        }
    }
}

#[unsafe(no_mangle)]
pub extern "C" fn dmp_check(image: &[u8]) -> Checked
    ensures { result ≡ checked_of (check_of image.now) }
{
    sound::check(image).into()
}

#[unsafe(no_mangle)]
pub extern "C" fn dmp_migrate(
    image: &[u8],
    list: &[u8],
    out: &mut [u8],
    work: &mut [u64],
) -> Migrated
    ensures { HandsBack image.now list.now out.old work.old result out.new work.new }
{
    migrate::migrate(image, list, out, work).into()
}

#[unsafe(no_mangle)]
pub extern "C" fn dmp_lookup(image: &[u8], dimension: u8, number: u32) -> Found
    ensures { result ≡ found_of (lookup_of image.now dimension number) }
{
    query::lookup(image, dimension, Number(number)).into()
}

#[unsafe(no_mangle)]
pub extern "C" fn dmp_box(image: &[u8], part: u32) -> Boxed
    ensures { result ≡ boxed_of (box_asked image.now part) }
{
    query::box_of(image, Part(part)).into()
}
