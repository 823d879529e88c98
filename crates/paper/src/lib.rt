// The public types of document 01. What each answer means is said in specs/Answers.antt, and how a box grows in specs/Box.antt.
#![tactic(auto)]

ghost use Rattle.std.specs.Prelude.{◌≡◌};
ghost use Rattle.paper.specs.Outcome.{nowhere, at_row, at_entry, refusal};
ghost use Rattle.paper.specs.Sound.{number_of};
ghost use Rattle.paper.specs.Move.{number_of_entry};
ghost use Rattle.paper.specs.Unplaced.{number_of_unplaced};
ghost use Rattle.paper.specs.Box.{lesser as lesser_of, greater as greater_of, grow as grown_by};

// The limits of document 01: an image has at most 1,048,576 bytes and 64 parts. A row takes 48 bytes or more, up to 300 where it is in all
// parts, so that an image has at most 21,845 rows. A table of rows has an entry more, and so has one of the parts' first rows.
pub const IMAGE_BYTES: usize = 1048576;

pub const ROW_BYTES: usize = 300;

pub const ROWS: usize = 21845;

pub const ROW_ENTRIES: usize = 21846;

pub const PARTS: usize = 64;

pub const PART_ENTRIES: usize = 65;

// A part number, a slot and an entity number are kept apart: none can be passed where another is wanted.
#[derive(Clone, Copy)]
pub struct Part(pub u32);

#[derive(Clone, Copy)]
pub struct Slot(pub u32);

#[derive(Clone, Copy)]
pub struct Number(pub u32);

// An entity's value is nothing, a whole number or a finite real.
#[derive(Clone, Copy)]
pub enum Value {
    Nothing,
    Whole(u64),
    Real(f64),
}

#[derive(Clone, Copy)]
pub struct Point {
    pub x: f64,
    pub y: f64,
    pub z: f64,
}

// The least and the greatest x, y, z.
#[derive(Clone, Copy)]
pub struct Box {
    pub least: Point,
    pub greatest: Point,
}

// The new value only where it is strictly beyond: on equal values the earlier bits stay.
fn lesser(old: f64, new: f64) -> f64
    ensures { result ≡ lesser_of old new }
{
    if new < old { new } else { old }
}

fn greater(old: f64, new: f64) -> f64
    ensures { result ≡ greater_of old new }
{
    if old < new { new } else { old }
}

impl Box {
    // The box grows by one vertex.
    pub fn grow(self, p: Point) -> Box
        ensures { result ≡ grown_by self p }
    {
        let least = self.least;
        let greatest = self.greatest;
        Box {
            least: Point {
                x: lesser(least.x, p.x),
                y: lesser(least.y, p.y),
                z: lesser(least.z, p.z),
            },
            greatest: Point {
                x: greater(greatest.x, p.x),
                y: greater(greatest.y, p.y),
                z: greater(greatest.z, p.z),
            },
        }
    }
}

// The rules that a row is judged by, in their order (specs/Sound.antt).
#[derive(Clone, Copy)]
pub enum Rule {
    Fields,
    Order,
    Boundary,
    Copies,
    Residence,
    Owner,
}

impl Rule {
    // The number of the refusal that a fault under the rule is.
    pub fn number(self) -> u32
        ensures { result ≡ number_of self }
    {
        match self {
            Rule::Fields => 7,
            Rule::Order => 8,
            Rule::Boundary => 9,
            Rule::Copies => 10,
            Rule::Residence => 11,
            Rule::Owner => 12,
        }
    }
}

// The rules that an entry of a list is judged by, in their order (specs/Move.antt).
#[derive(Clone, Copy)]
pub enum EntryRule {
    Whole,
    Destination,
    Known,
    Object,
}

impl EntryRule {
    pub fn number(self) -> u32
        ensures { result ≡ number_of_entry self }
    {
        match self {
            EntryRule::Whole => 13,
            EntryRule::Destination => 14,
            EntryRule::Known => 15,
            EntryRule::Object => 16,
        }
    }
}

// A refusal's number, 1 to 21, and its place: part and slot, or entry and 0, or 0 and 0. The three functions make all refusals.
#[derive(Clone, Copy)]
pub struct Refusal {
    pub number: u32,
    pub major: u32,
    pub minor: u32,
}

// What is refused as a whole, at no place: an image by its head or its filling, a migration for want of room, a question about what is not there.
#[derive(Clone, Copy, PartialEq, Eq)]
pub enum Unplaced {
    ImageTooLong,
    ImageTooShort,
    WrongMark,
    WrongVersion,
    WrongCount,
    NotFilled,
    WorkTooShort,
    ResultTooLong,
    OutputTooShort,
    NoSuchPart,
    NoSuchEntity,
}

impl Unplaced {
    pub fn number(self) -> u32
        ensures { result ≡ number_of_unplaced self }
    {
        match self {
            Unplaced::ImageTooLong => 1,
            Unplaced::ImageTooShort => 2,
            Unplaced::WrongMark => 3,
            Unplaced::WrongVersion => 4,
            Unplaced::WrongCount => 5,
            Unplaced::NotFilled => 6,
            Unplaced::WorkTooShort => 17,
            Unplaced::ResultTooLong => 18,
            Unplaced::OutputTooShort => 19,
            Unplaced::NoSuchPart => 20,
            Unplaced::NoSuchEntity => 21,
        }
    }
}

// So that `?` makes the refusal.
impl From<Unplaced> for Refusal {
    ghost from_gives = { λ reason made. made ≡ refusal (number_of_unplaced reason) nowhere };

    fn from(reason: Unplaced) -> Refusal {
        Refusal::nowhere(reason.number())
    }
}

// The number of an entry, of which an answer has 32 bits.
fn entry_number(i: usize) -> u32
    ensures { result ≡ (at_entry i).major }
{
    u32::try_from(i).unwrap_or(u32::MAX)
}

impl Refusal {
    // One that has no place.
    pub fn nowhere(number: u32) -> Refusal
        ensures { result ≡ refusal number nowhere }
    {
        Refusal {
            number,
            major: 0,
            minor: 0,
        }
    }

    // One at a row.
    pub fn at_row(number: u32, part: Part, slot: Slot) -> Refusal
        ensures { result ≡ refusal number (at_row part.0 slot.0) }
    {
        Refusal {
            number,
            major: part.0,
            minor: slot.0,
        }
    }

    // One at an entry of the list.
    pub fn at_entry(number: u32, i: usize) -> Refusal
        ensures { result ≡ refusal number (at_entry i) }
    {
        Refusal {
            number,
            major: entry_number(i),
            minor: 0,
        }
    }
}

// The counts of a sound image.
#[derive(Clone, Copy, PartialEq, Eq)]
pub struct Sound {
    pub parts: u32,
    pub rows: u32,
}

// The counts of a migration: bytes and rows of the new image, and the objects that changed their part.
#[derive(Clone, Copy, PartialEq, Eq)]
pub struct Moved {
    pub length: u32,
    pub rows: u32,
    pub moved: u32,
}

// Where an entity resides, and the part that owns it.
#[derive(Clone, Copy)]
pub struct Home {
    pub residence: u64,
    pub owner: Part,
}

pub type CheckAnswer = Result<Sound, Refusal>;

pub type MigrateAnswer = Result<Moved, Refusal>;

pub type LookupAnswer = Result<Home, Refusal>;

// A part without a vertex has no box.
pub type BoxAnswer = Result<Option<Box>, Refusal>;
