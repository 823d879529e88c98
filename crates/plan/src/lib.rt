// The tables of a migration, and what they say of the paper's mesh and placement (specs/): `Prepared` is the one record between the code and
// the definitions. The code here is what every step of a migration reads of the old image.
#![tactic(auto)]

ghost use Rattle.std.specs.Prelude.{◌≡◌};
ghost use Rattle.paper.specs.Outcome.{accepted};
ghost use Rattle.paper.specs.Sound.{sound_of};
ghost use Rattle.index.specs.Index.{set_in};
ghost use Rattle.plan.specs.Plan.{Ordered, Prepared};

use rows::Tables;

// A sound image with its index, and the lowest row of each of its entities in the order of their names.
#[derive(Clone, Copy)]
pub struct Source<'a> {
    pub tables: Tables<'a>,
    pub ord: &'a [u32],
    pub entities: usize,
    ghost sound: { sound_of tables.image.now ≡ accepted (set_in tables.image.now) },
    ghost ordered: { ∥ Ordered tables.image.now tables.starts.now ord.now entities ∥₁ },
}

// All that a new image is written from: the source, the list that moves it, the entity of each row, the new residence set of each entity
// and how many objects each part gets. The facts alone read the list.
#[derive(Clone, Copy)]
pub struct Plan<'a> {
    pub source: Source<'a>,
    pub list: &'a [u8],
    pub ent: &'a [u32],
    pub masks: &'a [u64],
    pub counts: &'a [u32],
    ghost prepared: { ∥ Prepared source.tables.image.now list.now source.tables.offs.now source.tables.starts.now source.ord.now ent.now masks.now counts.now source.tables.parts source.entities ∥₁ },
}
