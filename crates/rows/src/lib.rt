// Where a row stands in the tables of an image: row s of part p is row starts p + s; and the value of a row.
#![tactic(auto)]

pub mod values;

ghost use Rattle.std.specs.Prelude.{◌+◌, ◌-◌, ◌≤◌, ◌<◌, ◌≡◌, length, get_or, ℕ};
ghost use Rattle.index.specs.Index.{Indexed};

use paper::{Part, Slot};

// An image with its index: the offset of each row, the first row of each part with the total behind them, and how many parts there are. That bytes
// are below 256 is kept here because of a slice in a struct no proof is told it.
#[derive(Clone, Copy)]
pub struct Tables<'a> {
    pub image: &'a [u8],
    pub offs: &'a [u32],
    pub starts: &'a [u32],
    pub parts: u32,
    ghost indexed: { Indexed image.now offs.now starts.now parts },
    ghost bytes: { (i : ℕ) → get_or image.now i 0 < 256 },
}

impl<'a> Tables<'a> {
    // The row's place among all rows.
    pub fn row_of(&self, part: Part, slot: Slot) -> usize
        requires { part.0 < length self.now.starts.now }
        ensures { result ≡ get_or self.now.starts.now part.0 0 + slot.0 }
    {
        self.starts[part.0 as usize] as usize + slot.0 as usize
    }

    // The offset of its first byte.
    pub fn offset_of(&self, part: Part, slot: Slot) -> usize
        requires part_in_bounds { part.0 < length self.now.starts.now }
        requires slot_in_bounds { get_or self.now.starts.now part.0 0 + slot.0 < length self.now.offs.now }
        ensures { result ≡ get_or self.now.offs.now (get_or self.now.starts.now part.0 0 + slot.0) 0 }
    {
        self.offs[self.row_of(part, slot)] as usize
    }

    // How many rows a part has.
    pub fn rows_in(&self, part: Part) -> u32
        requires part_in_bounds { part.0 + 1 < length self.now.starts.now }
        requires part_bound { get_or self.now.starts.now part.0 0 ≤ get_or self.now.starts.now (part.0 + 1) 0 }
        ensures { result ≡ get_or self.now.starts.now (part.0 + 1) 0 - get_or self.now.starts.now part.0 0 }
    {
        let p = part.0 as usize;
        self.starts[p + 1] - self.starts[p]
    }
}
