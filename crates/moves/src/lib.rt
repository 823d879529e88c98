// The list of a move: entry i is the eight bytes from 8 i. Its entries are read, and judged by the rules of a list.
#![tactic(auto)]

ghost use Rattle.std.specs.Prelude.{ℕ, ◌+◌, ◌*◌, ◌≤◌, ◌<◌, ◌≡◌, ◌&&◌, T, ltb, eqb, length, get_or};
ghost use Rattle.merge.specs.Runs.{key_in};
ghost use Rattle.paper.specs.Move.{entry_name, entry_part, all_entries, ascends, entry_fitting};
ghost use Rattle.index.specs.Index.{set_in};
ghost use Rattle.moves.specs.Entries.{Ascending, FirstBroken, FirstSwept, entries_stage};
ghost use Rattle.moves.specs.Catalog.{Listing, Present, Uncovered, Behind, Lower, Catalog};
ghost use Rattle.moves.specs.Stages.{ListJudged};

use paper::{EntryRule, Refusal};

// The entities in the order of their names: the first `count` entries of `ord` are their rows, and `keys` has the name of every row.
#[derive(Clone, Copy)]
pub struct Order<'a> {
    pub keys: &'a [u64],
    pub ord: &'a [u32],
    pub count: usize,
    ghost listing: { Listing keys.now ord.now count },
}

impl<'a> Order<'a> {
    // The first place from `from` on whose name is not below `name`, or `count`.
    pub fn seek(&self, from: usize, name: u64) -> usize
        requires { Behind self.now.keys.now self.now.ord.now self.now.count name from }
        ensures { Lower self.now.keys.now self.now.ord.now self.now.count name result }
    {
        for j in from..self.count {
            if self.keys[self.ord[j] as usize] >= name {
                return j;
            }
        }
        self.count
    }

    // Is the name at place j?
    fn is_at(&self, j: usize, name: u64) -> bool
        ensures { result ≡ (ltb j self.now.count && eqb (key_in self.now.keys.now (get_or self.now.ord.now j 0)) name) }
    {
        j < self.count && self.keys[self.ord[j] as usize] == name
    }
}

// The name of the entity that entry i moves.
pub fn name_of(list: &[u8], i: usize) -> u64
    requires { 8 * i + 8 ≤ length list.now }
    ensures { result ≡ entry_name list.now i }
{
    index::name(field::byte_at(list, 8 * i + 4), field::word_at(list, 8 * i))
}

// The part that entry i moves it to.
pub fn part_of(list: &[u8], i: usize) -> u32
    requires { 8 * i + 8 ≤ length list.now }
    ensures { result ≡ entry_part list.now i }
{
    field::byte_at(list, 8 * i + 5)
}

// How many entries there are, where bytes left over count as one.
pub fn entries(list: &[u8]) -> usize
    ensures { result ≡ all_entries list.now }
{
    list.len().div_ceil(8)
}

// Does entry i come after the one before it?
fn follows(list: &[u8], i: usize) -> bool
    requires { 8 * i + 8 ≤ length list.now }
    ensures { result ≡ ascends list.now i }
{
    i == 0 || name_of(list, i - 1) < name_of(list, i)
}

// Is entry i whole, with its zeros, of dimension 3 at most, and after the one before it?
pub fn entry_fits(list: &[u8], i: usize) -> bool
    ensures { result ≡ entry_fitting list.now i }
{
    if i >= list.len() / 8 {
        return false;
    }
    let zeros = field::half_at(list, 8 * i + 6);
    let dim = field::byte_at(list, 8 * i + 4);
    let after = follows(list, i);
    (zeros == 0) & (dim <= 3) & after
}

// The first entry that is not as `entry_fits` says.
fn first_unfit(list: &[u8]) -> Option<usize>
    ensures { FirstBroken (λ i. T (entry_fitting list.now i)) (all_entries list.now) result }
{
    (0..entries(list)).find(|&i| !entry_fits(list, i))
}

// The first entry that names a part which is not among the n.
fn first_astray(list: &[u8], n: u32) -> Option<usize>
    requires { Ascending list.now }
    ensures { FirstBroken (λ i. entry_part list.now i < n) (all_entries list.now) result }
{
    (0..entries(list)).find(|&i| part_of(list, i) >= n)
}

// The first entry that a test refuses. It is asked for each entry with the first place whose name is not below the entry's: entries and entities
// both ascend, so one sweep finds every name.
fn sweep<F: Fn(usize, usize) -> bool>(list: &[u8], order: &Order, passes: F) -> Option<usize>
    requires ascending { Ascending list.now }
    requires callable { (i j : ℕ) → i < all_entries list.now → Lower order.now.keys.now order.now.ord.now order.now.count (entry_name list.now i) j → F.pre passes i j }
    ensures { FirstSwept list.now order.now.keys.now order.now.ord.now order.now.count (F.post passes) result }
{
    let mut from = 0;
    for i in 0..entries(list) {
        from = order.seek(from, name_of(list, i));
        if !passes(i, from) {
            return Some(i);
        }
    }
    None
}

// The first entry that names no entity.
fn first_unknown(list: &[u8], order: &Order) -> Option<usize>
    requires { Ascending list.now }
    ensures { FirstBroken (λ i. Present order.now.keys.now order.now.ord.now order.now.count (entry_name list.now i)) (all_entries list.now) result }
{
    sweep(list, order, |i, j| order.is_at(j, name_of(list, i)))
}

// The first entry whose entity is covered, which is no object.
fn first_covered(list: &[u8], order: &Order, covered: &[u8]) -> Option<usize>
    requires ascending { Ascending list.now }
    requires known { (i : ℕ) → i < all_entries list.now → Present order.now.keys.now order.now.ord.now order.now.count (entry_name list.now i) }
    requires room { (j : ℕ) → j < order.now.count → get_or order.now.ord.now j 0 < length covered.now }
    ensures { FirstBroken (λ i. Uncovered order.now.keys.now order.now.ord.now covered.now order.now.count (entry_name list.now i)) (all_entries list.now) result }
{
    sweep(list, order, |_, j| covered[order.ord[j] as usize] == 0)
}

// What the first entry that breaks a rule comes to.
fn all_pass(rule: EntryRule, broken: Option<usize>) -> Result<(), Refusal>
    ensures { result ≡ entries_stage rule broken }
{
    match broken {
        Some(i) => Err(Refusal::at_entry(rule.number(), i)),
        None => Ok(()),
    }
}

// Judges the list by its rules in turn: all entries pass one before any is judged under the next. The contract alone reads the image.
pub fn list_rules(
    image: &[u8],
    list: &[u8],
    order: &Order,
    covered: &[u8],
    n: u32,
) -> Result<(), Refusal>
    requires image_len { length (set_in image.now) ≡ n }
    requires catalog { Catalog (set_in image.now) order.now.keys.now order.now.ord.now covered.now order.now.count }
    ensures { ListJudged (set_in image.now) list.now result }
{
    all_pass(EntryRule::Whole, first_unfit(list))?;
    all_pass(EntryRule::Destination, first_astray(list, n))?;
    all_pass(EntryRule::Known, first_unknown(list, order))?;
    all_pass(EntryRule::Object, first_covered(list, order, covered))
}
