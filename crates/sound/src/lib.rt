// The check of an image: the head and the walk, then the rules in their order, one loop for all of them, which finds the first row, by part
// and then by slot, that breaks a rule.
#![tactic(auto)]

ghost use Rattle.std.specs.Prelude.{ℕ, ◌+◌, ◌≤◌, ◌≡◌, length, get_or};
ghost use Rattle.paper.specs.declared.Rule.TheVariants.{Boundary, Copies, Residence};
ghost use Rattle.paper.specs.Promises.{Checks};
ghost use Rattle.demands.specs.Passed.{PassedAhead};
ghost use Rattle.index.specs.Index.{Named, max_rows};
ghost use Rattle.rows.specs.Tables.{set_of};
ghost use Rattle.sound.specs.Faults.{Askable, Judges, FirstFault};
ghost use Rattle.sound.specs.Ready.{Rooms, IndexRooms};
ghost use Rattle.sound.specs.Tests.{test_of};
ghost use Rattle.sound.specs.Stages.{UpTo, CopiesJudged, HomesJudged, AllJudged, Examines, Surveys};

use paper::{CheckAnswer, Part, Refusal, Rule, Slot, Sound, Unplaced};
use rows::Tables;

// The part count, the rows and the entities of a sound image.
#[derive(Clone, Copy)]
pub struct Examined {
    pub parts: u32,
    pub rows: usize,
    pub entities: usize,
}

// The first row, by part and then by slot, that does not pass a test. A row is asked only where those of its part before it pass.
fn first_fault<F: Fn(Part, Slot) -> bool>(tables: &Tables, passes: F) -> Option<(Part, Slot)>
    requires { Askable (F.pre passes) (F.post passes) (set_of tables.now) }
    ensures { FirstFault (F.post passes) (set_of tables.now) result }
{
    let mut fault = None;
    'parts: for p in 0..tables.parts {
        let rows = tables.rows_in(Part(p));
        for s in 0..rows {
            if !passes(Part(p), Slot(s)) {
                fault = Some((Part(p), Slot(s)));
                break 'parts;
            }
        }
    }
    fault
}

// Judges one rule of every row, where the rules before it pass: its first fault is the refusal.
fn judge<F: Fn(Part, Slot) -> bool>(rule: Rule, tables: &Tables, keeps: F) -> Result<(), Refusal>
    requires { Judges (F.pre keeps) (F.post keeps) (test_of rule) (set_of tables.now) }
    ensures { UpTo rule (set_of tables.now) result }
{
    match first_fault(tables, keeps) {
        None => Ok(()),
        Some((part, slot)) => Err(Refusal::at_row(rule.number(), part, slot)),
    }
}

// The rules that speak of one part: fields, order, boundary.
fn shape_rules(tables: &Tables, keys: &[u64]) -> Result<(), Refusal>
    requires { Named tables.now.image.now tables.now.starts.now keys.now }
    ensures { UpTo Boundary (set_of tables.now) result }
{
    judge(Rule::Fields, tables, |part, slot| {
        fields::fields(
            tables.image,
            tables.offset_of(part, slot),
            tables.parts,
            part,
        )
    })?;
    judge(Rule::Order, tables, |part, slot| {
        fields::order(tables, keys, part, slot)
    })?;
    judge(Rule::Boundary, tables, |part, slot| {
        boundary::boundary(tables, keys, part, slot)
    })
}

// The rule of refusal 10. Where the copies that the rows name agree, distinct names of the lowest copies are enough, and `ord` lists
// them; only where a copy does not agree, or a name is there twice, is the fault looked for row by row. Tells how many entities there are.
fn copy_rule(tables: &Tables, keys: &[u64], ord: &mut [u32]) -> Result<usize, Refusal>
    requires named { Named tables.now.image.now tables.now.starts.now keys.now }
    requires passed { PassedAhead Copies (set_of tables.now) }
    requires room { max_rows + 1 ≤ length ord.old }
    ensures { CopiesJudged (set_of tables.now) tables.now.starts.now keys.now ord.new tables.now.parts result }
{
    let twins = first_fault(tables, |part, slot| {
        copies::twins(tables, keys, part, slot)
    });
    if twins.is_none() {
        let mut tmp = [0u32; paper::ROW_ENTRIES];
        if let Ok(count) = entities::entities(tables, keys, ord, &mut tmp) {
            return Ok(count);
        }
    }
    judge(Rule::Copies, tables, |part, slot| {
        copies::copies(tables, keys, part, slot)
    })?;
    // A copy that does not agree, or a name that is there twice, breaks the rule.
    unreachable!()
}

// The rules of residence and owner. Each table is filled before the rule that reads it.
fn home_rules(tables: &Tables, covered: &mut [u8]) -> Result<(), Refusal>
    requires passed { PassedAhead Residence (set_of tables.now) }
    requires room { max_rows + 1 ≤ length covered.old }
    requires blank { (g : ℕ) → get_or covered.old g 0 ≡ 0 }
    ensures { HomesJudged tables.now.image.now tables.now.starts.now covered.new result }
{
    residence::covered::cover(tables, covered);
    judge(Rule::Residence, tables, |part, slot| {
        residence::residence(tables, covered, part, slot)
    })?;
    let mut counts = [0u32; paper::PARTS];
    residence::owner::count_objects(tables.starts, covered, tables.parts, &mut counts);
    judge(Rule::Owner, tables, |part, slot| {
        residence::owner::owner(tables, &counts, part, slot)
    })
}

// All rules, and how many entities are listed.
fn all_rules(
    tables: &Tables,
    keys: &[u64],
    covered: &mut [u8],
    ord: &mut [u32],
) -> Result<usize, Refusal>
    requires named { Named tables.now.image.now tables.now.starts.now keys.now }
    requires covered_room { max_rows + 1 ≤ length covered.old }
    requires blank { (g : ℕ) → get_or covered.old g 0 ≡ 0 }
    requires ord_room { max_rows + 1 ≤ length ord.old }
    ensures { AllJudged tables.now.image.now tables.now.starts.now keys.now covered.new ord.new tables.now.parts result }
{
    shape_rules(tables, keys)?;
    let entities = copy_rule(tables, keys, ord)?;
    home_rules(tables, covered)?;
    Ok(entities)
}

// The check of an image, and its tables where it is sound: the offset and the name of every row, the first row of every part, which rows
// are covered, and the entities in the order of their names. Every public function begins with this.
pub fn examine(
    image: &[u8],
    offs: &mut [u32],
    starts: &mut [u32],
    keys: &mut [u64],
    covered: &mut [u8],
    ord: &mut [u32],
) -> Result<Examined, Refusal>
    requires { Rooms offs.old starts.old keys.old covered.old ord.old }
    ensures { Examines image.now offs.new starts.new keys.new covered.new ord.new result }
{
    index::head(image)?;
    let rows = index::walk(image, offs, starts, keys).ok_or(Unplaced::NotFilled)?;
    let parts = field::byte_at(image, 5);
    let tables = Tables {
        image,
        offs,
        starts,
        parts,
    };
    let entities = all_rules(&tables, keys, covered, ord)?;
    Ok(Examined {
        parts,
        rows,
        entities,
    })
}

// The same for those who read no more of it than its index: the other tables are local. With the list that the entities are merged in, the
// tables of a check take 459,542 bytes of the stack, and the call stays below 512 KiB.
pub fn survey(image: &[u8], offs: &mut [u32], starts: &mut [u32], keys: &mut [u64]) -> CheckAnswer
    requires { IndexRooms offs.old starts.old keys.old }
    ensures { Surveys image.now offs.new starts.new keys.new result }
{
    let mut covered = [0u8; paper::ROW_ENTRIES];
    let mut ord = [0u32; paper::ROW_ENTRIES];
    let examined = examine(image, offs, starts, keys, &mut covered, &mut ord)?;
    Ok(Sound {
        parts: examined.parts,
        rows: examined.rows as u32,
    })
}

// Whether an image is sound: its part count and its rows, or the first refusal with its place.
pub fn check(image: &[u8]) -> CheckAnswer
    ensures { Checks image.now result }
{
    let mut offs = [0u32; paper::ROW_ENTRIES];
    let mut starts = [0u32; paper::PART_ENTRIES];
    let mut keys = [0u64; paper::ROW_ENTRIES];
    survey(image, &mut offs, &mut starts, &mut keys)
}
