// Migration: sizing answers the refusals 1 to 18 and every number of the result, the output writes the bytes, so that none is written before
// the last refusal is past.
#![tactic(auto)]

ghost use Rattle.std.specs.Prelude.{◌≡◌};
ghost use Rattle.rows.specs.Tables.{set_of};
ghost use Rattle.paper.specs.Move.{migrated, sizes_of};
ghost use Rattle.paper.specs.Promises.{Migrates};
ghost use Rattle.plan.specs.Plan.{Prepared};
ghost use Rattle.migrate.specs.Delivery.{Delivers, numbers_of};

use paper::{MigrateAnswer, Moved, Unplaced};
use plan::{Plan, Source};
use rows::Tables;
use sizing::Fits;

// The plan that the tables of sizing make. Each table is lent by itself: a struct of one lifetime takes no mix of locals and arguments.
fn plan_of<'a>(
    image: &'a [u8],
    list: &'a [u8],
    offs: &'a [u32],
    starts: &'a [u32],
    ord: &'a [u32],
    ent: &'a [u32],
    masks: &'a [u64],
    counts: &'a [u32],
    fits: &Fits,
) -> Plan<'a>
    requires { Prepared image.now list.now offs.now starts.now ord.now ent.now masks.now counts.now fits.now.parts fits.now.entities }
    ensures image { result.source.tables.image.now ≡ image.now }
    ensures list { result.list.now ≡ list.now }
{
    let tables = Tables {
        image,
        offs,
        starts,
        parts: fits.parts,
    };
    let source = Source {
        tables,
        ord,
        entities: fits.entities,
    };
    Plan {
        source,
        list,
        ent,
        masks,
        counts,
    }
}

// Refusal 19, or the new image written and its numbers answered.
fn deliver(plan: &Plan, fits: &Fits, out: &mut [u8]) -> MigrateAnswer
    requires { sizes_of (migrated (set_of plan.now.source.tables) plan.now.list.now) ≡ numbers_of fits.now }
    ensures { Delivers (migrated (set_of plan.now.source.tables) plan.now.list.now) out.old result out.new }
{
    if fits.bytes > out.len() {
        return Err(Unplaced::OutputTooShort.into());
    }
    output::write(plan, out);
    Ok(Moved {
        length: fits.bytes as u32,
        rows: fits.rows as u32,
        moved: fits.moved,
    })
}

// An image moved by a list: the new image in `out`, with the answer's numbers, or a refusal and `out` as it came. All words of `work` are
// zero afterwards; as many as the image has rows are enough.
pub fn migrate(image: &[u8], list: &[u8], out: &mut [u8], work: &mut [u64]) -> MigrateAnswer
    ensures { Migrates image.now list.now out.old work.old result out.new work.new }
{
    let mut offs = [0u32; paper::ROW_ENTRIES];
    let mut keys = [0u64; paper::ROW_ENTRIES];
    let mut starts = [0u32; paper::PART_ENTRIES];
    let mut ord = [0u32; paper::ROW_ENTRIES];
    let mut ent = [0u32; paper::ROW_ENTRIES];
    let mut counts = [0u32; paper::PARTS];
    marks::clear(work);
    let sized = sizing::size(
        image,
        list,
        &mut offs,
        &mut starts,
        &mut keys,
        &mut ord,
        work,
        &mut ent,
        &mut counts,
    );
    marks::clear(work);
    let fits = sized?;
    let plan = plan_of(
        image, list, &offs, &starts, &ord, &ent, &keys, &counts, &fits,
    );
    deliver(&plan, &fits, out)
}
