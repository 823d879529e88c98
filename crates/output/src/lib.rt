// The new image of a migration, written into the output from front to back.
#![tactic(auto)]

ghost use Rattle.std.specs.Prelude.{◌≤◌, ◌≡◌, ◌++◌, length, drop};
ghost use Rattle.std.proofs.lemmas.List.Edits.{sets};
ghost use Rattle.plan.specs.Planned.{image_of};
ghost use Rattle.output.specs.Parts.{pieces};
ghost use Rattle.output.specs.Sources.{part_in, PartsReadyIn};

use paper::Part;
use plan::Plan;
use writer::{NewRows, Numbering};

const HEAD_BYTES: usize = 8;

// The parts, one after another behind the head; the members of each stand in `members` from where the part begins.
fn put_parts(rows: &NewRows, members: &[u32], begins: &[u32], parts: u32, out: &mut [u8])
    requires { PartsReadyIn rows.now members.now begins.now parts out.old }
    ensures { out.new ≡ sets out.old 8 (pieces (part_in rows.now members.now begins.now) parts) }
{
    let mut at = HEAD_BYTES;
    for q in 0..parts {
        let first = begins[q as usize] as usize;
        let end = begins[q as usize + 1] as usize;
        at = rows.put_part(&members[first..end], Part(q), out, at);
    }
}

// The new image, and what stood behind it in the output.
pub fn write(plan: &Plan, out: &mut [u8])
    requires { length (image_of plan.now) ≤ length out.old }
    ensures { out.new ≡ image_of plan.now ++ drop (length (image_of plan.now)) out.old }
{
    let tables = &plan.source.tables;
    let parts = tables.parts;
    let entities = plan.source.entities;
    let masks = plan.masks;
    let mut base = [0u32; paper::ROW_ENTRIES];
    let mut slots = [0u32; paper::ROW_ENTRIES];
    let mut counted = [0u32; paper::PARTS];
    let mut begins = [0u32; paper::PART_ENTRIES];
    let mut members = [0u32; paper::ROW_ENTRIES];
    slots::fill_slots(masks, entities, &mut base, &mut slots, &mut counted);
    slots::part_starts(&counted, parts as usize, &mut begins);
    slots::fill_lists(masks, entities, parts, &slots, &begins, &mut members);
    let rows = NewRows {
        image: tables.image,
        offs: tables.offs,
        starts: tables.starts,
        ord: plan.source.ord,
        ent: plan.ent,
        counts: plan.counts,
        numbering: Numbering {
            masks,
            base: &base,
            slots: &slots,
        },
    };
    writer::put_head(out, parts);
    put_parts(&rows, &members, &begins, parts, out);
}
