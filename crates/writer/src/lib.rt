// The rows of a migrated image, written into the output.
#![tactic(auto)]

ghost use Rattle.std.specs.Prelude.{◌+◌, ◌*◌, ◌^◌, ◌≤◌, ◌<◌, ◌≡◌, [], ◌∷◌, map, length, get_or, take, drop, replicate};
ghost use Rattle.std.proofs.lemmas.List.Edits.{sets};
ghost use Rattle.laws.specs.Lists.{flat};
ghost use Rattle.field.specs.Bytes.{bytes_of, u8_at, u32_at, u64_at};
ghost use Rattle.paper.specs.Image.{row_bytes, bytes_of_part};
ghost use Rattle.writer.specs.Entries.{Entered, remote_slots, body_from, RemoteRoom, FacesRoom, BodyRoom};
ghost use Rattle.writer.specs.Written.{front_bytes, FacesNamed, FacesFound, body_at, BodyReady, Put};
ghost use Rattle.writer.specs.Sources.{entry_in, EnteredIn, body_in, BodyReadyIn, row_in, RowReadyIn, rows_in, PartReadyIn, PartRoomIn};

use paper::Part;

// A row's body stands behind its first 24 bytes and takes 24 more, so that its remote slots stand from byte 48 on. With them a row takes
// 44 bytes, and 4 for each part of its residence set.
const BODY_AT: usize = 24;

const BODY_BYTES: usize = 24;

const REMOTE_AT: usize = 48;

const FIXED_BYTES: usize = 44;

// A tetrahedron has four faces, other entities have fewer.
const MOST_FACES: usize = 4;

// The head of an image of n parts.
pub fn put_head(out: &mut [u8], n: u32)
    requires { (8 ≤ length out.old) × (n < 256) }
    ensures { out.new ≡ sets out.old 0 (68 ∷ 77 ∷ 80 ∷ 1 ∷ 0 ∷ n ∷ 0 ∷ 0 ∷ []) }
{
    field::put_bytes(out, 0, 68, 77, 80, 1);
    field::put_bytes(out, 4, 0, n, 0, 0);
}

// The first 24 bytes of a row.
fn put_front(out: &mut [u8], number: u32, dim: u32, owner: u32, kind: u32, mask: u64, value: u64)
    requires { (24 ≤ length out.old) × (dim < 256) × (owner < 256) × (kind < 256) }
    ensures { out.new ≡ sets out.old 0 (front_bytes number dim owner kind mask value) }
{
    field::put_word(out, 0, number);
    field::put_bytes(out, 4, dim, owner, kind, 0);
    field::put_long(out, 8, mask);
    field::put_long(out, 16, value);
}

// The new residence set of each entity, where its slots begin, and its slot in each part of the set, by ascending part.
#[derive(Clone, Copy)]
pub struct Numbering<'a> {
    pub masks: &'a [u64],
    pub base: &'a [u32],
    pub slots: &'a [u32],
}

impl<'a> Numbering<'a> {
    // The slot of an entity in a part.
    fn slot_of(&self, part: Part, entity: usize) -> u32
        requires part_bound { part.0 < 64 }
        requires entered { EnteredIn self.now part.0 entity }
        ensures { result ≡ entry_in self.now part.0 entity }
    {
        let first = self.base[entity] as usize;
        let rank = part_set::below(self.masks[entity], part.0) as usize;
        self.slots[first + rank]
    }

    // The slots in a part of the entities that `faces` lists.
    fn put_faces(&self, faces: &[u32], part: Part, out: &mut [u8], at: usize)
        requires { FacesRoom faces.now 0 (length faces.now) self.now.masks.now self.now.base.now self.now.slots.now part.0 out.old at }
        ensures { out.new ≡ sets out.old at (flat (map (bytes_of 4) (map (entry_in self.now part.0) faces.now))) }
    {
        for (k, &face) in faces.iter().enumerate() {
            let slot = self.slot_of(part, face as usize);
            field::put_word(out, at + 4 * k, slot);
        }
    }

    // The slots of an entity in its other parts than `own`, by ascending part.
    fn put_remote(&self, entity: usize, own: Part, out: &mut [u8], at: usize)
        requires masked { entity < length self.now.masks.now }
        requires based { entity < length self.now.base.now }
        requires room { RemoteRoom self.now.slots.now (get_or self.now.base.now entity 0) (get_or self.now.masks.now entity 0) own.0 out.old at }
        ensures { out.new ≡ sets out.old at (flat (map (bytes_of 4) (remote_slots self.now.slots.now (get_or self.now.base.now entity 0) (get_or self.now.masks.now entity 0) own.0))) }
    {
        let first = self.base[entity] as usize;
        let mask = self.masks[entity];
        let mut to = at;
        for part in part_set::parts(part_set::without(mask, own.0)) {
            let rank = part_set::below(mask, part) as usize;
            field::put_word(out, to, self.slots[first + rank]);
            to += 4;
        }
    }
}

// What the rows of a new image are written from: the old image with the offset of each row and the first row of each part, the row that each
// entity has in its lowest part, the entity of each row, how many objects each part gets, and the entities' new slots.
#[derive(Clone, Copy)]
pub struct NewRows<'a> {
    pub image: &'a [u8],
    pub offs: &'a [u32],
    pub starts: &'a [u32],
    pub ord: &'a [u32],
    pub ent: &'a [u32],
    pub counts: &'a [u32],
    pub numbering: Numbering<'a>,
}

impl<'a> NewRows<'a> {
    // The first 24 bytes of the row whose source row the image has at `from`.
    fn put_source(&self, from: usize, owner: u32, mask: u64, out: &mut [u8])
        requires { (from + 48 ≤ length self.now.image.now) × (24 ≤ length out.old) × (owner < 256) }
        ensures { out.new ≡ sets out.old 0 (front_bytes (u32_at self.now.image.now from) (u8_at self.now.image.now (from + 4)) owner (u8_at self.now.image.now (from + 6)) mask (u64_at self.now.image.now (from + 16))) }
    {
        let number = field::word_at(self.image, from);
        let dim = field::byte_at(self.image, from + 4);
        let kind = field::byte_at(self.image, from + 6);
        let value = field::long_at(self.image, from + 16);
        put_front(out, number, dim, owner, kind, mask, value);
    }

    // The entities of the boundary of the source row that the image has at `at`, from the front of `faces`; a vertex has none. This table
    // and a row are filled in place: handed back as values, they cost a migration a tenth of its time and more.
    fn gather_faces(&self, at: usize, dim: u32, faces: &mut [u32; MOST_FACES])
        requires { FacesNamed self.now.image.now at self.now.starts.now self.now.ent.now dim }
        ensures { FacesFound self.now.image.now at self.now.starts.now self.now.ent.now dim faces.old faces.new }
    {
        if dim == 0 {
            return;
        }
        let low = part_set::lowest(field::long_at(self.image, at + 8)) as usize;
        let first = self.starts[low] as usize;
        let n = dim as usize + 1;
        for k in 0..n {
            let slot = field::word_at(self.image, at + BODY_AT + 4 * k) as usize;
            faces[k] = self.ent[first + slot];
        }
    }

    // The body of a row: a vertex's coordinates, which the image has at `from`, or the faces' slots in the part and zeros.
    fn put_body(&self, from: usize, dim: u32, faces: &[u32], part: Part, row: &mut [u8])
        requires { BodyRoom self.now.image.now from dim faces.now 0 self.now.numbering.masks.now self.now.numbering.base.now self.now.numbering.slots.now part.0 row.old 24 }
        ensures { row.new ≡ sets row.old 24 (body_from (take 24 (drop from self.now.image.now)) (entry_in self.now.numbering part.0) (take (dim + 1) (drop 0 faces.now)) dim) }
    {
        if dim == 0 {
            field::copy(self.image, from, row, BODY_AT, BODY_BYTES);
            return;
        }
        let n = dim as usize + 1;
        self.numbering.put_faces(&faces[..n], part, row, BODY_AT);
        field::put_zeros(row, BODY_AT + 4 * n, BODY_BYTES - 4 * n);
    }

    // The body of the row in a part whose source row the image has at `from`.
    fn build_body(&self, from: usize, part: Part, row: &mut [u8; paper::ROW_BYTES])
        requires { BodyReadyIn self.now from part.0 }
        ensures { row.new ≡ sets row.old 24 (body_in self.now from part.0) }
    {
        let dim = field::byte_at(self.image, from + 4);
        let mut faces = [0u32; MOST_FACES];
        self.gather_faces(from, dim, &mut faces);
        self.put_body(from + BODY_AT, dim, &faces, part, row);
    }

    // The row of an entity in a part, at the front of `row`.
    fn build_row(&self, entity: usize, part: Part, row: &mut [u8; paper::ROW_BYTES])
        requires { RowReadyIn self.now part.0 entity }
        ensures { row.new ≡ sets row.old 0 (row_bytes (row_in self.now part.0 entity)) }
    {
        let source = self.ord[entity] as usize;
        let from = self.offs[source] as usize;
        let mask = self.numbering.masks[entity];
        let owner = residence::owner::owner_of(mask, self.counts);
        self.put_source(from, owner, mask, row);
        self.build_body(from, part, row);
        self.numbering.put_remote(entity, part, row, REMOTE_AT);
    }

    // The row of an entity in a part, built aside and copied to `at`: where the next begins.
    fn put_row(&self, entity: usize, part: Part, out: &mut [u8], at: usize) -> usize
        requires row_ready { RowReadyIn self.now part.0 entity }
        requires room { at + length (row_bytes (row_in self.now part.0 entity)) ≤ length out.old }
        ensures { Put (row_bytes (row_in self.now part.0 entity)) out.old out.new at result }
    {
        let mut row = [0u8; paper::ROW_BYTES];
        self.build_row(entity, part, &mut row);
        let n = FIXED_BYTES + 4 * part_set::count(self.numbering.masks[entity]) as usize;
        field::copy(&row, 0, out, at, n);
        at + n
    }

    // The rows in a part of its members, one after another: where they end.
    fn put_rows(&self, members: &[u32], part: Part, out: &mut [u8], at: usize) -> usize
        requires part_ready { PartReadyIn self.now members.now part.0 }
        requires room { at + length (flat (map row_bytes (rows_in self.now members.now part.0))) ≤ length out.old }
        ensures { Put (flat (map row_bytes (rows_in self.now members.now part.0))) out.old out.new at result }
    {
        let mut to = at;
        for &entity in members {
            to = self.put_row(entity as usize, part, out, to);
        }
        to
    }

    // A part: how many rows, and the rows of its members; where it ends.
    pub fn put_part(&self, members: &[u32], part: Part, out: &mut [u8], at: usize) -> usize
        requires count_fits { length members.now < 2 ^ 32 }
        requires part_ready { PartReadyIn self.now members.now part.0 }
        requires part_room { PartRoomIn self.now members.now part.0 out.old at }
        ensures { Put (bytes_of_part (rows_in self.now members.now part.0)) out.old out.new at result }
    {
        let count = members.len() as u32;
        field::put_word(out, at, count);
        self.put_rows(members, part, out, at + 4)
    }
}
