// Rule 9: a row names rows of the dimension below, in ascending slots, and they bound a simplex.
#![tactic(auto)]

ghost use Rattle.std.specs.Prelude.{◌+◌, ◌-◌, ◌≤◌, ◌<◌, ◌≡◌, [], map, remove, length, get_or};
ghost use Rattle.laws.specs.Lists.{pairwise, ascending};
ghost use Rattle.rows.specs.Tables.{set_of};
ghost use Rattle.boundary.specs.Boundary.{faces_fit, shares, LowestAt, HighestAt, CornersOf};
ghost use Rattle.paper.specs.declared.Rule.TheVariants.{Boundary};
ghost use Rattle.paper.specs.Sound.{judged};
ghost use Rattle.boundary.specs.Boundary.{faces_at, corners_below, face_keyed, faces_keyed, PartKeyed};
ghost use Rattle.boundary.specs.Boundary.{RowThere, RowsThere, TriangleThere, TrianglesThere, RowOf, RowAhead};

use paper::{Part, Slot};
use rows::Tables;

// The least vertex at the first place of the faces, each by its M vertices.
fn least<const N: usize, const M: usize>(faces: &[[u32; M]; N]) -> u32
    requires some { 0 < N }
    requires placed { 0 < M }
    ensures { LowestAt faces.now N result }
{
    let mut least = faces[0][0];
    for face in faces {
        least = least.min(face[0]);
    }
    least
}

// The greatest vertex at a place.
fn greatest<const N: usize, const M: usize>(faces: &[[u32; M]; N], place: usize) -> u32
    requires { place < M }
    ensures { HighestAt faces.now N place result }
{
    let mut greatest = 0;
    for face in faces {
        greatest = greatest.max(face[place]);
    }
    greatest
}

// The only vertices that N faces of N - 1 vertices can be those of a simplex of: its first is the least, the others are each the greatest of
// a place. (The faces of the vertices x, y, z are xy, xz and yz, and their last ones y, z, z.)
fn corners<const N: usize, const M: usize>(faces: &[[u32; M]; N]) -> [u32; N]
    requires simplex { N ≡ M + 1 }
    requires placed { 0 < M }
    ensures { CornersOf faces.now N M result }
{
    let mut corners = [least(faces); N];
    for place in 0..M {
        corners[place + 1] = greatest(faces, place);
    }
    corners
}

// The vertices but the one at a place.
fn without<const N: usize, const M: usize>(vertices: &[u32; N], place: usize) -> [u32; M]
    requires simplex { N ≡ M + 1 }
    requires there { place < N }
    ensures { result ≡ remove vertices.now place }
{
    let mut rest = [0; M];
    for i in 0..M {
        rest[i] = if i < place {
            vertices[i]
        } else {
            vertices[i + 1]
        };
    }
    rest
}

// Whether numbers ascend.
fn ascend<const N: usize>(numbers: &[u32; N]) -> bool
    ensures { result ≡ ascending numbers.now }
{
    numbers.is_sorted_by(|a, b| a < b)
}

// Whether N faces, each by its vertices, bound a simplex: for each of N vertices the others are a face.
fn fit<const N: usize, const M: usize>(faces: &[[u32; M]; N]) -> bool
    requires simplex { N ≡ M + 1 }
    requires placed { 0 < M }
    ensures { result ≡ faces_fit N faces.now }
{
    let vertices = corners(faces);
    if !ascend(&vertices) {
        return false;
    }
    for place in 0..N {
        if !faces.contains(&without(&vertices, place)) {
            return false;
        }
    }
    true
}

// Whether two triangles, each by its edges, share one.
fn share(p: &[u32; 3], q: &[u32; 3]) -> bool
    ensures { result ≡ shares p.now q.now }
{
    q.contains(&p[0]) | q.contains(&p[1]) | q.contains(&p[2])
}

// Whether each two of four triangles, each by its edges, share one.
fn each_two_share(triangles: &[[u32; 3]; 4]) -> bool
    ensures { result ≡ pairwise shares triangles.now }
{
    let [p, q, r, s] = triangles;
    share(p, q) & share(p, r) & share(p, s) & share(q, r) & share(q, s) & share(r, s)
}

// The slots that a row names: an edge two, a triangle three, a tetrahedron four.
fn slots_at<const N: usize>(tables: &Tables, part: Part, slot: u32) -> [u32; N]
    requires few { (2 ≤ N) × (N ≤ 4) }
    requires there { RowThere tables.now.image.now tables.now.offs.now tables.now.starts.now part.0 slot }
    ensures { faces_at (get_or (set_of tables.now) part.0 []) (N - 1) slot ≡ result }
{
    let at = tables.offset_of(part, Slot(slot));
    let mut slots = [0; N];
    for i in 0..N {
        slots[i] = field::word_at(tables.image, at + 24 + 4 * i);
    }
    slots
}

// Whether a slot of a part holds a row of the given dimension.
fn face_is(tables: &Tables, keys: &[u64], part: Part, dim: u64, slot: u32) -> bool
    requires { PartKeyed tables.now.starts.now keys.now part.0 }
    ensures { result ≡ face_keyed tables.now.starts.now keys.now part.0 dim slot }
{
    if tables.rows_in(part) <= slot {
        return false;
    }
    let row = tables.row_of(part, Slot(slot));
    keys[row] / 4294967296 == dim
}

// Whether slots hold rows of the given dimension, and ascend.
fn stand<const N: usize>(
    tables: &Tables,
    keys: &[u64],
    part: Part,
    dim: u64,
    slots: &[u32; N],
) -> bool
    requires { PartKeyed tables.now.starts.now keys.now part.0 }
    ensures { result ≡ faces_keyed tables.now.starts.now keys.now part.0 dim slots.now }
{
    slots
        .iter()
        .all(|&slot| face_is(tables, keys, part, dim, slot))
        & ascend(slots)
}

// Whether the edges at three slots bound a triangle.
fn edges_fit(tables: &Tables, part: Part, slots: &[u32; 3]) -> bool
    requires { RowsThere tables.now.image.now tables.now.offs.now tables.now.starts.now part.0 slots.now }
    ensures { result ≡ faces_fit 3 (map (faces_at (get_or (set_of tables.now) part.0 []) 1) slots.now) }
{
    let [p, q, r] = *slots;
    fit(&[
        slots_at::<2>(tables, part, p),
        slots_at::<2>(tables, part, q),
        slots_at::<2>(tables, part, r),
    ])
}

// The vertices of the triangle at a slot.
fn corners_at(tables: &Tables, part: Part, slot: u32) -> [u32; 3]
    requires { TriangleThere tables.now.image.now tables.now.offs.now tables.now.starts.now part.0 slot }
    ensures { corners_below (get_or (set_of tables.now) part.0 []) slot ≡ result }
{
    let [p, q, r] = slots_at::<3>(tables, part, slot);
    corners(&[
        slots_at::<2>(tables, part, p),
        slots_at::<2>(tables, part, q),
        slots_at::<2>(tables, part, r),
    ])
}

// Whether the triangles at four slots have the four triples of four vertices.
fn triangles_fit(tables: &Tables, part: Part, slots: &[u32; 4]) -> bool
    requires { TrianglesThere tables.now.image.now tables.now.offs.now tables.now.starts.now part.0 slots.now }
    ensures { result ≡ faces_fit 4 (map (corners_below (get_or (set_of tables.now) part.0 [])) slots.now) }
{
    let [p, q, r, s] = *slots;
    fit(&[
        corners_at(tables, part, p),
        corners_at(tables, part, q),
        corners_at(tables, part, r),
        corners_at(tables, part, s),
    ])
}

// Whether each two of the triangles at four slots share an edge.
fn triangles_share(tables: &Tables, part: Part, slots: &[u32; 4]) -> bool
    requires { RowsThere tables.now.image.now tables.now.offs.now tables.now.starts.now part.0 slots.now }
    ensures { result ≡ pairwise shares (map (faces_at (get_or (set_of tables.now) part.0 []) 2) slots.now) }
{
    let [p, q, r, s] = *slots;
    each_two_share(&[
        slots_at::<3>(tables, part, p),
        slots_at::<3>(tables, part, q),
        slots_at::<3>(tables, part, r),
        slots_at::<3>(tables, part, s),
    ])
}

// The judgement of an edge: two vertices always bound it.
fn edge(tables: &Tables, keys: &[u64], part: Part, slot: Slot) -> bool
    requires { RowOf 1 tables.now.image.now tables.now.offs.now tables.now.starts.now keys.now part.0 slot.0 }
    ensures { result ≡ judged Boundary (set_of tables.now) part.0 slot.0 }
{
    stand(tables, keys, part, 0, &slots_at::<2>(tables, part, slot.0))
}

// The judgement of a triangle. Edges are read only where they stand.
fn triangle(tables: &Tables, keys: &[u64], part: Part, slot: Slot) -> bool
    requires { RowOf 2 tables.now.image.now tables.now.offs.now tables.now.starts.now keys.now part.0 slot.0 }
    ensures { result ≡ judged Boundary (set_of tables.now) part.0 slot.0 }
{
    let edges = slots_at::<3>(tables, part, slot.0);
    if stand(tables, keys, part, 1, &edges) {
        return edges_fit(tables, part, &edges);
    }
    false
}

// The judgement of a tetrahedron.
fn tetrahedron(tables: &Tables, keys: &[u64], part: Part, slot: Slot) -> bool
    requires { RowOf 3 tables.now.image.now tables.now.offs.now tables.now.starts.now keys.now part.0 slot.0 }
    ensures { result ≡ judged Boundary (set_of tables.now) part.0 slot.0 }
{
    let triangles = slots_at::<4>(tables, part, slot.0);
    if stand(tables, keys, part, 2, &triangles) {
        return triangles_fit(tables, part, &triangles) & triangles_share(tables, part, &triangles);
    }
    false
}

// The judgement of a row whose predecessors in its part pass.
pub fn boundary(tables: &Tables, keys: &[u64], part: Part, slot: Slot) -> bool
    requires { RowAhead tables.now.image.now tables.now.offs.now tables.now.starts.now keys.now part.0 slot.0 }
    ensures { result ≡ judged Boundary (set_of tables.now) part.0 slot.0 }
{
    let at = tables.offset_of(part, slot);
    match field::byte_at(tables.image, at + 4) {
        0 => true,
        1 => edge(tables, keys, part, slot),
        2 => triangle(tables, keys, part, slot),
        _ => tetrahedron(tables, keys, part, slot),
    }
}
