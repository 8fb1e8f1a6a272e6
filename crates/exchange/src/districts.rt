// District files: the rings put one after another into an output, the scan that finds a MultiPolygon's first fault, and the filling of the lists
// after it.
// For this crate: no public call, so a `requires` may stand.
ghost use Rattle.std.specs.Prelude.{◌≡◌, ◌&&◌, ◌+◌, ◌*◌, ◌≤◌, min, T, eqb, leb, length, replicate};
ghost use Rattle.std.proofs.lemmas.List.Edits.{sets};
ghost use Rattle.shape.specs.Answers.{asked, gives, reply};
ghost use Rattle.exchange.specs.Districts.{polygons, district_head, district, total, rings, district_size, parts_asks, parts_end, part_lengths, parts_xs, parts_ys, ring_count, district_head_asks, district_answer};

use shape::block::{Block, ByteOrder};
use shape::{Shape, reader, writer};
use sheet::{Refusal, Rule};

// ---- the writer

pub fn is_count(n: usize) -> bool
    ensures { result ≡ (leb 1 n && leb n 32) }
{
    (1..=32).contains(&n)
}

// The sum of at most 32 lengths.
pub fn total(lengths: &[u16]) -> usize
    requires { length lengths.now ≤ 32 }
    ensures { result ≡ total lengths.now }
{
    lengths.iter().map(|n| usize::from(*n)).sum()
}

pub fn are_rings(xs: &[u16], ys: &[u16], lengths: &[u16]) -> bool
    ensures { result ≡ (eqb (length xs.now) (length ys.now) && rings lengths.now) }
{
    xs.len() == ys.len()
        && lengths
            .iter()
            .all(|n| writer::is_ring_length(usize::from(*n)))
}

// A polygon's head has one count more, and is put in shape.
fn put_district_head(out: &mut [u8], count: usize)
    requires in_bounds { 9 ≤ length out.old }
    requires count_bound { count ≤ 32 }
    ensures { out.new ≡ sets out.old 0 (district_head 1 count) }
{
    out[0] = ByteOrder::Little.into();
    out[1..5].copy_from_slice(&Shape::MultiPolygon.number().to_le_bytes());
    out[5..9].copy_from_slice(&(count as u32).to_le_bytes());
}

// Puts polygons one after another at the front: each into the rest of the output after the one before it.
fn put_polygons(xs: &[u16], ys: &[u16], lengths: &[u16], out: &mut [u8])
    requires are_rings { T (rings lengths.now) }
    requires lengths_value { (total lengths.now ≡ length xs.now) × (total lengths.now ≡ length ys.now) }
    requires lengths_in_bounds { 29 * length lengths.now + 16 * total lengths.now ≤ length out.old }
    ensures { out.new ≡ sets out.old 0 (polygons (replicate (length lengths.now) 1) lengths.now xs.now ys.now) }
{
    let mut from = 0;
    let mut at = 0;
    for length in lengths {
        let n = usize::from(*length);
        let to = from + n;
        writer::put_polygon(&xs[from..to], &ys[from..to], &mut out[at..]);
        from = to;
        at += 29 + 16 * n;
    }
}

// Puts a district at the front: the head, and the polygons into the rest of the output after it.
pub fn put_district(xs: &[u16], ys: &[u16], lengths: &[u16], out: &mut [u8])
    requires lengths_len_bound { length lengths.now ≤ 32 }
    requires are_rings { T (rings lengths.now) }
    requires lengths_value { (total lengths.now ≡ length xs.now) × (total lengths.now ≡ length ys.now) }
    requires lengths_in_bounds { district_size lengths.now ≤ length out.old }
    ensures { out.new ≡ sets out.old 0 (district lengths.now xs.now ys.now) }
{
    put_district_head(out, lengths.len());
    put_polygons(xs, ys, lengths, &mut out[9..]);
}

// ---- the reader

// The head of a MultiPolygon, for a list of so many lengths: the number of rings.
fn head(s: &[u8], places: usize) -> Result<usize, Refusal>
    ensures { reply result ≡ asked (district_head_asks s.now places) (ring_count s.now) }
{
    let order = reader::typed(s, 0, Shape::MultiPolygon, Rule::OtherType)?;
    reader::whole(s, 5, 4)?;
    let block = Block { bytes: s, order };
    let count = block.number4(5) as usize;
    if !is_count(count) {
        return Err(Rule::DistrictCount.at(5));
    }
    if places < count {
        return Err(Rule::ShortLists.at(5));
    }
    Ok(count)
}

// k polygons one after another from a place on, scanned and not kept: where they end. Each is asked of the room that those before it left.
fn scan_parts(s: &[u8], at: usize, k: usize, room: usize) -> Result<usize, Refusal>
    requires { at ≤ length s.now }
    ensures { reply result ≡ asked (parts_asks s.now k at room) (parts_end s.now k at) }
{
    let mut place = at;
    let mut left = room;
    for _ in 0..k {
        let n = reader::polygon_at(s, place, left)?;
        place += 29 + 16 * n;
        left -= n;
    }
    Ok(place)
}

// A MultiPolygon that is the whole block, scanned and not kept: the number of rings.
pub fn district_at(s: &[u8], places: usize, room: usize) -> Result<usize, Refusal>
    ensures { reply result ≡ district_answer s.now places room }
{
    let n = head(s, places)?;
    let end = scan_parts(s, 9, n, room)?;
    reader::ended(s, end)?;
    Ok(n)
}

// Fills the fronts of the lists with the rings of k polygons one after another from a place on, each into the rest after the one before it,
// and with their lengths.
pub fn fill_parts(
    s: &[u8],
    at: usize,
    k: usize,
    xs: &mut [u16],
    ys: &mut [u16],
    lengths: &mut [u16],
)
    requires at_value { gives (parts_end s.now k at) ≡ asked (parts_asks s.now k at (min (length xs.old) (length ys.old))) (parts_end s.now k at) }
    requires k_in_bounds { k ≤ length lengths.old }
    ensures xs_after { xs.new ≡ sets xs.old 0 (parts_xs s.now k at) }
    ensures ys_after { ys.new ≡ sets ys.old 0 (parts_ys s.now k at) }
    ensures lengths_after { lengths.new ≡ sets lengths.old 0 (part_lengths s.now k at) }
{
    let mut place = at;
    let mut from = 0;
    for i in 0..k {
        let n = reader::fill_polygon(s, place, &mut xs[from..], &mut ys[from..]);
        lengths[i] = n as u16;
        place += 29 + 16 * n;
        from += n;
    }
}
