// Layer 3, polygon bytes: write a ring, read a ring, judge one coordinate; surveyors' point files; and district files. Document 01, 'Polygon
// bytes', and document 02, 1/13 and 3/13. Numbers, coordinates and one polygon at a place are shape's.
// No call asks anything of its caller, and a refusal writes nothing.
#![tactic(auto)]

mod districts;
mod points;

ghost use Rattle.std.specs.Prelude.{◌≡◌, min, length};
ghost use Rattle.shape.specs.Answers.{reply, over};
ghost use Rattle.shape.specs.Coordinates.{judgement};
ghost use Rattle.shape.specs.Writing.{polygon, writing};
ghost use Rattle.shape.specs.Reading.{read_answer, xs_at, ys_at};
ghost use Rattle.exchange.specs.Points.{points_answer, points_xs, points_ys, sent_answer};
ghost use Rattle.exchange.specs.Districts.{district, district_writing, district_answer, district_lengths, district_xs, district_ys};

use shape::block::{Block, ByteOrder};
pub use shape::{Coordinate, Position};
use shape::{reader, writer};
use sheet::{Refusal, Rule};

// Writes a ring as a polygon, all little-endian, at the front of the output. Bytes past it stay as they were.
pub fn write(xs: &[u16], ys: &[u16], out: &mut [u8]) -> Result<usize, Refusal>
    ensures result_value { reply result ≡ writing xs.now ys.now (length out.old) }
    ensures out_after { out.new ≡ over (reply result) (polygon 1 xs.now ys.now) out.old }
{
    if !writer::is_ring(xs, ys) {
        return Err(Rule::NoRing.at(0));
    }
    if !writer::are_low(xs, ys) {
        return Err(Rule::LargeRing.at(0));
    }
    let size = 29 + 16 * xs.len();
    if out.len() < size {
        return Err(Rule::ShortOutput.at(0));
    }
    writer::put_polygon(xs, ys, out);
    Ok(size)
}

// Reads a polygon of one ring into the fronts of the lists, without the repeated position. Places past the ring stay as they were.
pub fn read(block: &[u8], xs: &mut [u16], ys: &mut [u16]) -> Result<usize, Refusal>
    ensures result_value { reply result ≡ read_answer block.now (min (length xs.old) (length ys.old)) }
    ensures xs_after { xs.new ≡ over (reply result) (xs_at block.now 0) xs.old }
    ensures ys_after { ys.new ≡ over (reply result) (ys_at block.now 0) ys.old }
{
    let n = reader::polygon_at(block, 0, xs.len().min(ys.len()))?;
    reader::ended(block, 29 + 16 * n)?;
    Ok(reader::fill_polygon(block, 0, xs, ys))
}

// What the eight bytes at a place are, in a byte order: any byte may be asked, and 21 refuses those that are none.
pub fn judge(block: &[u8], order: u8, place: usize) -> Result<Coordinate, Refusal>
    ensures { reply result ≡ judgement block.now order place }
{
    let order = ByteOrder::at(order, 0)?;
    reader::whole(block, place, 8)?;
    let block = Block {
        bytes: block,
        order,
    };
    Ok(block.coordinate_at(place))
}

// Reads a MultiPoint into the fronts of the lists, each Point in its own byte order. Places past the points stay as they were.
pub fn read_points(block: &[u8], xs: &mut [u16], ys: &mut [u16]) -> Result<usize, Refusal>
    ensures result_value { reply result ≡ points_answer block.now (min (length xs.old) (length ys.old)) }
    ensures xs_after { xs.new ≡ over (reply result) (points_xs block.now) xs.old }
    ensures ys_after { ys.new ≡ over (reply result) (points_ys block.now) ys.old }
{
    let n = points::points_at(block, xs.len().min(ys.len()))?;
    reader::ended(block, 9 + 21 * n)?;
    points::fill_points(block, 9, n, xs, ys);
    Ok(n)
}

// The coordinate at a place of a MultiPoint, as it was sent: in its Point's byte order.
pub fn sent(block: &[u8], place: usize) -> Result<Coordinate, Refusal>
    ensures { reply result ≡ sent_answer block.now place }
{
    let within = points::within(place);
    if within != 5 && within != 13 {
        return Err(Rule::CutShort.at(place));
    }
    reader::whole(block, place, 8)?;
    let Ok(order) = ByteOrder::try_from(block[place - within]) else {
        return Err(Rule::CutShort.at(place));
    };
    let block = Block {
        bytes: block,
        order,
    };
    Ok(block.coordinate_at(place))
}

// Writes the rings of a district, one after another in the lists, as a MultiPolygon, all little-endian, at the front of the output. Bytes past it
// stay as they were.
pub fn write_district(
    xs: &[u16],
    ys: &[u16],
    lengths: &[u16],
    out: &mut [u8],
) -> Result<usize, Refusal>
    ensures result_value { reply result ≡ district_writing xs.now ys.now lengths.now (length out.old) }
    ensures out_after { out.new ≡ over (reply result) (district lengths.now xs.now ys.now) out.old }
{
    if !districts::is_count(lengths.len()) {
        return Err(Rule::DistrictCount.at(0));
    }
    if districts::total(lengths) != xs.len() {
        return Err(Rule::LengthSum.at(0));
    }
    if !districts::are_rings(xs, ys, lengths) {
        return Err(Rule::NoRing.at(0));
    }
    if !writer::are_low(xs, ys) {
        return Err(Rule::LargeRing.at(0));
    }
    let size = 9 + (29 * lengths.len() + 16 * xs.len());
    if out.len() < size {
        return Err(Rule::ShortOutput.at(0));
    }
    districts::put_district(xs, ys, lengths, out);
    Ok(size)
}

// Reads a MultiPolygon into the fronts of the lists, each polygon in its own byte order: the rings one after another, without the repeated
// positions, and their lengths. Places past them stay as they were.
pub fn read_district(
    block: &[u8],
    xs: &mut [u16],
    ys: &mut [u16],
    lengths: &mut [u16],
) -> Result<usize, Refusal>
    ensures result_value { reply result ≡ district_answer block.now (length lengths.old) (min (length xs.old) (length ys.old)) }
    ensures xs_after { xs.new ≡ over (reply result) (district_xs block.now) xs.old }
    ensures ys_after { ys.new ≡ over (reply result) (district_ys block.now) ys.old }
    ensures lengths_after { lengths.new ≡ over (reply result) (district_lengths block.now) lengths.old }
{
    let n = districts::district_at(block, lengths.len(), xs.len().min(ys.len()))?;
    districts::fill_parts(block, 9, n, xs, ys, lengths);
    Ok(n)
}
