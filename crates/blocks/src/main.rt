// What the readers answer for blocks from outside: a line each, with the ring or the district's rings, or with the refusal's number and place
// and, where a polygon's coordinate is refused, what it is. A value off the grid is shown by its pattern.
#![tactic(auto)]

mod stored;

ghost use Rattle.std.specs.Prelude.{◌≤◌, length};

use exchange::Coordinate;
use sheet::{Refusal, Rule};
use std::io;

// The positions from one place up to another.
fn show_ring(rt: &impl Print, xs: &[u16], ys: &[u16], from: usize, to: usize) -> io::Result<()> {
    if from < to {
        let count = to - from;
        print!(rt; " ring of {count}:")?;
        for (x, y) in xs.iter().zip(ys).take(to).skip(from) {
            print!(rt; " {x},{y}")?;
        }
    }
    Ok(())
}

// Rings of some lengths, one after another in the lists.
fn show_rings(rt: &impl Print, xs: &[u16], ys: &[u16], lengths: &[u16]) -> io::Result<()>
    requires { length lengths.now ≤ 8 }
{
    let mut from = 0;
    for length in lengths {
        let to = from + usize::from(*length);
        show_ring(rt, xs, ys, from, to)?;
        from = to;
    }
    Ok(())
}

fn show_value(rt: &impl Print, x: f64) -> io::Result<()> {
    if x < f64::INFINITY {
        let pattern = f64::to_bits(x);
        print!(rt; ", off the grid: {pattern:016x}")?;
    }
    Ok(())
}

// What the coordinate at a place is, in the block's byte order.
fn show_coordinate(rt: &impl Print, block: &[u8], place: usize) -> io::Result<()> {
    if let Some(order) = block.first() {
        match exchange::judge(block, *order, place) {
            Ok(Coordinate::OffGrid(x)) => show_value(rt, x)?,
            Ok(Coordinate::NotFinite) => print!(rt; ", not finite")?,
            _ => {}
        }
    }
    Ok(())
}

fn show_refusal(rt: &impl Print, r: Refusal) -> io::Result<()> {
    let number = r.rule.number();
    let place = r.place;
    print!(rt; ": refused {number} {place}")
}

fn show(rt: &impl Print, name: &str, block: &[u8]) -> io::Result<()> {
    let mut xs = [0u16; 16];
    let mut ys = [0u16; 16];
    print!(rt; "{name}")?;
    match exchange::read(block, &mut xs, &mut ys) {
        Ok(n) => {
            print!(rt; ":")?;
            show_ring(rt, &xs, &ys, 0, n)?;
        }
        Err(refusal) => {
            show_refusal(rt, refusal)?;
            if let Rule::NotFinite | Rule::OffGrid = refusal.rule {
                show_coordinate(rt, block, refusal.place)?;
            }
        }
    }
    println!(rt; "")
}

fn show_district(rt: &impl Print, name: &str, block: &[u8]) -> io::Result<()> {
    let mut xs = [0u16; 16];
    let mut ys = [0u16; 16];
    let mut lengths = [0u16; 8];
    print!(rt; "{name}")?;
    match exchange::read_district(block, &mut xs, &mut ys, &mut lengths) {
        Ok(n) => {
            print!(rt; ": district of {n}:")?;
            show_rings(rt, &xs, &ys, &lengths[..n.min(8)])?;
        }
        Err(refusal) => show_refusal(rt, refusal)?,
    }
    println!(rt; "")
}

fn show_taken(rt: &impl Print) -> io::Result<()> {
    show(rt, "GEOS, little-endian", &stored::SQUARE_GEOS_LITTLE)?;
    show(rt, "GEOS, big-endian", &stored::SQUARE_GEOS_BIG)?;
    show(rt, "GDAL, little-endian", &stored::SQUARE_GDAL_LITTLE)?;
    show(rt, "GDAL, big-endian", &stored::SQUARE_GDAL_BIG)?;
    show(rt, "an outline of ten", &stored::OUTLINE_GEOS)?;
    show(rt, "the largest coordinates", &stored::CORNER_GEOS)
}

// Other shapes, and rings that the head gives away.
fn show_other_shapes(rt: &impl Print) -> io::Result<()> {
    show(rt, "SRID", &stored::SRID_GEOS)?;
    show(rt, "z, extended", &stored::Z_GEOS)?;
    show(rt, "z, ISO", &stored::Z_GDAL)?;
    show(rt, "a hole", &stored::HOLE_GEOS)?;
    show(rt, "empty", &stored::EMPTY_GDAL)?;
    show(rt, "MultiPolygon", &stored::MANY_GEOS)?;
    show(rt, "Point", &stored::POINT_GEOS)
}

fn show_other_rings(rt: &impl Print) -> io::Result<()> {
    show(rt, "not closed", &stored::OPEN_GDAL)?;
    show(rt, "three positions", &stored::SHORT_GDAL)?;
    show(rt, "a ring of seventeen", &stored::LONG_GEOS)?;
    show(rt, "half a metre", &stored::HALF_GEOS)?;
    show(rt, "below zero, big-endian", &stored::BELOW_GEOS)?;
    show(rt, "16384", &stored::ABOVE_GEOS)?;
    show(rt, "-0", &stored::MINUS_ZERO_GEOS)
}

fn show_damaged(rt: &impl Print) -> io::Result<()> {
    show(rt, "NaN", &stored::NAN)?;
    show(rt, "infinite before a cut", &stored::INFINITE_CUT)?;
    show(rt, "a byte less", &stored::CUT)?;
    show(rt, "a byte more", &stored::LEFT_OVER)?;
    show(rt, "no bytes", b"")
}

fn show_districts(rt: &impl Print) -> io::Result<()> {
    show_district(rt, "a district", &stored::DISTRICT_GEOS)?;
    show_district(rt, "a district, big-endian", &stored::DISTRICT_GDAL_BIG)?;
    show_district(
        rt,
        "a district of mixed byte orders",
        &stored::DISTRICT_MIXED,
    )?;
    show_district(rt, "a district of one", &stored::DISTRICT_ONE_GEOS)?;
    show_district(rt, "an empty district", &stored::DISTRICT_EMPTY_GDAL)
}

fn show_other_districts(rt: &impl Print) -> io::Result<()> {
    show_district(rt, "the second not closed", &stored::DISTRICT_OPEN)?;
    show_district(rt, "no room for the second", &stored::DISTRICT_LONG_GEOS)?;
    show_district(
        rt,
        "a district and a byte more",
        &stored::DISTRICT_LEFT_OVER,
    )?;
    show_district(rt, "a polygon for a district", &stored::SQUARE_GEOS_LITTLE)
}

fn main(rt: HostRuntime) -> io::Result<()> {
    show_taken(&rt)?;
    show_other_shapes(&rt)?;
    show_other_rings(&rt)?;
    show_damaged(&rt)?;
    show_districts(&rt)?;
    show_other_districts(&rt)
}
