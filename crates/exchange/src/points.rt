// Surveyors' point files: the scan that finds a MultiPoint's first fault, and the filling of the lists after it.
// For this crate: no public call, so a `requires` may stand.
ghost use Rattle.std.specs.Prelude.{◌≡◌, ◌+◌, ◌*◌, ◌≤◌, length};
ghost use Rattle.std.proofs.lemmas.List.Edits.{sets};
ghost use Rattle.shape.specs.Answers.{asked, reply};
ghost use Rattle.shape.specs.Reading.{row};
ghost use Rattle.exchange.specs.Points.{point_asks, point_x, point_y, point_count, points_asks, within};

use shape::block::Block;
use shape::{Shape, reader};
use sheet::{Refusal, Rule};

// What stands against the Point at a place, read in its own byte order.
fn point_fault(s: &[u8], at: usize) -> Result<(), Refusal>
    requires { at ≤ length s.now }
    ensures { reply result ≡ asked (point_asks s.now at) tt }
{
    reader::typed(s, at, Shape::Point, Rule::PointType)?;
    let own = at;
    reader::position_fault(s, s[own], at + 5)
}

// A MultiPoint, scanned and not kept, for lists that both have so much room: the count.
pub fn points_at(s: &[u8], room: usize) -> Result<usize, Refusal>
    ensures { reply result ≡ asked (points_asks s.now room) (point_count s.now) }
{
    let order = reader::typed(s, 0, Shape::MultiPoint, Rule::OtherType)?;
    let block = Block { bytes: s, order };
    let n = block.sized(5, 0, room)?;
    for i in 0..n {
        point_fault(s, 9 + 21 * i)?;
    }
    Ok(n)
}

// Fills the lists with the grid numbers of n Points from a place on, each read in its own byte order. It is a loop of its own beside that of a
// polygon's positions: a closure for what stands at a place would take more words than the loop.
pub fn fill_points(s: &[u8], at: usize, n: usize, xs: &mut [u16], ys: &mut [u16])
    requires n_in_bounds { at + 21 * n ≤ length s.now }
    requires lists_in_bounds { (n ≤ length xs.old) × (n ≤ length ys.old) }
    ensures xs_after { xs.new ≡ sets xs.old 0 (row 21 (point_x s.now) n at) }
    ensures ys_after { ys.new ≡ sets ys.old 0 (row 21 (point_y s.now) n at) }
{
    for i in 0..n {
        let place = at + 21 * i;
        reader::keep(s, s[place], place + 5, xs, ys, i);
    }
}

// How far a place lies within its Point.
pub fn within(place: usize) -> usize
    ensures { result ≡ within place }
{
    place.saturating_sub(9) % 21
}
