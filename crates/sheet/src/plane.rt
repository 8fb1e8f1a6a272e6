// Exact numbers of points. For this crate and the layers above: no public call, so a `requires` may stand.
// A cast within a formula widens, and loses nothing: a `From` for each factor would hide the formula.
ghost use Rattle.std.specs.Prelude.{◌≡◌, ◌<◌, length, get_or, pos, nat_abs, ◌<ℤ◌};
ghost use Rattle.sheet.specs.Plane as plane;
ghost use Rattle.sheet.specs.Code as Code;
ghost use Rattle.sheet.specs.Values.{at};

use crate::spots::Spot;

// The squared length of the way from one point to another: no product is above 16,383², the sum not above 2 · 16,383².
pub fn squared(a: Spot, b: Spot) -> u32
    ensures { result ≡ nat_abs (plane.squared (at a) (at b)) }
{
    let x = b.x as i32 - a.x as i32;
    let y = b.y as i32 - a.y as i32;
    (x * x + y * y) as u32
}

// Twice the signed area of a triangle, from the differences to its first corner: no product is above 16,383², no sum above 2 · 16,383².
pub fn turn(a: Spot, b: Spot, c: Spot) -> i32
    ensures { result ≡ plane.turn (at a) (at b) (at c) }
{
    (b.x as i32 - a.x as i32) * (c.y as i32 - a.y as i32)
        - (b.y as i32 - a.y as i32) * (c.x as i32 - a.x as i32)
}

// The product of the ways from p to a and to b: positive where they make an acute angle. No product is above 16,383², the sum not above 2 · 16,383².
pub fn dot(p: Spot, a: Spot, b: Spot) -> i32
    ensures { result ≡ Code.dot (at p) (at a) (at b) }
{
    (a.x as i32 - p.x as i32) * (b.x as i32 - p.x as i32)
        + (a.y as i32 - p.y as i32) * (b.y as i32 - p.y as i32)
}

// Twice the area of a triangle whose corners run counterclockwise: the turn, as the number without a sign that areas are added up in.
pub fn doubled(a: Spot, b: Spot, c: Spot) -> u32
    requires { pos 0 <ℤ plane.turn (at a) (at b) (at c) }
    ensures { result ≡ nat_abs (plane.turn (at a) (at b) (at c)) }
{
    turn(a, b, c) as u32
}

// A coordinate of the corner at place s.
pub fn at_corner(list: &[u16], corners: &[u16], s: usize) -> u16
    requires { (s < length corners.now) × (get_or corners.now s 0 < length list.now) }
    ensures { result ≡ get_or list.now (get_or corners.now s 0) 0 }
{
    list[usize::from(corners[s])]
}
