// A ring put into an output. The two lists of a ring come one by one, as the public calls are lent them.
// For the layer above: no public call, so a `requires` may stand.
ghost use Rattle.std.specs.Prelude.{◌≡◌, ◌+◌, ◌*◌, ◌≤◌, not, ◌&&◌, T, ◌++◌, length, ◌==◌, is_nan, nat_le, to_bits};
ghost use Rattle.std.proofs.lemmas.List.Edits.{sets};
ghost use Rattle.std.specs.Float.{binary64};
ghost use Rattle.shape.specs.Bytes.{low_bytes};
ghost use Rattle.shape.specs.Writing.{positions, around, head, polygon, low, size};

use crate::block::ByteOrder;
use crate::{Position, Shape, coordinates};

// Whether a ring can have so many positions.
pub fn is_ring_length(n: usize) -> bool
    ensures { result ≡ (nat_le 3 n && nat_le n 1024) }
{
    (3..=1024).contains(&n)
}

pub fn is_ring(xs: &[u16], ys: &[u16]) -> bool
    ensures { result ≡ (length xs.now == length ys.now && (nat_le 3 (length xs.now) && nat_le (length xs.now) 1024)) }
{
    xs.len() == ys.len() && is_ring_length(xs.len())
}

// Whether the coordinates of a part are low, asked several at once: `all` would ask one after another.
fn is_low_part(x: &[u16]) -> bool
    ensures { result ≡ low x.now }
{
    x.iter().fold(true, |low, g| low & (*g <= 16383))
}

// Part by part, so that behind a coordinate that is too large no more than its part is asked.
fn is_low(x: &[u16]) -> bool
    ensures { result ≡ low x.now }
{
    let mut rest = x;
    while 64 < rest.len() {
        let (part, more) = rest.split_at(64);
        if !is_low_part(part) {
            return false;
        }
        rest = more;
    }
    is_low_part(rest)
}

pub fn are_low(xs: &[u16], ys: &[u16]) -> bool
    ensures { result ≡ (low xs.now && low ys.now) }
{
    is_low(xs) && is_low(ys)
}

// Puts a position's sixteen bytes at a place.
fn put_position(out: &mut [u8], at: usize, p: Position)
    requires at_in_bounds { at + 16 ≤ length out.old }
    requires x_is_number { T (not (is_nan p.x)) }
    requires y_is_number { T (not (is_nan p.y)) }
    ensures { out.new ≡ sets out.old at (low_bytes 8 (to_bits binary64 p.x) ++ low_bytes 8 (to_bits binary64 p.y)) }
{
    out[at..at + 8].copy_from_slice(&p.x.to_bits().to_le_bytes());
    out[at + 8..at + 16].copy_from_slice(&p.y.to_bits().to_le_bytes());
}

// Puts the positions of a ring at the front, the first repeated last.
fn put_ring(xs: &[u16], ys: &[u16], out: &mut [u8])
    requires in_bounds { 1 ≤ length xs.now }
    requires xs_len { length xs.now ≡ length ys.now }
    requires ring_fits { 16 * (length xs.now + 1) ≤ length out.old }
    ensures { out.new ≡ sets out.old 0 (positions 1 (around xs.now) (around ys.now)) }
{
    for (i, x) in xs.iter().enumerate() {
        put_position(out, 16 * i, coordinates::position_of(*x, ys[i]));
    }
    put_position(out, 16 * xs.len(), coordinates::position_of(xs[0], ys[0]));
}

fn put_head(out: &mut [u8], n: usize)
    requires in_bounds { 13 ≤ length out.old }
    requires n_bound { n ≤ 1024 }
    ensures { out.new ≡ sets out.old 0 (head 1 n) }
{
    out[0] = ByteOrder::Little.into();
    out[1..5].copy_from_slice(&Shape::Polygon.number().to_le_bytes());
    out[5..9].copy_from_slice(&1u32.to_le_bytes());
    out[9..13].copy_from_slice(&(n as u32 + 1).to_le_bytes());
}

// Puts a polygon at the front: the head, and the positions into the rest of the output after it.
pub fn put_polygon(xs: &[u16], ys: &[u16], out: &mut [u8])
    requires in_bounds { (1 ≤ length xs.now) × (length xs.now ≤ 1024) }
    requires xs_len { length xs.now ≡ length ys.now }
    requires ring_fits { size (length xs.now) ≤ length out.old }
    ensures { out.new ≡ sets out.old 0 (polygon 1 xs.now ys.now) }
{
    put_head(out, xs.len());
    put_ring(xs, ys, &mut out[13..]);
}
