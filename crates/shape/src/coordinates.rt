// One coordinate and one position: floats and grid numbers.
// For the layer above: no public call, so a `requires` may stand.
ghost use Rattle.std.specs.Prelude.{◌≡◌, ◌+◌, ◌≤◌, length, pos};
ghost use Rattle.std.specs.Float.{binary64};
ghost use Rattle.std.specs.Float.Ieee.{of_int, in_unsigned};
ghost use Rattle.shape.specs.Answers.{asked, reply};
ghost use Rattle.shape.specs.Bytes.{code};
ghost use Rattle.shape.specs.Coordinates.{coordinate, float_at, coordinate_at, grid_number, grid_asks, grid_of, grid_at};

use crate::block::{Block, ByteOrder};
use crate::{Coordinate, Position};
use sheet::{Refusal, Rule};

// Whether x is a whole number from 0 to 16,383 with its sign bit clear: then its whole part has x's own pattern.
fn on_grid(x: f64) -> bool
    ensures { result ≡ in_unsigned binary64 14 x }
{
    if x > -1.0 && x < 16384.0 {
        let n = std::num::truncating_f64_to_u64(x);
        return f64::to_bits(n as f64) == f64::to_bits(x);
    }
    false
}

// What a float is as a coordinate. The cast loses nothing: x is on the grid.
pub fn coordinate_of(x: f64) -> Coordinate
    ensures { result ≡ coordinate x }
{
    if on_grid(x) {
        Coordinate::Grid(x as u16)
    } else if x.is_finite() {
        Coordinate::OffGrid(x)
    } else {
        Coordinate::NotFinite
    }
}

// The grid number of a float, or 0.
pub fn grid(x: f64) -> u16
    ensures { result ≡ grid_of (coordinate x) }
{
    coordinate_of(x).grid_or_0()
}

impl Block<'_> {
    pub fn float_at(&self, at: usize) -> f64
        requires { at + 8 ≤ length self.now.bytes.now }
        ensures { result ≡ float_at (code self.now.order) self.now.bytes.now at }
    {
        std::num::f64_from_bits_with_nan(self.number8(at))
    }

    pub fn coordinate_at(&self, at: usize) -> Coordinate
        requires { at + 8 ≤ length self.now.bytes.now }
        ensures { result ≡ coordinate_at (code self.now.order) self.now.bytes.now at }
    {
        coordinate_of(self.float_at(at))
    }

    // The two floats of sixteen bytes.
    pub fn position_at(&self, at: usize) -> Position
        requires { at + 16 ≤ length self.now.bytes.now }
        ensures x_value { result.x ≡ float_at (code self.now.order) self.now.bytes.now at }
        ensures y_value { result.y ≡ float_at (code self.now.order) self.now.bytes.now (at + 8) }
    {
        Position {
            x: self.float_at(at),
            y: self.float_at(at + 8),
        }
    }

    // The grid numbers of the position at a place, each 0 where there is none.
    pub fn grid_position(&self, at: usize) -> (u16, u16)
        requires { at + 16 ≤ length self.now.bytes.now }
        ensures x_value { result.0 ≡ grid_at (code self.now.order) self.now.bytes.now at }
        ensures y_value { result.1 ≡ grid_at (code self.now.order) self.now.bytes.now (at + 8) }
    {
        let p = self.position_at(at);
        (grid(p.x), grid(p.y))
    }
}

// The float of eight bytes, under any byte for a byte order.
pub fn float_at(s: &[u8], order: u8, at: usize) -> f64
    requires { at + 8 ≤ length s.now }
    ensures { result ≡ float_at order s.now at }
{
    let order = ByteOrder::of(order);
    Block { bytes: s, order }.float_at(at)
}

// Its coordinate.
pub fn coordinate_at(s: &[u8], order: u8, at: usize) -> Coordinate
    requires { at + 8 ≤ length s.now }
    ensures { result ≡ coordinate_at order s.now at }
{
    let order = ByteOrder::of(order);
    Block { bytes: s, order }.coordinate_at(at)
}

// The two floats of sixteen bytes, under any byte for a byte order: docs/PROMISES.md names it so.
pub fn position_at(s: &[u8], order: u8, at: usize) -> Position
    requires { at + 16 ≤ length s.now }
    ensures { (result.x ≡ float_at order s.now at) × (result.y ≡ float_at order s.now (at + 8)) }
{
    let order = ByteOrder::of(order);
    Block { bytes: s, order }.position_at(at)
}

impl Coordinate {
    // The grid number that it is, or the rule that it breaks.
    pub fn grid_number(self) -> Result<u16, Rule>
        ensures { result ≡ grid_number self }
    {
        match self {
            Coordinate::Grid(g) => Ok(g),
            Coordinate::OffGrid(_) => Err(Rule::OffGrid),
            Coordinate::NotFinite => Err(Rule::NotFinite),
        }
    }

    // The same of a coordinate that stands at a place.
    pub fn grid_number_at(self, place: usize) -> Result<u16, Refusal>
        ensures { reply result ≡ asked (grid_asks self place) (grid_of self) }
    {
        self.grid_number().map_err(|rule| rule.at(place))
    }

    // 0 where there is none, as `grid_of` has it.
    fn grid_or_0(self) -> u16
        ensures { result ≡ grid_of self }
    {
        self.grid_number().unwrap_or(0)
    }
}

// A grid position as floats, exactly.
pub fn position_of(x: u16, y: u16) -> Position
    ensures { (result.x ≡ of_int binary64 (pos x)) × (result.y ≡ of_int binary64 (pos y)) }
{
    Position {
        x: f64::from(x),
        y: f64::from(y),
    }
}
