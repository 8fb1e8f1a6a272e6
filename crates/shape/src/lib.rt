// The lower part of layer 3, polygon bytes: numbers, coordinates, and one polygon at a place of a block. Document 01, 'Polygon bytes'.
// For the layers above: no public call, so a `requires` may stand.
#![tactic(auto)]

pub mod block;
pub mod coordinates;
pub mod reader;
pub mod writer;

ghost use Rattle.std.specs.Prelude.{◌≡◌};
ghost use Rattle.shape.specs.Types.{type_of};

// What is read and written: document 01's and 02's types, each with its number.
#[derive(Clone, Copy, Debug, PartialEq, Eq)]
pub enum Shape {
    Point = 1,
    Polygon = 3,
    MultiPoint = 4,
    MultiPolygon = 6,
}

impl Shape {
    pub fn number(self) -> u32
        ensures { result ≡ type_of self }
    {
        self as u32
    }
}

// A coordinate as read: a grid number, a finite value off the grid as it was read, or not a finite number.
#[derive(Clone, Copy, Debug, PartialEq)]
pub enum Coordinate {
    Grid(u16),
    OffGrid(f64),
    NotFinite,
}

// A position as read, before its coordinates are judged: two floats, as document 01 names it.
#[derive(Clone, Copy, Debug, PartialEq)]
pub struct Position {
    pub x: f64,
    pub y: f64,
}
