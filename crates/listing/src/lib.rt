// The list printer's text: parsing an office, and printing a line. Document 01, 'The printed list'.
// No call asks anything of its caller, and a refusal writes nothing.
#![tactic(auto)]

mod parser;
mod printer;

ghost use Rattle.std.specs.Prelude.{◌≡◌, ◌+◌, ◌*◌, ◌≤◌, length, IfOk};
ghost use Rattle.listing.specs.Answer.{answer, after_parse, printed, after_print};
ghost use Rattle.listing.specs.Line.{line, refusal_line};

use printer::Line;
use sheet::{Refusal, Rule};

// How many points and triangles an office has.
#[derive(Clone, Copy, Debug, PartialEq, Eq)]
pub struct Counts {
    pub points: usize,
    pub triangles: usize,
}

// Parses an office into the fronts of three lists; refusal 4 where one is too short for it. 16,384 points and 32,768 corners hold any office that
// a text can say. Later places stay as they were.
#[tactic(auto, using(crate::proofs::Parsing::after_no_numbers, crate::proofs::Parsing::after_no_counts, crate::proofs::Parsing::after_short))]
pub fn parse(
    text: &[u8],
    xs: &mut [u16],
    ys: &mut [u16],
    corners: &mut [u16],
) -> Result<Counts, Refusal>
    ensures result_value { answer result ≡ (after_parse text.now xs.old ys.old corners.old).answer }
    ensures xs_after { xs.new ≡ (after_parse text.now xs.old ys.old corners.old).xs }
    ensures ys_after { ys.new ≡ (after_parse text.now xs.old ys.old corners.old).ys }
    ensures corners_after { corners.new ≡ (after_parse text.now xs.old ys.old corners.old).corners }
    ensures roomy { IfOk result (λ c. (c.points ≤ length xs.new) × (c.points ≤ length ys.new) × (3 * c.triangles ≤ length corners.new)) }
{
    let mut all = [0u16; 32768];
    let numbers = parser::numbers(text, &mut all).ok_or(Rule::Text.at(0))?;
    let counts = parser::counts(numbers).ok_or(Rule::Text.at(0))?;
    let sides = 3 * counts.triangles;
    if (xs.len() < counts.points) | (ys.len() < counts.points) | (corners.len() < sides) {
        return Err(Rule::ShortBuffer.at(0));
    }
    let (points, rest) = numbers[2..].split_at(2 * counts.points);
    parser::fill_points(points, xs, ys);
    corners[..sides].copy_from_slice(rest);
    Ok(counts)
}

// Prints an entry's line at the front: least limit, triangles peeled, doubled area, ring. Answers its bytes and touches none past them; where
// there is no room for every line of so many fields, answers 0 and writes nothing, as `printed` has it.
pub fn print_line(least: u32, peeled: u32, area: u32, ring: &[u16], out: &mut [u8]) -> usize
    ensures value { result ≡ printed (length ring.now + 3) (line least peeled area ring.now) out.old }
    ensures out_after { out.new ≡ after_print (length ring.now + 3) (line least peeled area ring.now) out.old }
{
    if out.len() / 21 < ring.len() + 3 {
        return 0;
    }
    let mut line = Line::new(out);
    line.put_number(u64::from(least));
    line.put_field(u64::from(peeled));
    line.put_field(u64::from(area));
    line.put_ring(ring);
    line.at
}

// Prints a refusal's line in the same way. Number and place stand apart, since every number of eight bits is printed and a `Refusal` has a rule's alone.
pub fn print_refusal(number: u8, place: usize, out: &mut [u8]) -> usize
    ensures value { result ≡ printed 3 (refusal_line number place) out.old }
    ensures out_after { out.new ≡ after_print 3 (refusal_line number place) out.old }
{
    if out.len() < 63 {
        return 0;
    }
    let mut line = Line::new(out);
    line.put_bytes(b"refused");
    line.put_field(u64::from(number));
    line.put_field(place as u64);
    line.put_end();
    line.at
}
