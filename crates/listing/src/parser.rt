// Numbers out of a text, and an office out of numbers.
// For this crate: no public call, so a `requires` may stand.
ghost use Rattle.std.specs.Prelude.{◌≡◌, true, false, ◌+◌, ◌*◌, ◌-◌, ◌/◌, ◌≤◌, length, take, get_or, MatchOption, IfSome};
ghost use Rattle.std.proofs.Math.Option.{none, some};
ghost use Rattle.laws.specs.First.{table};
ghost use Rattle.listing.specs.Text.{white, numbers, counted, point_count, triangle_count};
ghost use Rattle.listing.specs.Code.{scanned, continues};
ghost use Rattle.listing.specs.Answer.{over};

use crate::Counts;

fn is_white(b: u8) -> bool
    ensures { result ≡ white b }
{
    matches!(b, b' ' | b'\n' | b'\r')
}

// A word that has begun: how many digits it has, and the number that they say.
#[derive(Clone, Copy, Default)]
struct Word {
    digits: u8,
    value: u16,
}

impl Word {
    // The word with one more byte, where that still says a number.
    fn longer(self, b: u8) -> Option<Word>
        ensures { MatchOption result (continues self.digits self.value b ≡ false)
            (λ w. (continues self.digits self.value b ≡ true) × (w.digits ≡ self.digits + 1) × (w.value ≡ 10 * self.value + (b - 48))) }
    {
        if !b.is_ascii_digit() || 5 <= self.digits {
            return None;
        }
        let value = self
            .value
            .checked_mul(10)?
            .checked_add(u16::from(b - b'0'))?;
        Some(Word {
            digits: self.digits + 1,
            value,
        })
    }
}

// Puts the numbers of a text at the front of a list that holds as many as it can say, and answers how many they are.
fn scan(text: &[u8], all: &mut [u16; 32768]) -> Option<usize>
    requires { length text.now ≤ 65536 }
    ensures all_after { MatchOption result (none ≡ scanned 0 0 text.now) (λ n. some (take n all.new) ≡ scanned 0 0 text.now) }
    ensures within { IfSome result (λ n. n ≤ 32768) }
{
    let mut count = 0;
    let mut word = Word::default();
    for b in text {
        if !is_white(*b) {
            word = word.longer(*b)?;
        } else if 0 < word.digits {
            all[count] = word.value;
            count += 1;
            word = Word::default();
        }
    }
    if 0 < word.digits {
        all[count] = word.value;
        count += 1;
    }
    Some(count)
}

// The numbers that a text says, put into a list that holds as many as it can say.
#[tactic(auto, using(crate::proofs::Laying::numbers_scan))]
pub fn numbers<'a>(text: &[u8], all: &'a mut [u16; 32768]) -> Option<&'a [u16]>
    ensures { MatchOption result (numbers text.now ≡ none) (λ ns. numbers text.now ≡ some ns.now) }
{
    if 65536 < text.len() {
        return None;
    }
    let count = scan(text, all)?;
    Some(&all[..count])
}

// The two counts, where as many numbers follow as they say.
pub fn counts(numbers: &[u16]) -> Option<Counts>
    ensures { MatchOption result (counted numbers.now ≡ false)
        (λ c. (counted numbers.now ≡ true) × (c.points ≡ point_count numbers.now) × (c.triangles ≡ triangle_count numbers.now)) }
{
    if numbers.len() < 2 {
        return None;
    }
    let points = usize::from(numbers[0]);
    let triangles = usize::from(numbers[1]);
    if numbers.len() != 2 + 2 * points + 3 * triangles {
        return None;
    }
    Some(Counts { points, triangles })
}

// Points are pairs of x and y.
#[tactic(auto, using(laws::proofs::Front::filling_over))]
pub fn fill_points(points: &[u16], xs: &mut [u16], ys: &mut [u16])
    requires { (length points.now / 2 ≤ length xs.old) × (length points.now / 2 ≤ length ys.old) }
    ensures xs_after { xs.new ≡ over (table (λ i. get_or points.now (2 * i) 0) (length points.now / 2)) xs.old }
    ensures ys_after { ys.new ≡ over (table (λ i. get_or points.now (2 * i + 1) 0) (length points.now / 2)) ys.old }
{
    for i in 0..points.len() / 2 {
        xs[i] = points[2 * i];
        ys[i] = points[2 * i + 1];
    }
}
