// Refusals 5 and 6: each search finds the lowest point at which the rule breaks. No public call.
ghost use Rattle.std.specs.Prelude.{◌≡◌, ℕ, ◌<◌, ◌≤◌, length, get_or};
ghost use Rattle.laws.specs.First.{lowest, final};
ghost use Rattle.sheet.specs.Office.{large, same_point, again};
ghost use Rattle.sheet.specs.Code.{starts, bucket, buckets};
ghost use Rattle.sheet.specs.Values.{cloud_of};

use crate::sides::NONE;
use crate::spots::Cloud;

fn bucket_of(x: u16, y: u16) -> usize
    ensures { result ≡ bucket x y }
{
    ((x as u32 * 40503 + y as u32 * 24593) / 4096 % 1024) as usize
}

impl<'a> Cloud<'a> {
    fn is_large(&self, p: usize) -> bool
        requires { p < length self.now.xs.now }
        ensures { result ≡ large (cloud_of self.now) p }
    {
        (self.xs[p] > 16383) | (self.ys[p] > 16383)
    }

    pub fn first_large(&self) -> Option<usize>
        ensures { result ≡ lowest (large (cloud_of self.now)) (length self.now.xs.now) }
    {
        (0..self.xs.len()).find(|&p| self.is_large(p))
    }

    // Two lists hold the points, so no derive compares them.
    fn is_same_point(&self, p: usize, q: usize) -> bool
        requires { (p < length self.now.xs.now) × (q < length self.now.xs.now) }
        ensures { result ≡ same_point (cloud_of self.now) p q }
    {
        (self.xs[q] == self.xs[p]) & (self.ys[q] == self.ys[p])
    }

    // Whether an earlier point equals point p: such a one stands in the same bucket, of which `begun` is the latest before p.
    fn is_again(&self, earlier: &[u16; 1024], p: usize, begun: u16) -> bool
        requires few { (length self.now.xs.now ≤ 1024) × (p < length self.now.xs.now) }
        requires latest { begun ≡ final 65535 (starts (buckets self.now.xs.now self.now.ys.now) (bucket (get_or self.now.xs.now p 0) (get_or self.now.ys.now p 0))) p }
        requires by_index { (q : ℕ) → q < p → get_or earlier.now q 0 ≡ final 65535 (starts (buckets self.now.xs.now self.now.ys.now) (get_or (buckets self.now.xs.now self.now.ys.now) q 0)) q }
        ensures { result ≡ again (cloud_of self.now) p }
    {
        let mut q = begun;
        while q < NONE {
            if self.is_same_point(p, usize::from(q)) {
                return true;
            }
            q = earlier[usize::from(q)];
        }
        false
    }

    // Each point asks those before it in its bucket, which are chained as sides are.
    pub fn first_again(&self) -> Option<usize>
        requires { length self.now.xs.now ≤ 1024 }
        ensures { result ≡ lowest (again (cloud_of self.now)) (length self.now.xs.now) }
    {
        let mut earlier = [NONE; 1024];
        let mut latest = [NONE; 1024];
        for p in 0..self.xs.len() {
            let b = bucket_of(self.xs[p], self.ys[p]);
            let begun = latest[b];
            if self.is_again(&earlier, p, begun) {
                return Some(p);
            }
            earlier[p] = begun;
            latest[b] = p as u16;
        }
        None
    }
}
