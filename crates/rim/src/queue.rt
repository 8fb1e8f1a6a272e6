// The sides that wait to be peeled: a binary heap of their places, with the key of each beside it. The side that goes before all others
// stands first. No more wait than the rim has sides, so 1,024 places are enough.
// That it is a heap, and that a key is its side's, stay clauses: the order is the office's, which the queue does not hold.
// For the layer above: no public call, so a `requires` may stand.
ghost use Rattle.std.specs.Prelude.{◌≡◌, ◌+◌, ◌/◌, ◌%◌, ◌<◌, ◌≤◌, eqb, length, get_or, set};
ghost use Rattle.sheet.specs.Office.{next, last};
ghost use Rattle.sheet.specs.Code.{Numbered};
ghost use Rattle.rim.specs.Code.{front, Held};
ghost use Rattle.rim.specs.Heap.{Pushed, Sunk, Popped, Joined, Leading, Next};
ghost use Rattle.rim.specs.Values.{plan_of, office_of, Known, Heaped, Waits};
ghost use Rattle.rim.specs.Peel as peeling;

use crate::answers::Side;
use crate::keys::{Key, Keyed, length_of};
use crate::office::{Accepted, Plan, Sides};
use sheet::sides::{last_of, next_of};

// The places of the sides and their keys, in two lists, since a side takes 10 bytes so and would take 16 as a pair; and how many wait.
#[derive(Drop)]
pub struct Queue {
    pub places: [u16; 1024],
    pub keys: [Key; 1024],
    pub waiting: usize,
}

impl Queue {
    // All sides of the rim wait, and no others.
    pub fn of_rim(office: &Accepted, kept: &[u8]) -> Queue
        requires { (length office.now.corners.now / 3 ≤ length kept.now) × (peeling.rims (office_of office.now) (front office.now.corners.now kept.now) ≤ 1024) }
        ensures { Waits (office_of office.now) (front office.now.corners.now kept.now) result }
    {
        let mut queue = Queue {
            places: [0; 1024],
            keys: [0; 1024],
            waiting: 0,
        };
        let Accepted {
            xs,
            ys,
            corners,
            mate,
        } = *office;
        let plan = Plan { xs, ys, corners };
        let sides = Sides { corners, mate };
        for s in 0..corners.len() {
            if sides.is_rim(kept, s) {
                queue.push(&plan, plan.keyed(s as u16));
            }
        }
        queue
    }

    fn at(&self, i: usize) -> Keyed
        requires { (i < length self.now.places) × (i < length self.now.keys) }
        ensures { (result.side ≡ get_or self.now.places i 0) × (result.key ≡ get_or self.now.keys i 0) }
    {
        Keyed {
            side: self.places[i],
            key: self.keys[i],
        }
    }

    fn put(&mut self, i: usize, side: Keyed)
        requires { (i < length self.old.places) × (i < length self.old.keys) }
        ensures { (self.new.places ≡ set self.old.places i side.side) × (self.new.keys ≡ set self.old.keys i side.key) × (self.new.waiting ≡ self.old.waiting) }
    {
        self.places[i] = side.side;
        self.keys[i] = side.key;
    }

    // Puts a side to those that wait.
    pub fn push(&mut self, plan: &Plan, side: Keyed)
        requires heaped { Heaped (plan_of plan.now) self.old × (self.old.waiting < 1024) }
        requires side_known { Known (plan_of plan.now) side }
        ensures pushed { Pushed (plan_of plan.now) self.old.places self.new.places self.new.keys self.old.waiting side.side }
        ensures one_more { self.new.waiting ≡ self.old.waiting + 1 }
    {
        let mut i = self.waiting;
        while i > 0 {
            let p = (i - 1) / 2;
            let above = self.at(p);
            if !plan.outranks(side, above) {
                break;
            }
            self.put(i, above);
            i = p;
        }
        self.put(i, side);
        self.waiting += 1;
    }

    // Of place c and the next, of those that wait, the one whose side goes first. Where the keys differ, what is added to c needs no branch.
    pub fn leader(&self, plan: &Plan, c: usize) -> usize
        requires { (c < self.now.waiting) × (self.now.waiting ≤ 1024) × Heaped (plan_of plan.now) self.now }
        ensures { Leading (plan_of plan.now) self.now.places self.now.waiting c result }
    {
        let d = c + 1;
        if d >= self.waiting {
            return c;
        }
        let one = self.keys[c];
        let two = self.keys[d];
        if one != two {
            return c + usize::from(one < two);
        }
        if plan.second_before(self.places[d], self.places[c]) {
            d
        } else {
            c
        }
    }

    // Puts a side in the place of the first.
    pub fn sink(&mut self, plan: &Plan, side: Keyed)
        requires heaped { Heaped (plan_of plan.now) self.old × (0 < self.old.waiting) × (self.old.waiting ≤ 1024) }
        requires side_known { Known (plan_of plan.now) side }
        ensures sunk { Sunk (plan_of plan.now) self.old.places self.new.places self.new.keys self.old.waiting side.side }
        ensures as_many { self.new.waiting ≡ self.old.waiting }
    {
        let mut i = 0;
        let mut c = 1;
        while c < self.waiting {
            let g = self.leader(plan, c);
            let under = self.at(g);
            if !plan.outranks(under, side) {
                break;
            }
            self.put(i, under);
            i = g;
            c = 2 * g + 1;
        }
        self.put(i, side);
    }

    // Drops the first.
    pub fn drop_first(&mut self, plan: &Plan)
        requires { Heaped (plan_of plan.now) self.old × (0 < self.old.waiting) × (self.old.waiting ≤ 1024) }
        ensures popped { Popped (plan_of plan.now) self.old.places self.new.places self.new.keys self.old.waiting }
        ensures one_less { self.new.waiting + 1 ≡ self.old.waiting }
    {
        self.waiting -= 1;
        if self.waiting > 0 {
            let last = self.at(self.waiting);
            self.sink(plan, last);
        }
    }

    // Of the mates of the two other sides of side s's triangle, puts those that are not stuck in the place of the first. Where both are stuck the
    // first stays: it is stuck too by now, and dropped when it is met.
    pub fn join(&mut self, plan: &Plan, mate: &[u16; 6129], rim: &[u8], s: usize)
        requires heaped { Heaped (plan_of plan.now) self.old × (0 < self.old.waiting) × (self.old.waiting < 1024) × (length plan.now.xs.now ≤ length rim.now) }
        requires s_in_bounds { (s < length plan.now.corners.now) × (get_or mate.now (next s) 0 < length plan.now.corners.now) × (get_or mate.now (last s) 0 < length plan.now.corners.now) }
        ensures { Joined (plan_of plan.now) rim.now self.old.places self.new.places self.new.keys self.old.waiting self.new.waiting (get_or mate.now (next s) 0) (get_or mate.now (last s) 0) }
    {
        let outward = mate[next_of(s)];
        let inward = mate[last_of(s)];
        let one = is_stuck(plan.corners, rim, usize::from(outward));
        let two = is_stuck(plan.corners, rim, usize::from(inward));
        if one & two {
            return;
        }
        if one {
            self.sink(plan, plan.keyed(inward));
            return;
        }
        self.sink(plan, plan.keyed(outward));
        if two {
            return;
        }
        self.push(plan, plan.keyed(inward));
    }

    // The side to peel next, which then stands first. Sides before it whose triangle's third corner is on the rim are dropped: they are not removable
    // any more.
    pub fn next_side(&mut self, office: &Accepted, kept: &[u8], rim: &[u8]) -> Option<Side>
        requires { Held (office_of office.now) office.now.mate.now kept.now rim.now × (self.old.waiting ≤ 1024) × Waits (office_of office.now) (front office.now.corners.now kept.now) self.old }
        ensures { Next (office_of office.now) (front office.now.corners.now kept.now) self.new.places self.new.keys self.new.waiting result }
    {
        let plan = Plan {
            xs: office.xs,
            ys: office.ys,
            corners: office.corners,
        };
        while self.waiting > 0 {
            let s = usize::from(self.places[0]);
            let free = !is_stuck(office.corners, rim, s);
            if free {
                return Some(Side {
                    place: s,
                    squared: length_of(self.keys[0]),
                });
            }
            self.drop_first(&plan);
        }
        None
    }
}

// Whether side s is stuck: its triangle's third corner is on the rim, where it stays, so the side is never removable.
pub fn is_stuck(corners: &[u16], rim: &[u8], s: usize) -> bool
    requires { (length corners.now % 3 ≡ 0) × (length corners.now ≤ 6129) × (s < length corners.now) × Numbered corners.now (length rim.now) }
    ensures { result ≡ eqb (get_or rim.now (get_or corners.now (last s) 0) 0) 1 }
{
    let apex = corners[last_of(s)];
    rim[usize::from(apex)] == 1
}
