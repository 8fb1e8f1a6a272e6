// Text put into a lent buffer, one piece after another: there is no heap, and so no text to print into.
// For this crate: no public call, so a `requires` may stand.
ghost use Rattle.std.specs.Prelude.{◌≡◌, [], ◌∷◌, ◌+◌, ◌*◌, ◌≤◌, ◌<◌, length, drop};
ghost use Rattle.listing.specs.Line.{decimal, onward};

// A lent buffer, and the place up to which text is put into it.
#[derive(Drop)]
pub struct Line<'a> {
    pub out: &'a mut [u8],
    pub at: usize,
}

impl<'a> Line<'a> {
    ghost use Rattle.listing.specs.Code.{Puts};

    // Nothing is put into it yet.
    pub fn new(out: &'a mut [u8]) -> Line<'a>
        ensures same_reference { result.out.ghost_name ≡ out.entry.ghost_name }
        ensures out { result.out.now ≡ out.old }
        ensures at { result.at ≡ 0 }
    {
        Line { out, at: 0 }
    }

    pub fn put_bytes(&mut self, text: &[u8])
        requires { self.old.at + length text.now ≤ length self.old.out.now }
        ensures { Puts self.old self.new text.now }
    {
        let end = self.at + text.len();
        self.out[self.at..end].copy_from_slice(text);
        self.at = end;
    }

    // A number in decimal.
    #[tactic(auto, using(crate::proofs::Spelling::decimal_is))]
    pub fn put_number(&mut self, n: u64)
        requires { self.old.at + 20 ≤ length self.old.out.now }
        ensures put { Puts self.old self.new (decimal n) }
        ensures upper_bound { self.new.at ≤ self.old.at + 20 }
    {
        let mut digits = itoa::Buffer::new();
        self.put_bytes(digits.format(n).as_bytes());
    }

    // A field after the first: a space and a number.
    #[tactic(auto, using(crate::proofs::Putting::puts_two))]
    pub fn put_field(&mut self, n: u64)
        requires { self.old.at + 21 ≤ length self.old.out.now }
        ensures put { Puts self.old self.new (32 ∷ decimal n) }
        ensures upper_bound { self.new.at ≤ self.old.at + 21 }
    {
        self.put_bytes(b" ");
        self.put_number(n);
    }

    #[tactic(auto, unfolding(crate::specs::Line::onward))]
    pub fn put_end(&mut self)
        requires { self.old.at < length self.old.out.now }
        ensures { Puts self.old self.new (onward []) }
    {
        self.put_bytes(b"\n");
    }

    // The fields of a ring, and the line's end.
    pub fn put_ring(&mut self, ring: &[u16])
        requires { self.old.at + 21 * length ring.now < length self.old.out.now }
        ensures { Puts self.old self.new (onward ring.now) }
    {
        for p in ring {
            self.put_field(u64::from(*p));
        }
        self.put_end();
    }
}
