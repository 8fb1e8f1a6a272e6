// Numbers of two bytes.
// For this crate: no public call, so a `requires` may stand.
ghost use Rattle.std.specs.Prelude.{◌≡◌, ◌+◌, ◌/◌, ◌≤◌, length};
ghost use Rattle.host.specs.Blocks.{pairs};

// The numbers of a block, in the front of a lent list: each is two bytes, low first, from a place on in each run of so many bytes.
#[tactic(auto, using(laws::proofs::Fill::fills_all))]
pub fn decode<'a>(block: &[u8], from: usize, step: usize, list: &'a mut [u16]) -> &'a [u16]
    requires { (from + 2 ≤ step) × (length block.now / step ≤ length list.old) }
    ensures { result.now ≡ pairs block.now from step (length block.now / step) }
{
    let numbers = &mut list[..block.len() / step];
    for (i, number) in numbers.iter_mut().enumerate() {
        let at = from + step * i;
        *number = u16::from_le_bytes([block[at], block[at + 1]]);
    }
    numbers
}
