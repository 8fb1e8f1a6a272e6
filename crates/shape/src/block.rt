// Bytes lent for reading, in one of the two byte orders, and the numbers that stand in them.
// For the layer above: no public call, so a `requires` may stand.
ghost use Rattle.std.specs.Prelude.{◌≡◌, ◌+◌, ◌≤◌, length};
ghost use Rattle.shape.specs.Answers.{asked, reply};
ghost use Rattle.shape.specs.Bytes.{code, byte_order, order_of, order_asks, number_at};

use sheet::{Refusal, Rule};

// Which byte of a number comes first: the high one or the low one.
#[derive(Clone, Copy, Debug, PartialEq, Eq)]
pub enum ByteOrder {
    Big = 0,
    Little = 1,
}

impl From<ByteOrder> for u8 {
    ghost from_gives = { λ order byte. byte ≡ code order };

    fn from(order: ByteOrder) -> u8 {
        order as u8
    }
}

impl TryFrom<u8> for ByteOrder {
    type Error = Rule;

    ghost try_from_gives = { λ byte answer. answer ≡ byte_order byte };

    fn try_from(byte: u8) -> Result<ByteOrder, Rule> {
        match byte {
            0 => Ok(ByteOrder::Big),
            1 => Ok(ByteOrder::Little),
            _ => Err(Rule::ByteOrder),
        }
    }
}

impl ByteOrder {
    // The byte order in which numbers are read under any byte: 0 has the high byte first, any other the low byte first.
    pub fn of(byte: u8) -> ByteOrder
        ensures { result ≡ order_of byte }
    {
        if byte == 0 {
            ByteOrder::Big
        } else {
            ByteOrder::Little
        }
    }

    // The byte order that a byte at a place stands for.
    pub fn at(byte: u8, place: usize) -> Result<ByteOrder, Refusal>
        ensures { reply result ≡ asked (order_asks byte place) (order_of byte) }
    {
        ByteOrder::try_from(byte).map_err(|rule| rule.at(place))
    }
}

// Bytes in a byte order. Nobody compares lent lists, so it derives Clone and Copy alone.
#[derive(Clone, Copy)]
pub struct Block<'a> {
    pub bytes: &'a [u8],
    pub order: ByteOrder,
}

impl Block<'_> {
    // The number of the four bytes at a place.
    pub fn number4(&self, at: usize) -> u32
        requires { at + 4 ≤ length self.now.bytes.now }
        ensures { result ≡ number_at 4 (code self.now.order) self.now.bytes.now at }
    {
        let mut bytes = [0; 4];
        bytes.copy_from_slice(&self.bytes[at..at + 4]);
        match self.order {
            ByteOrder::Big => u32::from_be_bytes(bytes),
            ByteOrder::Little => u32::from_le_bytes(bytes),
        }
    }

    // The number of the eight. No trait of the library's has both conversions at both widths, so one method for the two would be longer.
    pub fn number8(&self, at: usize) -> u64
        requires { at + 8 ≤ length self.now.bytes.now }
        ensures { result ≡ number_at 8 (code self.now.order) self.now.bytes.now at }
    {
        let mut bytes = [0; 8];
        bytes.copy_from_slice(&self.bytes[at..at + 8]);
        match self.order {
            ByteOrder::Big => u64::from_be_bytes(bytes),
            ByteOrder::Little => u64::from_le_bytes(bytes),
        }
    }
}

// The number of the four bytes at a place under any byte for a byte order: 0 has the high byte first, any other the low byte first.
pub fn number4(s: &[u8], order: u8, at: usize) -> u32
    requires { at + 4 ≤ length s.now }
    ensures { result ≡ number_at 4 order s.now at }
{
    let order = ByteOrder::of(order);
    Block { bytes: s, order }.number4(at)
}

// The number of the eight.
pub fn number8(s: &[u8], order: u8, at: usize) -> u64
    requires { at + 8 ≤ length s.now }
    ensures { result ≡ number_at 8 order s.now at }
{
    let order = ByteOrder::of(order);
    Block { bytes: s, order }.number8(at)
}
