// The remainder of octets, bit by bit, by a polynomial of any width up to 31: document 01, "Parity".
ghost use Rattle.std.specs.Prelude.{◌≡◌, ◌^◌, ◌<◌, ◌≤◌};
ghost use Rattle.bits.specs.Order.{bits_of, digits};
ghost use Rattle.polynomial.specs.Remainder.{next, remainder_from};

// x^width + lower
#[derive(Clone, Copy)]
pub(crate) struct Polynomial {
    pub(crate) width: u32,
    pub(crate) lower: u32,
    ghost narrow: { width ≤ 31 },
    ghost reduced: { lower < 2 ^ width },
}

impl Polynomial {
    // One bit more.
    fn next_bit(self, r: u32, bit: u32) -> u32
        requires { r < 2 ^ self.width }
        ensures { result ≡ next self.width self.lower r bit }
    {
        let up = r << 1;
        let top = ((up >> self.width) ^ bit) & 1;
        (top * self.lower) ^ (up & ((1u32 << self.width) - 1))
    }

    // Eight bits more, highest first.
    fn next_octet(self, r: u32, octet: u8) -> u32
        requires { r < 2 ^ self.width }
        ensures { result ≡ remainder_from self.width self.lower r (digits 8 octet) }
    {
        let bits = u32::from(octet);
        let mut s = r;
        for k in (0..8u32).rev() {
            s = self.next_bit(s, (bits >> k) & 1);
        }
        s
    }

    // All of some octets more.
    pub(crate) fn rest(self, r: u32, octets: &[u8]) -> u32
        requires { r < 2 ^ self.width }
        ensures { result ≡ remainder_from self.width self.lower r (bits_of octets.now) }
    {
        let mut s = r;
        for octet in octets {
            s = self.next_octet(s, *octet);
        }
        s
    }
}
