// The CRC-3 remainder of a group of blocks, a block at once, by shifts and without a table: request 5; clause 7.4.3.
ghost use Rattle.std.specs.Prelude.{◌≡◌, ℕ, ◌*◌, ◌<◌};
ghost use Rattle.bits.specs.Order.{bit_at, digits, number, word_bit};
ghost use Rattle.bits.proofs.Numbers.{bit_at_lt};
ghost use Rattle.bits.proofs.WordLists.{word_bit-lt};
ghost use Rattle.polynomial.specs.Remainder.{remainder_from};
ghost use Rattle.parity.specs.Codeword.{crc3, group_parity, multiblock_parity};

use crate::Crc3;

// All CRC-3 parities are below this.
const CRC3_PARITIES: u64 = 1 << Crc3::WIDTH;

// A block more. x^7 is 1 by the polynomial, and so x^63 is 1 and x^64 is x: the sum so far moves up one place, after its bit 63 went to bit 0.
fn next(sum: u64, block: u64) -> u64
    ensures { remainder_from crc3.width crc3.lower 0 (digits 64 result) ≡ remainder_from crc3.width crc3.lower (remainder_from crc3.width crc3.lower 0 (digits 64 sum)) (digits 64 block) }
{
    ((sum ^ (sum >> 63)) << 1) ^ block
}

// What the sum leaves. The quotient of the sum times x^3 by the polynomial is the sum over 1 + u, where u = x^-2 + x^-3: that is the sum times
// (1 + u)(1 + u^2)(1 + u^4)(1 + u^8)(1 + u^16), since no term from u^32 on reaches into 64 bits.
fn left(sum: u64) -> u32
    ensures { result ≡ remainder_from crc3.width crc3.lower 0 (digits 64 sum) }
{
    let q1 = sum ^ (sum >> 2) ^ (sum >> 3);
    let q2 = q1 ^ (q1 >> 4) ^ (q1 >> 6);
    let q4 = q2 ^ (q2 >> 8) ^ (q2 >> 12);
    let q8 = q4 ^ (q4 >> 16) ^ (q4 >> 24);
    let q16 = q8 ^ (q8 >> 32) ^ (q8 >> 48);
    ((q16 ^ (q16 << 1)) % CRC3_PARITIES) as u32
}

// Octets, or words that hold octets, by blocks of 64 bits. Past the end bits are 0.
pub(crate) trait Blocks: Copy {
    ghost bit: { Self → ℕ → ℕ };

    // Block i.
    fn block(self, i: usize) -> u64
        requires { i < crc3.groups * crc3.blocks }
        ensures { result ≡ number (bit self) (64 * i) 64 };

    ghost bits: { (blocks : Self) (k : ℕ) → bit blocks k < 2 };
}

impl Blocks for &[u8] {
    ghost bit = { λ octets. bit_at octets.now };

    ghost bits = { λ octets. bit_at_lt octets.now };

    fn block(self, i: usize) -> u64 {
        bits::word_at(self, 8 * i)
    }
}

impl Blocks for &[u64] {
    ghost bit = { λ words. word_bit words.now };

    ghost bits = { λ words. word_bit-lt words.now };

    fn block(self, i: usize) -> u64 {
        if i < self.len() { self[i] } else { 0 }
    }
}

// The parity of group g.
fn of_group<B: Blocks>(blocks: B, g: usize) -> u32
    requires { g < crc3.groups }
    ensures { result ≡ group_parity crc3 (B.bit blocks) g }
{
    let first = Crc3::BLOCKS * g;
    let mut sum: u64 = 0;
    for k in 0..Crc3::BLOCKS {
        sum = next(sum, blocks.block(first + k));
    }
    left(sum)
}

// The parities of all groups in one number, the first group's the highest.
pub(crate) fn of_all<B: Blocks>(blocks: B) -> u32
    ensures { result ≡ multiblock_parity crc3 (B.bit blocks) }
{
    let mut whole: u32 = 0;
    for g in 0..Crc3::GROUPS {
        whole = (whole << Crc3::WIDTH) + of_group(blocks, g);
    }
    whole
}
