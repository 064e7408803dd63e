// The FEC remainder word by word, by shifts and without a table: clause 7.5.2.
ghost use Rattle.std.specs.Prelude.{◌≡◌, ◌*◌, ◌^◌, ◌<◌, length, map};
ghost use Rattle.bits.specs.Order.{list_from, digits, word_bit};
ghost use Rattle.polynomial.specs.Remainder.{remainder, remainder_from};
ghost use Rattle.parity.specs.Codeword.{fec};

use crate::Fec;
use bits::Block;

// All FEC parities are below this.
const FEC_PARITIES: u64 = 1 << Fec::WIDTH;

// 64 bits more with FEC, at once. The quotient of the word times x^26 by the polynomial is the word over 1 + u, where u = x^-5 + x^-9 + x^-17 +
// x^-22 + x^-26: that is the word times (1 + u)(1 + u^2)(1 + u^4)(1 + u^8), since no term from u^16 on reaches into 64 bits.
fn fec_word(r: u32, word: u64) -> u32
    requires { r < 2 ^ fec.width }
    ensures { result ≡ remainder_from fec.width fec.lower r (digits 64 word) }
{
    let whole = word ^ (u64::from(r) << 38);
    let q1 = whole ^ (whole >> 5) ^ (whole >> 9) ^ (whole >> 17) ^ (whole >> 22) ^ (whole >> 26);
    let q2 = q1 ^ (q1 >> 10) ^ (q1 >> 18) ^ (q1 >> 34) ^ (q1 >> 44) ^ (q1 >> 52);
    let q4 = q2 ^ (q2 >> 20) ^ (q2 >> 36);
    let q8 = q4 ^ (q4 >> 40);
    ((q8 ^ (q8 << 4) ^ (q8 << 9) ^ (q8 << 17) ^ (q8 << 21)) % FEC_PARITIES) as u32
}

// All of some blocks.
pub(crate) fn of_blocks<B: Block>(blocks: &[B]) -> u32
    ensures { result ≡ remainder fec.width fec.lower (list_from (word_bit (map B.word blocks.now)) 0 (64 * length blocks.now)) }
{
    let mut s: u32 = 0;
    for block in blocks {
        s = fec_word(s, block.word());
    }
    s
}
