// CRC-12 a block at once, from eight rows of 256 remainders, one row per octet of the block: request 3; clause 7.4.2.
#![tactic(auto)]

ghost use Rattle.std.specs.Prelude.{◌≡◌, ◌*◌, ◌/◌, ◌^◌, ◌<◌, length, map};
ghost use Rattle.bits.specs.Order.{bit_at, bits_of, list_from, digits, octets_in, word_bit};
ghost use Rattle.polynomial.specs.Remainder.{remainder, remainder_from};
ghost use Rattle.rows.specs.Rows.{eight_rows};

use bits::Block;

mod table;

// A block more. The remainder so far lies over its first 12 bits, in octets 0 and 1; then each octet has its row.
fn next_block<B: Block>(rows: &[[u16; 256]; 8], r: u32, block: &B) -> u32
    requires rows_value { rows.now ≡ eight_rows 12 0x30F }
    requires r_bound { r < 2 ^ 12 }
    ensures { result ≡ remainder_from 12 0x30F r (digits 64 (B.word block.now)) }
{
    let over = u64::from(r) << 52;
    let mut s: u16 = 0;
    for (k, row) in rows.iter().enumerate() {
        s ^= row[usize::from(block.octet(k) ^ over.octet(k))];
    }
    u32::from(s)
}

// The CRC-12 of blocks. The table is taken once a call and lent: the compiler fills it in on the stack.
fn of_blocks<B: Block>(blocks: &[B]) -> u32
    ensures { result ≡ remainder 12 0x30F (list_from (word_bit (map B.word blocks.now)) 0 (64 * length blocks.now)) }
{
    let rows = table::rows();
    let mut s: u32 = 0;
    for block in blocks {
        s = next_block(&rows, s, block);
    }
    s
}

// The CRC-12 of as many octets as are whole blocks.
pub fn of_octets(octets: &[u8]) -> u32
    ensures { result ≡ remainder 12 0x30F (list_from (bit_at octets.now) 0 (64 * (length octets.now / 8))) }
{
    let (blocks, _) = octets.as_chunks::<8>();
    of_blocks(blocks)
}

// The CRC-12 of the octets that words hold.
pub fn of_words(words: &[u64]) -> u32
    ensures { result ≡ remainder 12 0x30F (bits_of (octets_in words.now)) }
{
    of_blocks(words)
}
