// Parity: remainders, weights and bursts. Document 01, "Parity"; request 5; clauses 7.4.2, 7.4.3 and 7.5.2. Each code's type has its numbers: parity
// bits of a group, the polynomial's lower part, positions of a codeword, bits of a burst, groups of a multiblock and blocks of a group.
#![tactic(auto)]

ghost use Rattle.std.specs.Prelude.{◌≡◌};
ghost use Rattle.bits.specs.Order.{bit_at, octets_in, word_bit};
ghost use Rattle.parity.specs.Codeword.{crc12, crc3, fec, parity_of, multiblock_parity};
ghost use Rattle.parity.specs.Answer.{burst_for};

mod bitwise;
mod group;
mod search;
mod word;

use bitwise::Polynomial;

// A burst in an FEC codeword: its first position, and its bits from there on, lowest first.
#[derive(Clone, Copy, Debug, PartialEq, Eq)]
pub struct Burst {
    pub place: u16,
    pub pattern: u16,
}

#[derive(Clone, Copy)]
pub struct Crc12;

impl Crc12 {
    pub const WIDTH: u32 = 12;

    pub const LOWER: u32 = 0x30F;

    pub const POSITIONS: usize = 2060;

    pub const LIMIT: usize = 12;

    pub const GROUPS: usize = 1;

    pub const BLOCKS: usize = 32;

    const POLYNOMIAL: Polynomial = Polynomial {
        width: Crc12::WIDTH,
        lower: Crc12::LOWER,
    };

    // The parity of octets, of any number.
    pub fn of(octets: &[u8]) -> u32
        ensures { result ≡ parity_of crc12 octets.now }
    {
        let r = rows::of_octets(octets);
        let (_, rest) = octets.as_chunks::<8>();
        Crc12::POLYNOMIAL.rest(r, rest)
    }

    // The parity of the octets that words hold, of any number.
    pub fn of_words(words: &[u64]) -> u32
        ensures { result ≡ parity_of crc12 (octets_in words.now) }
    {
        rows::of_words(words)
    }
}

#[derive(Clone, Copy)]
pub struct Crc3;

impl Crc3 {
    pub const WIDTH: u32 = 3;

    pub const LOWER: u32 = 0x3;

    pub const POSITIONS: usize = 515;

    pub const LIMIT: usize = 3;

    pub const GROUPS: usize = 4;

    pub const BLOCKS: usize = 8;

    // The parities of the four groups of a multiblock's octets, in one number: the first group's the highest. Bits past the end are 0.
    pub fn of(octets: &[u8]) -> u32
        ensures { result ≡ multiblock_parity crc3 (bit_at octets.now) }
    {
        group::of_all(octets)
    }

    // The same of the octets that words hold.
    pub fn of_words(words: &[u64]) -> u32
        ensures { result ≡ multiblock_parity crc3 (word_bit words.now) }
    {
        group::of_all(words)
    }
}

#[derive(Clone, Copy)]
pub struct Fec;

impl Fec {
    pub const WIDTH: u32 = 26;

    pub const LOWER: u32 = 0x0220211;

    pub const POSITIONS: usize = 2074;

    pub const LIMIT: usize = 9;

    pub const GROUPS: usize = 1;

    pub const BLOCKS: usize = 32;

    const POLYNOMIAL: Polynomial = Polynomial {
        width: Fec::WIDTH,
        lower: Fec::LOWER,
    };

    // The parity of octets, of any number.
    pub fn of(octets: &[u8]) -> u32
        ensures { result ≡ parity_of fec octets.now }
    {
        let (blocks, rest) = octets.as_chunks::<8>();
        Fec::POLYNOMIAL.rest(word::of_blocks(blocks), rest)
    }

    // The parity of the octets that words hold, of any number.
    pub fn of_words(words: &[u64]) -> u32
        ensures { result ≡ parity_of fec (octets_in words.now) }
    {
        word::of_blocks(words)
    }

    // The burst of at most LIMIT bits that makes a remainder, if there is one: no two make the same.
    pub fn burst(remainder: u32) -> Option<Burst>
        ensures { result ≡ burst_for fec remainder }
    {
        if remainder < 1 << Fec::WIDTH {
            let table = weights::table();
            search::search(&table, remainder)
        } else {
            None
        }
    }
}

// The constants are the numbers of the definitions.
fn tied()
    ensures crc12_polynomial { (crc12.width ≡ Crc12.WIDTH) × (crc12.lower ≡ Crc12.LOWER) × (crc12.positions ≡ Crc12.POSITIONS) × (crc12.limit ≡ Crc12.LIMIT) }
    ensures crc12_groups { (crc12.groups ≡ Crc12.GROUPS) × (crc12.blocks ≡ Crc12.BLOCKS) }
    ensures fec_polynomial { (fec.width ≡ Fec.WIDTH) × (fec.lower ≡ Fec.LOWER) × (fec.positions ≡ Fec.POSITIONS) × (fec.limit ≡ Fec.LIMIT) }
    ensures fec_groups { (fec.groups ≡ Fec.GROUPS) × (fec.blocks ≡ Fec.BLOCKS) }
    ensures crc3_polynomial { (crc3.width ≡ Crc3.WIDTH) × (crc3.lower ≡ Crc3.LOWER) × (crc3.positions ≡ Crc3.POSITIONS) × (crc3.limit ≡ Crc3.LIMIT) }
    ensures crc3_groups { (crc3.groups ≡ Crc3.GROUPS) × (crc3.blocks ≡ Crc3.BLOCKS) }
{}
