// Multiblocks of blocks with gaps of two bits, written to a lane and read from it: clauses 7.1.2, 7.1.3, 7.2.2 and 7.2.5; request 2. A block is ten
// whole octets: eight times a pair of bits and a data octet. The first pair is the header, the others are fill.
#![tactic(auto)]

ghost use Rattle.std.specs.Prelude.{◌≡◌, ◌+◌, ◌*◌, ◌<◌, leb, length};
ghost use Rattle.bits.specs.Choice.{pick};
ghost use Rattle.bits.specs.Order.{bit_at, digit, number, octets_of, word_bit, laid_at};
ghost use Rattle.fill.specs.Table38.{pairs_of, packed};
ghost use Rattle.frame.specs.Headers.{header_of};
ghost use Rattle.frame.specs.Lane.{lane_octets, multiblock, fill_after, data_octets, first_bit, second_bit, lane_read};
ghost use Rattle.blocks80.specs.inner.Half.{pairs_apart, octets_apart, half, gathered};

use frame::blocks;
use frame::blocks::Multiblock;
use frame::headers::Headers;

// Octets of a multiblock on the lane: ten for each block.
pub const OCTETS: usize = 10 * 32;

// Four pairs, the first the lowest, ten bits apart, and four octets, ten bits apart.
#[tactic(auto, unfolding(crate::specs::inner::Half::pairs_apart))]
fn pairs_apart(pairs: u64) -> u64
    ensures { result ≡ pairs_apart pairs }
{
    ((pairs % 4) << 30) + ((pairs >> 2) % 4 << 20) + ((pairs >> 4) % 4 << 10) + (pairs >> 6) % 4
}

#[tactic(auto, unfolding(crate::specs::inner::Half::octets_apart))]
fn octets_apart(octets: u64) -> u64
    ensures { result ≡ octets_apart octets }
{
    ((octets >> 24) % 256 << 30)
        + ((octets >> 16) % 256 << 20)
        + ((octets >> 8) % 256 << 10)
        + octets % 256
}

// Half a block: four pairs with an octet behind each.
fn half_of(pairs: u64, octets: u64) -> u64
    ensures { result ≡ half pairs octets }
{
    (pairs_apart(pairs) << 8) + octets_apart(octets)
}

// The eight pairs of a block, the first the lowest: the header that carries a bit of the sync word, and the fill of the block's register.
fn pairs_of(register: u32, sync: u32, block: usize) -> u64
    requires { block < 32 }
    ensures { result ≡ packed (pairs_of register) * 4 + header_of (digit 32 sync block) }
{
    let header = 2 - ((sync >> (31 - block)) & 1);
    u64::from(fill::pairs(register) << 2) + u64::from(header)
}

// A multiblock that carries a sync word and 32 blocks of data, over the start of `lane`, and the fill register after it; nothing where it does not
// fit, and the register as it was.
pub fn write(register: u32, sync: u32, blocks: &[u64; 32], lane: &mut [u8]) -> u32
    ensures value { result ≡ pick (leb (lane_octets 2) (length lane.old)) (fill_after 2 register) register }
    ensures lane_after { lane.new ≡ laid_at (multiblock 2 register sync (octets_of (word_bit blocks.now) 256)) 0 lane.old }
{
    if lane.len() < OCTETS {
        return register;
    }
    let mut fill = register & 0x1_ffff;
    for (block, &own) in blocks.iter().enumerate() {
        let pairs = pairs_of(fill, sync, block);
        let upper = half_of(pairs, own >> 32);
        let lower = half_of(pairs >> 8, own);
        bits::put_word(lane, 10 * block, (upper << 24) + (lower >> 16));
        bits::put_word(lane, 10 * block + 2, (upper << 40) + lower);
        fill = fill::next_register(fill);
    }
    fill
}

// The four octets of half a block.
#[tactic(auto, unfolding(crate::specs::inner::Half::gathered))]
fn data_of(half: u64) -> u64
    ensures { result ≡ gathered half }
{
    ((half >> 30) % 256 << 24) + ((half >> 20) % 256 << 16) + ((half >> 10) % 256 << 8) + half % 256
}

// The multiblock on a lane of its length, which the compiler knows, so that the loop tests none. What stands in the gaps is not read.
fn gather(lane: &[u8; OCTETS]) -> Multiblock
    ensures octets_value { result.octets ≡ data_octets 2 (bit_at lane.now) 0 }
    ensures first_value { result.headers.first ≡ number (first_bit 2 (bit_at lane.now) 0) 0 32 }
    ensures second_value { result.headers.second ≡ number (second_bit 2 (bit_at lane.now) 0) 0 32 }
{
    let mut octets = [0u8; 256];
    let mut first: u32 = 0;
    let mut second: u32 = 0;
    let (blocks, _) = lane.as_chunks::<10>();
    for (block, own) in blocks.iter().enumerate() {
        let upper = bits::word_at(own, 0);
        let lower = bits::word_at(own, 2);
        let header = (upper >> 62) as u32;
        first = (first << 1) | (header >> 1);
        second = (second << 1) | (header & 1);
        let data = (data_of(upper >> 24) << 32) + data_of(lower % 0x100_0000_0000);
        bits::put_word(&mut octets[..], 8 * block, data);
    }
    Multiblock {
        octets,
        headers: Headers { first, second },
    }
}

// The multiblock at the start of `lane`; nothing where it is too short.
pub fn read(lane: &[u8]) -> Multiblock
    ensures octets_value { result.octets ≡ data_octets 2 (lane_read 2 lane.now) 0 }
    ensures first_value { result.headers.first ≡ number (first_bit 2 (lane_read 2 lane.now) 0) 0 32 }
    ensures second_value { result.headers.second ≡ number (second_bit 2 (lane_read 2 lane.now) 0) 0 32 }
{
    match lane.first_chunk() {
        Some(whole) => gather(whole),
        None => blocks::NOTHING,
    }
}
