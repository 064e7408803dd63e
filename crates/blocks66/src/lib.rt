// Multiblocks of blocks without gaps, written to a lane and read from it: clauses 7.1.2, 7.1.3 and 7.2.2. A multiblock is 33 words of the lane, and
// block i begins 2 * i bits into word i: shifts and masks lay and gather its header and its 64 data bits across octet edges.
#![tactic(auto)]

ghost use Rattle.std.specs.Prelude.{◌≡◌, ◌+◌, ◌-◌, ◌*◌, ◌/◌, ◌%◌, ◌^◌, ◌<◌};
ghost use Rattle.bits.specs.Order.{bit_at, digit, number, octets_of, word_bit, laid_at};
ghost use Rattle.frame.specs.Headers.{header_of};
ghost use Rattle.frame.specs.Lane.{multiblock, data_octets, first_bit, second_bit, lane_read};

use frame::blocks;
use frame::blocks::Multiblock;
use frame::headers::Headers;

// The header that carries a bit of the sync word.
fn header_of(sync: u32, block: usize) -> u64
    requires { block < 32 }
    ensures { result ≡ header_of (digit 32 sync block) }
{
    if (sync >> (31 - block)) & 1 == 1 {
        1
    } else {
        2
    }
}

// The word that a block begins in: the last bits of the data before, the block's header, and the first of its own data.
fn lane_word(sync: u32, before: u64, own: u64, block: usize) -> u64
    requires { block < 32 }
    ensures { result ≡ (before % 2 ^ (2 * block) * 4 + header_of (digit 32 sync block)) * 2 ^ (62 - 2 * block) + own / 2 ^ (2 + 2 * block) }
{
    let header = header_of(sync, block);
    let at = 2 * block;
    ((before << 1) << (63 - at)) | (header << (62 - at)) | ((own >> 2) >> at)
}

// Octets of a multiblock on the lane: 33 words of 64 bits.
pub const OCTETS: usize = 8 * 33;

// A multiblock that carries a sync word and 32 blocks of data, over the start of `lane`; nothing where it does not fit.
pub fn write(sync: u32, blocks: &[u64; 32], lane: &mut [u8])
    ensures { lane.new ≡ laid_at (multiblock 0 0 sync (octets_of (word_bit blocks.now) 256)) 0 lane.old }
{
    if lane.len() < OCTETS {
        return;
    }
    let mut before: u64 = 0;
    for (block, &own) in blocks.iter().enumerate() {
        bits::put_word(lane, 8 * block, lane_word(sync, before, own, block));
        before = own;
    }
    bits::put_word(lane, 256, before);
}

// A block's header, of the word that it begins in.
fn header_in(word: u64, block: usize) -> u32
    requires { block < 32 }
    ensures { result ≡ number (digit 64 word) (2 * block) 2 }
{
    ((word >> (62 - 2 * block)) & 3) as u32
}

// Its 64 data bits, of that word and the next.
fn data_in(word: u64, next: u64, block: usize) -> u64
    requires { block < 32 }
    ensures { result ≡ number (digit 128 (word * 2 ^ 64 + next)) (2 * block + 2) 64 }
{
    ((word << 2) << (2 * block)) | (next >> (62 - 2 * block))
}

// The multiblock on a lane of its length, which the compiler knows, so that the loop tests none.
fn gather(lane: &[u8; OCTETS]) -> Multiblock
    ensures octets_value { result.octets ≡ data_octets 0 (bit_at lane.now) 0 }
    ensures first_value { result.headers.first ≡ number (first_bit 0 (bit_at lane.now) 0) 0 32 }
    ensures second_value { result.headers.second ≡ number (second_bit 0 (bit_at lane.now) 0) 0 32 }
{
    let mut octets = [0u8; 256];
    let mut first: u32 = 0;
    let mut second: u32 = 0;
    let (words, _) = lane.as_chunks::<8>();
    let mut word = bits::word_at(&words[0], 0);
    for (block, following) in words[1..].iter().enumerate() {
        let next = bits::word_at(following, 0);
        let header = header_in(word, block);
        first = (first << 1) | (header >> 1);
        second = (second << 1) | (header & 1);
        bits::put_word(&mut octets[..], 8 * block, data_in(word, next, block));
        word = next;
    }
    Multiblock {
        octets,
        headers: Headers { first, second },
    }
}

// The multiblock at the start of `lane`; nothing where it is too short.
pub fn read(lane: &[u8]) -> Multiblock
    ensures octets_value { result.octets ≡ data_octets 0 (lane_read 0 lane.now) 0 }
    ensures first_value { result.headers.first ≡ number (first_bit 0 (lane_read 0 lane.now) 0) 0 32 }
    ensures second_value { result.headers.second ≡ number (second_bit 0 (lane_read 0 lane.now) 0) 0 32 }
{
    match lane.first_chunk() {
        Some(whole) => gather(whole),
        None => blocks::NOTHING,
    }
}
