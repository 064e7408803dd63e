// Scrambling and descrambling, 64 bits at once: clause 7.2.4.
#![tactic(auto)]

ghost use Rattle.std.specs.Prelude.{◌≡◌, ◌%◌, ◌^◌};
ghost use Rattle.bits.specs.Order.{bit_at, digit, number, words_of, laid_at};
ghost use Rattle.scrambler.specs.Scrambling.{sent, plain, descrambled, history_after};

// The block sent for a user's block after a history.
pub fn scramble(user: u64, history: u64) -> u64
    ensures { result ≡ number (sent (digit 64 user) history) 0 64 }
{
    let own = user ^ (history << 25) ^ (history << 6);
    own ^ (own >> 39) ^ (own >> 58)
}

// The user's block of a block received after a history.
fn descramble(block: u64, history: u64) -> u64
    ensures { result ≡ number (plain history (digit 64 block)) 0 64 }
{
    block ^ (block >> 39) ^ (block >> 58) ^ ((history << 25) ^ (history << 6))
}

// The history after a block that was sent or received.
pub fn history_after(block: u64) -> u64
    ensures { result ≡ block % 2 ^ 58 }
{
    block & 0x3ff_ffff_ffff_ffff
}

// The 32 blocks sent for a multiblock, and the history after them.
#[derive(Clone, Copy)]
pub struct Scrambled {
    pub blocks: [u64; 32],
    pub history: u64,
}

// The user's first 256 octets scrambled, each block after the history that the block before leaves. Past the end of `user` bits are 0.
pub fn scramble_multiblock(user: &[u8], history: u64) -> Scrambled
    ensures blocks_value { result.blocks ≡ words_of (sent (bit_at user.now) history) 32 }
    ensures history_value { result.history ≡ history_after (bit_at user.now) history 2048 }
{
    let mut blocks = [0u64; 32];
    let mut past = history_after(history);
    for (i, block) in blocks.iter_mut().enumerate() {
        *block = scramble(bits::word_at(user, 8 * i), past);
        past = history_after(*block);
    }
    Scrambled {
        blocks,
        history: past,
    }
}

// 256 octets received descrambled over the start of `out`, each block after the block before; nothing where they do not fit. Past the end of
// `octets` bits are 0.
pub fn descramble_multiblock(octets: &[u8], history: u64, out: &mut [u8])
    ensures { out.new ≡ laid_at (descrambled octets.now history 256) 0 out.old }
{
    if out.len() >= 256 {
        let mut past = history_after(history);
        for i in 0..32usize {
            let block = bits::word_at(octets, 8 * i);
            bits::put_word(out, 8 * i, descramble(block, past));
            past = history_after(block);
        }
    }
}

// The history after 256 octets that were sent or received: their last 58 bits.
pub fn history_of(octets: &[u8]) -> u64
    ensures { result ≡ number (bit_at octets.now) 1990 58 }
{
    history_after(bits::word_at(octets, 248))
}
