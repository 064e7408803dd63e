// Octets read and written as bits, most significant bit first: document 01, "From octets to lane bits"; and numbers held to a bound.
#![tactic(auto)]

ghost use Rattle.std.specs.Prelude.{◌≡◌, ℕ, ◌+◌, ◌*◌, ◌≤◌, ◌<◌, length, get_or};
ghost use Rattle.bits.specs.Bounds.{all_below};
ghost use Rattle.bits.specs.Order.{bit_at, number, digit, octets_of, laid_at};

// Eight octets that are there, as one load.
fn whole_word(octets: &[u8], at: usize) -> u64
    requires { at + 8 ≤ length octets.now }
    ensures { result ≡ number (bit_at octets.now) (8 * at) 64 }
{
    u64::from_be_bytes([
        octets[at],
        octets[at + 1],
        octets[at + 2],
        octets[at + 3],
        octets[at + 4],
        octets[at + 5],
        octets[at + 6],
        octets[at + 7],
    ])
}

// The octet at a place; 0 past the end.
pub fn octet_at(octets: &[u8], at: usize) -> u8
    ensures { result ≡ get_or octets.now at 0 }
{
    if at < octets.len() { octets[at] } else { 0 }
}

// A word across the end, octet by octet.
fn last_word(octets: &[u8], at: usize) -> u64
    requires { length octets.now < at + 8 }
    ensures { result ≡ number (bit_at octets.now) (8 * at) 64 }
{
    let mut word: u64 = 0;
    for i in at..octets.len() {
        word |= u64::from(octets[i]) << (56 - 8 * (i - at));
    }
    word
}

// The 64 bits from octet `at` on, the first the highest; past the end they are 0.
pub fn word_at(octets: &[u8], at: usize) -> u64
    ensures { result ≡ number (bit_at octets.now) (8 * at) 64 }
{
    if octets.len() >= 8 && at <= octets.len() - 8 {
        whole_word(octets, at)
    } else {
        last_word(octets, at)
    }
}

// A block: a word of 64 bits, or the eight octets that it holds.
pub trait Block {
    ghost word: { Self → ℕ };

    fn word(&self) -> u64
        ensures { result ≡ word self.now };

    // Its octet k; 0 past the last.
    fn octet(&self, k: usize) -> u8
        ensures { result ≡ get_or (octets_of (digit 64 (word self.now)) 8) k 0 };
}

impl Block for u64 {
    ghost word = { λ word. word };

    fn word(&self) -> u64 {
        *self
    }

    fn octet(&self, k: usize) -> u8 {
        if k < 8 {
            ((*self >> (56 - 8 * k)) % 256) as u8
        } else {
            0
        }
    }
}

impl Block for [u8; 8] {
    ghost word = { λ octets. number (bit_at octets) 0 64 };

    fn word(&self) -> u64 {
        word_at(self, 0)
    }

    fn octet(&self, k: usize) -> u8 {
        octet_at(self, k)
    }
}

// The 64 bits of a word as eight octets, from octet `at` on; nothing where they do not fit.
pub fn put_word(out: &mut [u8], at: usize, word: u64)
    ensures { out.new ≡ laid_at (octets_of (digit 64 word) 8) at out.old }
{
    if out.len() >= 8 && at <= out.len() - 8 {
        out[at..at + 8].copy_from_slice(&word.to_be_bytes());
    }
}

// Whether each number is below a bound.
pub fn all_below(bound: u32, numbers: &[u32]) -> bool
    ensures { result ≡ all_below bound numbers.now }
{
    numbers.iter().all(|number| *number < bound)
}
