// The search for the burst that makes a remainder, by error trapping: document 01, "What the receiver releases"; clause 7.5.3.2.
// In the trap, a remainder times x^(place - LAST), a burst that begins at the place stands as a number of LIMIT bits, highest first.
ghost use Rattle.std.specs.Prelude.{◌≡◌, ℕ, ◌-◌, ◌^◌, ◌<◌, ◌≤◌};
ghost use Rattle.bits.specs.Order.{list_from};
ghost use Rattle.polynomial.specs.Polynomial.{times_x, times_power};
ghost use Rattle.parity.specs.Codeword.{fec, weight, remainder_of};
ghost use Rattle.parity.specs.Bursts.{IsBurst, flips};
ghost use Rattle.parity.specs.Answer.{Explains, burst_for};

use crate::{Burst, Fec};

// The last place where a burst of all LIMIT bits can begin.
const LAST: usize = Fec::POSITIONS - Fec::LIMIT;

// A pattern is below PATTERNS, so that no bit of it is above HIGHEST.
const PATTERNS: u32 = 1 << Fec::LIMIT;

const HIGHEST: u32 = Fec::LIMIT as u32 - 1;

// x^-LAST
const BACK: u32 = 64619501;

fn times_x(r: u32) -> u32
    requires { r < 2 ^ fec.width }
    ensures { result ≡ times_x fec.width fec.lower r }
{
    let up = r << 1;
    ((up >> Fec::WIDTH) * Fec::LOWER) ^ (up & ((1 << Fec::WIDTH) - 1))
}

// The trap for place 0: a sum over the bits of the remainder.
fn first_trap(remainder: u32) -> u32
    requires { remainder < 2 ^ fec.width }
    ensures { (result < 2 ^ fec.width) × (times_power fec.width fec.lower (fec.positions - fec.limit) result ≡ remainder) }
{
    let mut trap: u32 = 0;
    let mut power = BACK;
    for k in 0..Fec::WIDTH {
        trap ^= ((remainder >> k) & 1) * power;
        power = times_x(power);
    }
    trap
}

// The patterns to be tried at a place are those below this: none, unless the trap shows a burst that begins there.
fn patterns_below(remainder: u32, trap: u32, place: usize) -> u32
    requires remainder_bound { (remainder < 2 ^ fec.width) × (trap < 2 ^ fec.width) × (place < fec.positions) }
    requires trap_value { place ≤ fec.positions - fec.limit → times_power fec.width fec.lower (fec.positions - fec.limit - place) trap ≡ remainder }
    ensures { (result ≤ 2 ^ fec.limit) × (result ≤ 2 ^ (fec.positions - place)) × ((pattern : ℕ) → Explains fec remainder place pattern → pattern < result) }
{
    if place <= LAST {
        if trap >> HIGHEST == 1 {
            return PATTERNS;
        }
        return 0;
    }
    let left = (Fec::POSITIONS - place) as u32;
    if remainder >> (left - 1) == 1 {
        return 1u32 << left;
    }
    0
}

// The remainder that a burst makes, from the weights of its positions.
fn sum_of(weights: &[u32; Fec::POSITIONS], place: usize, pattern: u32) -> u32
    requires weights_value { weights.now ≡ list_from (weight fec) 0 fec.positions }
    requires burst { IsBurst fec.limit fec.positions place pattern }
    ensures { result ≡ remainder_of fec (flips place pattern) }
{
    let mut sum: u32 = 0;
    for k in 0..Fec::LIMIT {
        if (pattern >> k) & 1 == 1 {
            sum ^= weights[place + k];
        }
    }
    sum
}

// By place, and at each place by pattern: left as soon as a pair agrees. Within a caller the compiler would count the packed pair
// along at each place too.
#[inline(never)]
pub(crate) fn search(weights: &[u32; Fec::POSITIONS], remainder: u32) -> Option<Burst>
    requires weights_value { weights.now ≡ list_from (weight fec) 0 fec.positions }
    requires remainder_bound { remainder < 2 ^ fec.width }
    ensures { result ≡ burst_for fec remainder }
{
    let mut found = None;
    let mut trap = first_trap(remainder);
    'search: for place in 0..Fec::POSITIONS {
        let end = patterns_below(remainder, trap, place);
        for pattern in (1..end).step_by(2) {
            if sum_of(weights, place, pattern) == remainder {
                found = Some(Burst {
                    place: place as u16,
                    pattern: pattern as u16,
                });
                break 'search;
            }
        }
        trap = times_x(trap);
    }
    found
}
