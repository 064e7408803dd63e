// What a waiting multiblock turns out to be, and what is released of it: document 01, "What the receiver releases"; clauses 7.4.1 and 7.5.3;
// request 5.
#![tactic(auto)]

ghost use Rattle.std.specs.Option.{option_map_or};
ghost use Rattle.std.specs.Prelude.{◌≡◌, ℕ, ◌<◌, ◌≤◌, length, get_or};
ghost use Rattle.bits.specs.Order.{bit_at, number, laid_at};
ghost use Rattle.scrambler.specs.Scrambling.{descrambled};
ghost use Rattle.parity.specs.Codeword.{multiblock_parity};
ghost use Rattle.frame.specs.Modes.{code};
ghost use Rattle.judge.specs.Judge.{status_of, place_of, pattern_of, verdict_of, judged, mended, released_status, trusted_after};

use frame::modes::Sync;
use parity::{Burst, Crc3, Crc12, Fec};

// Its parity agrees; or it disagrees, and a burst that was flipped back explains it; or none does.
#[derive(Clone, Copy, Debug, PartialEq, Eq)]
pub enum Verdict {
    Agrees,
    Repaired(Burst),
    Failed,
}

impl Verdict {
    // Document 01's number.
    pub fn status(self) -> u8
        ensures value { result ≡ status_of self }
        ensures at_most { result ≤ 2 }
    {
        match self {
            Verdict::Agrees => 0,
            Verdict::Repaired(_) => 1,
            Verdict::Failed => 2,
        }
    }

    // The burst that was flipped back.
    fn burst(self) -> Option<Burst>
        ensures places { option_map_or (λ burst. burst.place) result 0 ≡ place_of self }
        ensures patterns { option_map_or (λ burst. burst.pattern) result 0 ≡ pattern_of self }
    {
        match self {
            Verdict::Repaired(burst) => Some(burst),
            Verdict::Agrees | Verdict::Failed => None,
        }
    }

    // Where the burst starts; 0 where there is none.
    pub fn place(self) -> u16
        ensures { result ≡ place_of self }
    {
        self.burst().map_or(0, |burst| burst.place)
    }

    // The burst's bits; 0 where there is none.
    pub fn pattern(self) -> u16
        ensures { result ≡ pattern_of self }
    {
        self.burst().map_or(0, |burst| burst.pattern)
    }
}

// The verdict, and the status that is released with it; the history that the multiblock leaves, and whether it is trusted.
#[derive(Clone, Copy, Debug, PartialEq, Eq)]
pub struct Released {
    pub verdict: Verdict,
    pub status: u8,
    pub history: u64,
    pub trusted: bool,
}

// By the difference of the two parities. A burst is looked for only where they differ, and only with FEC.
#[tactic(auto, unfolding(crate::specs::Judge::verdict_of))]
fn verdict_of(sync: Sync, difference: u32) -> Verdict
    ensures { result ≡ verdict_of sync difference }
{
    if difference == 0 {
        return Verdict::Agrees;
    }
    match sync {
        Sync::Fec => Fec::burst(difference).map_or(Verdict::Failed, Verdict::Repaired),
        Sync::Crc12 | Sync::Crc3 | Sync::Command => Verdict::Failed,
    }
}

// The parity of a multiblock's octets: of no groups it is 0. That they are octets is for `mend`.
fn parity_of(sync: Sync, octets: &[u8]) -> u32
    requires { length octets.now ≡ 256 }
    ensures value { result ≡ multiblock_parity (code sync) (bit_at octets.now) }
    ensures by_index { (j : ℕ) → get_or octets.now j 0 < 256 }
{
    match sync {
        Sync::Crc12 => Crc12::of(octets),
        Sync::Fec => Fec::of(octets),
        Sync::Crc3 => Crc3::of(octets),
        Sync::Command => 0,
    }
}

// The octets with the burst flipped. Positions from 2,048 on are parity, and no octet holds them.
fn mend(octets: [u8; 256], verdict: Verdict) -> [u8; 256]
    requires { (length octets ≡ 256) × ((j : ℕ) → get_or octets j 0 < 256) }
    ensures { result ≡ mended verdict octets }
{
    let Verdict::Repaired(burst) = verdict else {
        return octets;
    };
    let mut out = octets;
    for bit in 0..16 {
        let position = usize::from(burst.place) + bit;
        if (burst.pattern >> bit) & 1 == 1 && position < 2048 {
            out[position / 8] ^= 128 >> (position % 8);
        }
    }
    out
}

// The status as it is released.
#[tactic(auto, unfolding(crate::specs::Judge::released_status))]
fn released_status(verdict: Verdict, trusted: bool) -> u8
    ensures { result ≡ released_status verdict trusted }
{
    let status = verdict.status();
    if trusted { status } else { status + 4 }
}

// Whether the history that it leaves is trusted.
#[tactic(auto, unfolding(crate::specs::Judge::trusted_after))]
fn trusted_after(verdict: Verdict) -> bool
    ensures { result ≡ trusted_after verdict }
{
    !matches!(verdict, Verdict::Failed)
}

// The waiting multiblock, once the parity that came after it is known: its user octets over the start of `out`; nothing where they do not fit.
#[tactic(auto, unfolding(crate::specs::Judge::judged))]
pub fn release(
    sync: Sync,
    octets: [u8; 256],
    history: u64,
    trusted: bool,
    parity: u32,
    out: &mut [u8],
) -> Released
    ensures verdict_value { result.verdict ≡ judged sync octets parity }
    ensures status_value { result.status ≡ released_status result.verdict trusted }
    ensures history_value { result.history ≡ number (bit_at (mended result.verdict octets)) 1990 58 }
    ensures trusted_value { result.trusted ≡ trusted_after result.verdict }
    ensures out_after { out.new ≡ laid_at (descrambled (mended result.verdict octets) history 256) 0 out.old }
{
    let verdict = verdict_of(sync, parity_of(sync, &octets[..]) ^ parity);
    let whole = mend(octets, verdict);
    scrambler::descramble_multiblock(&whole[..], history, out);
    let after = scrambler::history_of(&whole[..]);
    Released {
        verdict,
        status: released_status(verdict, trusted),
        history: after,
        trusted: trusted_after(verdict),
    }
}
