// What is refused, lowest number first: document 01, "Numbers of refusal".
ghost use Rattle.std.specs.Prelude.{◌≡◌, ◌≤◌};
ghost use Rattle.answers.specs.Numbers.{refused};
ghost use Rattle.frame.specs.Modes.{most_of_all};
ghost use Rattle.receiver.specs.Refusal.{as_fresh, state_fits, releases, room_for, refusal_of};

use crate::Receiver;
use answers::Refusal;
use frame::modes;

// Whether all but the waiting flag is as in a fresh state.
fn as_fresh(state: Receiver) -> bool
    ensures { result ≡ as_fresh state }
{
    let fresh = Receiver {
        waiting: state.waiting,
        ..Receiver::fresh()
    };
    state == fresh
}

// Whether each field of a state is in its range, where commands with their flag and own parts of parities are below bounds.
#[tactic(auto, unfolding(crate::specs::Refusal::state_fits))]
fn state_fits(flagged: u32, owns: u16, state: Receiver) -> bool
    ensures { result ≡ state_fits flagged owns state }
{
    state.history < 0x400_0000_0000_0000
        && state.command < flagged
        && state.invalid <= 32
        && state.own < owns
        && (state.waiting || as_fresh(state))
}

// How many are released when n are received.
#[tactic(auto, unfolding(crate::specs::Refusal::releases))]
fn releases(waiting: bool, n: usize) -> usize
    ensures { result ≡ releases waiting n }
{
    if waiting { n } else { n.saturating_sub(1) }
}

// The lengths of the lent buffers.
#[derive(Clone, Copy)]
pub(crate) struct Lengths {
    pub(crate) octets: usize,
    pub(crate) statuses: usize,
    pub(crate) commands: usize,
    pub(crate) places: usize,
    pub(crate) patterns: usize,
    pub(crate) invalid: usize,
}

impl Lengths {
    // Whether they hold what k releases write.
    #[tactic(auto, unfolding(crate::specs::Refusal::room_for))]
    fn hold(self, k: usize) -> bool
        requires { k ≤ most_of_all }
        ensures { result ≡ room_for k self.octets self.statuses self.commands self.places self.patterns self.invalid }
    {
        256 * k <= self.octets
            && k <= self.statuses
            && k <= self.commands
            && k <= self.places
            && k <= self.patterns
            && k <= self.invalid
    }
}

// The lowest refusal that applies, by the state, the length of the lane and those of the lent buffers.
#[tactic(auto, unfolding(crate::specs::Refusal::refusal_of, bits::specs::Refusals::refusal_by))]
pub(crate) fn check(mode: u8, state: Receiver, lane: usize, lengths: Lengths) -> Result<(), Refusal>
    ensures { refused result ≡ refusal_of mode state lane lengths.octets lengths.statuses lengths.commands lengths.places lengths.patterns lengths.invalid }
{
    let row = modes::row_of(mode);
    let numbers = modes::numbers_of(row);
    if !modes::known(mode) {
        return Err(Refusal::Mode);
    }
    if !state_fits(numbers.flagged, numbers.owns, state) {
        return Err(Refusal::State);
    }
    let size = numbers.octets;
    if lane % size != 0 {
        return Err(Refusal::Length);
    }
    let n = lane / size;
    if n > row.most {
        return Err(Refusal::Count);
    }
    let k = releases(state.waiting, n);
    if !lengths.hold(k) {
        return Err(Refusal::Room);
    }
    Ok(())
}
