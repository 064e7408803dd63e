// The receiver for callers in C. Document 01, "What the receiver releases".
ghost use Rattle.std.specs.Prelude.{◌≡◌};
ghost use Rattle.receiver.specs.Release.{fresh};
ghost use Rattle.zaytulobe.specs.Receivers.{as_numbers};
ghost use Rattle.zaytulobe.specs.Receiving.{answer_numbers, done, receive_numbers};

use crate::receivers::ReceiverNumbers;
use answers::{Ran, Refusal};
use frame::modes;
use receiver::Receiver;

// A refusal, or 0 with the multiblocks released; and the state for the next call.
#[repr(C)]
#[derive(Clone, Copy)]
pub struct ReceivedNumbers {
    pub refusal: u8,
    pub count: usize,
    pub state: ReceiverNumbers,
}

// A receiver's first state.
#[unsafe(no_mangle)]
pub extern "C" fn zaytulobe_fresh_receiver() -> ReceiverNumbers
    ensures { result ≡ as_numbers fresh }
{
    ReceiverNumbers::from(Receiver::fresh())
}

// Receives from the state that numbers stand for; refused by 3 too where a bool is neither 0 nor 1.
#[tactic(auto, unfolding(crate::specs::Receiving::receive_numbers, crate::specs::Receivers::read, bits::specs::Refusals::refusal_by))]
fn receive(
    mode: u8,
    state: ReceiverNumbers,
    lane: &[u8],
    octets: &mut [u8],
    statuses: &mut [u8],
    commands: &mut [u32],
    places: &mut [u16],
    patterns: &mut [u16],
    invalid: &mut [u8],
) -> Result<Ran<Receiver>, Refusal>
    ensures { done (answer_numbers state result) octets.new statuses.new commands.new places.new patterns.new invalid.new
        ≡ receive_numbers mode state lane.now octets.old statuses.old commands.old places.old patterns.old invalid.old }
{
    if !modes::known(mode) {
        return Err(Refusal::Mode);
    }
    let given = Receiver::try_from(state)?;
    receiver::receive(
        mode, given, lane, octets, statuses, commands, places, patterns, invalid,
    )
}

// Receives the multiblocks of `lane`.
#[unsafe(no_mangle)]
pub extern "C" fn zaytulobe_receive(
    mode: u8,
    state: ReceiverNumbers,
    lane: &[u8],
    octets: &mut [u8],
    statuses: &mut [u8],
    commands: &mut [u32],
    places: &mut [u16],
    patterns: &mut [u16],
    invalid: &mut [u8],
) -> ReceivedNumbers
    ensures { done result octets.new statuses.new commands.new places.new patterns.new invalid.new
        ≡ receive_numbers mode state lane.now octets.old statuses.old commands.old places.old patterns.old invalid.old }
{
    let received = receive(
        mode, state, lane, octets, statuses, commands, places, patterns, invalid,
    );
    match received {
        Ok(ran) => ReceivedNumbers {
            refusal: 0,
            count: ran.count,
            state: ReceiverNumbers::from(ran.state),
        },
        Err(why) => ReceivedNumbers {
            refusal: why.number(),
            count: 0,
            state,
        },
    }
}
