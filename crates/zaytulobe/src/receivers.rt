// A receiver's state as numbers, for callers in C, who may hand any number where a bool is meant: the state that numbers stand for, if they fit,
// and the numbers of a state. Document 01, "What the receiver releases" and "Numbers of refusal".
ghost use Rattle.std.specs.Prelude.{◌≡◌};
ghost use Rattle.zaytulobe.specs.Receivers.{read, as_numbers};

use crate::bools::bool_of;
use answers::Refusal;
use receiver::Receiver;

// `waiting` and `trusted` are 0 or 1.
#[repr(C)]
#[derive(Clone, Copy)]
pub struct ReceiverNumbers {
    pub history: u64,
    pub command: u32,
    pub waiting: u8,
    pub trusted: u8,
    pub octets: [u8; 256],
    pub invalid: u8,
    pub own: u16,
    pub sound: u32,
    pub repaired: u32,
    pub failed: u32,
}

// The state that numbers stand for, if they fit.
impl TryFrom<ReceiverNumbers> for Receiver {
    type Error = Refusal;

    ghost try_from_gives = { λ given result. result ≡ read given };

    #[tactic(auto, unfolding(crate::specs::Receivers::read, crate::specs::Receivers::fit, crate::specs::Receivers::state_of))]
    fn try_from(given: ReceiverNumbers) -> Result<Receiver, Refusal> {
        let octets = given.octets;
        Ok(Receiver {
            waiting: bool_of(u32::from(given.waiting))?,
            octets,
            history: given.history,
            trusted: bool_of(u32::from(given.trusted))?,
            command: given.command,
            invalid: given.invalid,
            own: given.own,
            sound: given.sound,
            repaired: given.repaired,
            failed: given.failed,
        })
    }
}

// The numbers of a state.
impl From<Receiver> for ReceiverNumbers {
    ghost from_gives = { λ state numbers. numbers ≡ as_numbers state };

    #[tactic(auto, unfolding(crate::specs::Receivers::as_numbers))]
    fn from(state: Receiver) -> ReceiverNumbers {
        let octets = state.octets;
        ReceiverNumbers {
            history: state.history,
            command: state.command,
            waiting: u8::from(state.waiting),
            trusted: u8::from(state.trusted),
            octets,
            invalid: state.invalid,
            own: state.own,
            sound: state.sound,
            repaired: state.repaired,
            failed: state.failed,
        }
    }
}
