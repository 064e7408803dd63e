// The receiver: lane octets to user octets, with what became of each multiblock. Document 01, "What the receiver releases".
#![tactic(auto)]

ghost use Rattle.std.specs.Prelude.{◌≡◌};
ghost use Rattle.answers.specs.Numbers.{answered};
ghost use Rattle.receiver.specs.Release.{fresh};
ghost use Rattle.receiver.specs.Entry.{done, entry};

mod refusal;
mod run;

use answers::{Ran, Refusal};
use frame::modes;
use multiblock::Layout;
use refusal::Lengths;

// What a receiver carries from one call to the next: whether a multiblock waits, its 256 scrambled octets, the history before it, whether
// that is trusted, its command, how many of its headers were invalid, and what its own sync word carried of its parity (request 5); and how
// many were released sound, repaired and failed so far (request 7).
#[derive(Clone, Copy, Debug, PartialEq, Eq)]
pub struct Receiver {
    pub waiting: bool,
    pub octets: [u8; 256],
    pub history: u64,
    pub trusted: bool,
    pub command: u32,
    pub invalid: u8,
    pub own: u16,
    pub sound: u32,
    pub repaired: u32,
    pub failed: u32,
}

impl Receiver {
    pub fn fresh() -> Receiver
        ensures { result ≡ fresh }
    {
        Receiver {
            waiting: false,
            octets: [0u8; 256],
            history: 0,
            trusted: false,
            command: 0,
            invalid: 0,
            own: 0,
            sound: 0,
            repaired: 0,
            failed: 0,
        }
    }
}

// Receives the multiblocks of `lane`. Each released multiblock's octets go to 256 times its number in this call, and its status, command,
// place, pattern and number of invalid headers to that number.
pub fn receive(
    mode: u8,
    state: Receiver,
    lane: &[u8],
    octets: &mut [u8],
    statuses: &mut [u8],
    commands: &mut [u32],
    places: &mut [u16],
    patterns: &mut [u16],
    invalid: &mut [u8],
) -> Result<Ran<Receiver>, Refusal>
    ensures { done (answered state result) octets.new statuses.new commands.new places.new patterns.new invalid.new
        ≡ entry mode state lane.now octets.old statuses.old commands.old places.old patterns.old invalid.old }
{
    let row = modes::row_of(mode);
    let numbers = modes::numbers_of(row);
    let lengths = Lengths {
        octets: octets.len(),
        statuses: statuses.len(),
        commands: commands.len(),
        places: places.len(),
        patterns: patterns.len(),
        invalid: invalid.len(),
    };
    refusal::check(mode, state, lane.len(), lengths)?;
    let size = numbers.octets;
    let layout = Layout { row, size };
    let begun = run::begin(layout, state, lane);
    let n = lane.len() / size - begun.taken;
    let from = size * begun.taken;
    Ok(run::run(
        layout,
        begun.state,
        &lane[from..],
        n,
        octets,
        statuses,
        commands,
        places,
        patterns,
        invalid,
    ))
}
