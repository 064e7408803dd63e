// The sender: user octets and commands to lane octets. Document 01, "From octets to lane bits" and "Numbers of refusal"; requests 2 and 5.
#![tactic(auto)]

ghost use Rattle.std.specs.Prelude.{◌≡◌};
ghost use Rattle.answers.specs.Numbers.{answered};
ghost use Rattle.sender.specs.Lane.{fresh};
ghost use Rattle.sender.specs.Entry.{done, entry};

mod refusal;
mod run;

use answers::{Ran, Refusal};
use frame::modes;
use multiblock::Layout;

// What a sender carries from one call to the next: the last 58 bits sent, what the next sync word carries of the parity of the last multiblock,
// the number of the next multiblock in its extended multiblock, and the register that the next block's fill bits are taken from.
#[repr(C)]
#[derive(Clone, Copy, Debug, PartialEq, Eq)]
pub struct Sender {
    pub history: u64,
    pub parity: u32,
    pub number: u32,
    pub fill: u32,
}

impl Sender {
    pub fn fresh() -> Sender
        ensures { result ≡ fresh }
    {
        Sender {
            history: 0,
            parity: 0,
            number: 0,
            fill: 0,
        }
    }
}

// Sends 256 user octets for each command, over the start of `lane`.
#[tactic(auto, unfolding(crate::specs::Entry::entry))]
pub fn send(
    mode: u8,
    e: u32,
    state: Sender,
    user: &[u8],
    commands: &[u32],
    lane: &mut [u8],
) -> Result<Ran<Sender>, Refusal>
    ensures { done (answered state result) lane.new ≡ entry mode e state user.now commands.now lane.old }
{
    refusal::check(mode, e, state, user, commands, lane)?;
    let row = modes::row_of(mode);
    let size = modes::numbers_of(row).octets;
    let layout = Layout { row, size };
    let after = run::send_all(layout, e, state, user, commands, lane);
    Ok(Ran {
        count: commands.len(),
        state: after,
    })
}
