// What a call is refused for: document 01, "Numbers of refusal". The lowest number is found first.
ghost use Rattle.std.specs.Prelude.{◌≡◌, ◌&&◌, eqb, length};
ghost use Rattle.answers.specs.Numbers.{refused};
ghost use Rattle.bits.specs.Bounds.{all_below};
ghost use Rattle.sender.specs.Refusal.{state_fits, refusal_of};

use crate::Sender;
use answers::Refusal;
use frame::modes;
use frame::modes::Numbers;

// Whether each field of a state is in its range, by a mode's numbers.
#[tactic(auto, unfolding(crate::specs::Refusal::state_fits))]
fn state_fits(numbers: Numbers, e: u32, state: Sender) -> bool
    ensures { result ≡ state_fits numbers.parities numbers.fills e state }
{
    state.history < 0x400_0000_0000_0000
        && state.parity < numbers.parities
        && state.number < e
        && state.fill < numbers.fills
}

// Whether there is one command for each multiblock, and each fits.
fn commands_fit(bound: u32, commands: &[u32], count: usize) -> bool
    ensures { result ≡ (eqb (length commands.now) count && all_below bound commands.now) }
{
    commands.len() == count && bits::all_below(bound, commands)
}

// The lowest number that applies, if one does.
#[tactic(auto, unfolding(bits::specs::Refusals::refusal_by, crate::specs::Refusal::refusal_of))]
pub(crate) fn check(
    mode: u8,
    e: u32,
    state: Sender,
    user: &[u8],
    commands: &[u32],
    lane: &[u8],
) -> Result<(), Refusal>
    ensures { refused result ≡ refusal_of mode e state user.now commands.now lane.now }
{
    let row = modes::row_of(mode);
    let numbers = modes::numbers_of(row);
    if !modes::known(mode) {
        return Err(Refusal::Mode);
    }
    if !modes::extent_fits(e) {
        return Err(Refusal::Extent);
    }
    if !state_fits(numbers, e, state) {
        return Err(Refusal::State);
    }
    if user.len() % 256 != 0 {
        return Err(Refusal::Length);
    }
    let count = user.len() / 256;
    if count > row.most {
        return Err(Refusal::Count);
    }
    if !commands_fit(numbers.commands, commands, count) {
        return Err(Refusal::Commands);
    }
    if numbers.octets * count > lane.len() {
        return Err(Refusal::Room);
    }
    Ok(())
}
