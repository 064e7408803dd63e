// What is refused of a message and of a list of commands: document 01, "Numbers of refusal"; request 6.
ghost use Rattle.std.specs.Prelude.{◌≡◌, ◌≤◌};
ghost use Rattle.answers.specs.Numbers.{refused};
ghost use Rattle.bits.specs.Bounds.{all_below};
ghost use Rattle.commands.specs.Writing.{refusal_of as message_refusal};
ghost use Rattle.commands.specs.Reading.{refusal_of as list_refusal};

use crate::writing::commands_for;
use crate::{channel_words, table51};
use answers::Refusal;
use frame::modes;

// Whether each payload word has five bits.
fn payload_fits(payload: &[u8]) -> bool
    ensures { result ≡ all_below 32 payload.now }
{
    payload.iter().all(|&word| word < 32)
}

// 1, 6, 10, 11, and 7 of what these let pass, for commands of `each` words and a list of `room` commands.
#[tactic(auto, unfolding(crate::specs::Writing::refusal_of, bits::specs::Refusals::refusal_by))]
pub(crate) fn of_message(each: usize, code: u8, payload: &[u8], room: usize) -> Result<(), Refusal>
    requires { each ≤ 3 }
    ensures { refused result ≡ message_refusal each code payload.now room }
{
    if each == 0 {
        return Err(Refusal::Mode);
    }
    if !payload_fits(payload) {
        return Err(Refusal::Commands);
    }
    let function = table51::function_of(code);
    if payload.len() < function.fewest {
        return Err(Refusal::Commands);
    }
    if payload.len() > function.most {
        return Err(Refusal::Long);
    }
    if !function.defined {
        return Err(Refusal::Code);
    }
    if commands_for(each, payload.len()) > room {
        return Err(Refusal::Room);
    }
    Ok(())
}

// 1, or 6 where a command has a bit above the mark.
#[tactic(auto, unfolding(crate::specs::Reading::refusal_of, bits::specs::Refusals::refusal_by))]
pub(crate) fn of_list(mode: u8, commands: &[u32]) -> Result<(), Refusal>
    ensures { refused result ≡ list_refusal mode commands.now }
{
    if channel_words(mode) == 0 {
        return Err(Refusal::Mode);
    }
    let numbers = modes::numbers_of(modes::row_of(mode));
    if !bits::all_below(numbers.flagged, commands) {
        return Err(Refusal::Commands);
    }
    Ok(())
}
