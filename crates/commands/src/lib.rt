// Command words and messages, written and read: clauses 7.3.7 and 7.6.3; request 6.
#![tactic(auto)]

ghost use Rattle.std.specs.Prelude.{◌≡◌, ℕ, Result};
ghost use Rattle.answers.specs.declared.Refusal.{Refusal};
ghost use Rattle.answers.specs.Numbers.{counted};
ghost use Rattle.commands.specs.Writing.{channel_words, done, writing};
ghost use Rattle.commands.specs.Reading.{read_as, reading};
ghost use Rattle.commands.specs.declared.events.Read.{Read};

use answers::Refusal;
use events::Read;
use frame::modes;
use words::Words;
use writing::{Given, commands_for};

pub mod events;
mod reading;
mod refusal;
mod table51;
mod words;
mod writing;

// The words of a command of a mode: 0 where the mode is unknown or has no command channel.
#[tactic(auto, unfolding(crate::specs::Writing::channel_words))]
pub fn channel_words(mode: u8) -> usize
    ensures { result ≡ channel_words mode }
{
    if !modes::known(mode) {
        return 0;
    }
    let numbers = modes::numbers_of(modes::row_of(mode));
    numbers.words
}

// The commands of a message, over the start of `commands`: how many.
#[tactic(auto, unfolding(crate::specs::Writing::writing, crate::specs::Writing::written))]
pub fn write(mode: u8, code: u8, payload: &[u8], commands: &mut [u32]) -> Result<usize, Refusal>
    ensures { done (counted result) commands.new ≡ writing mode code payload.now commands.old }
{
    let each = channel_words(mode);
    refusal::of_message(each, code, payload, commands.len())?;
    let count = commands_for(each, payload.len());
    let message = Given {
        each,
        code,
        payload,
    };
    message.put(&mut commands[..count]);
    Ok(count)
}

// The first event at or after word `from`, and the word to go on from.
#[tactic(auto, unfolding(crate::specs::Reading::reading))]
pub fn read(mode: u8, commands: &[u32], from: usize) -> Result<Read, Refusal>
    ensures { read_as from result ≡ reading mode commands.now from }
{
    refusal::of_list(mode, commands)?;
    let words = Words {
        commands,
        each: channel_words(mode),
    };
    Ok(words.event_from(from))
}

// No two answers of a read are the same in numbers.
#[tactic(auto, using(crate::proofs::OneAnswer::reading_one))]
fn apart()
    ensures { (from : ℕ) (a b : Result Read Refusal) → read_as from a ≡ read_as from b → a ≡ b }
{}
