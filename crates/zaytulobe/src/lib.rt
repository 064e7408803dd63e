// The entries for callers in C. A slice is a pointer and a length there; a state is a struct of numbers, by value.
#![tactic(auto)]

ghost use Rattle.std.specs.Prelude.{◌≡◌};
ghost use Rattle.sender.specs.Lane.{fresh};
ghost use Rattle.sender.specs.Entry.{done as send_done, entry};
ghost use Rattle.text.specs.Writing.{done as list_done};
ghost use Rattle.capture.specs.Listing.{listed};
ghost use Rattle.capture.specs.Messages.{told};
ghost use Rattle.zaytulobe.specs.Counts.{as_counted};
ghost use Rattle.zaytulobe.specs.declared.counts.CountedNumbers.{CountedNumbers};
ghost use Rattle.zaytulobe.specs.declared.SentNumbers.{SentNumbers};
ghost use Rattle.zaytulobe.specs.Running.{longest_numbers};
ghost use Rattle.zaytulobe.specs.Sending.{as_answer};

use counts::CountedNumbers;
use sender::Sender;

mod bools;
pub mod counts;
pub mod locking;
pub mod locks;
pub mod messages;
pub mod receivers;
pub mod receiving;

// A refusal, or 0 with the multiblocks sent; and the state for the next call.
#[repr(C)]
#[derive(Clone, Copy)]
pub struct SentNumbers {
    pub refusal: u8,
    pub count: usize,
    pub state: Sender,
}

// A refusal, or 0 with the longest run in multiblocks: the first, and how many.
#[repr(C)]
#[derive(Clone, Copy)]
pub struct RunNumbers {
    pub refusal: u8,
    pub start: usize,
    pub count: usize,
}

// A sender's first state.
#[unsafe(no_mangle)]
pub extern "C" fn zaytulobe_fresh_sender() -> Sender
    ensures { result ≡ fresh }
{
    Sender::fresh()
}

// Sends 256 user octets for each command, over the start of `lane`.
#[unsafe(no_mangle)]
pub extern "C" fn zaytulobe_send(
    mode: u8,
    e: u32,
    state: Sender,
    user: &[u8],
    commands: &[u32],
    lane: &mut [u8],
) -> SentNumbers
    ensures { send_done (as_answer result) lane.new ≡ entry mode e state user.now commands.now lane.old }
{
    match sender::send(mode, e, state, user, commands, lane) {
        Ok(ran) => SentNumbers {
            refusal: 0,
            count: ran.count,
            state: ran.state,
        },
        Err(why) => SentNumbers {
            refusal: why.number(),
            count: 0,
            state,
        },
    }
}

// The longest run of multiblocks with status 0 or 1, in numbers.
#[tactic(auto, unfolding(crate::specs::Running::longest_numbers))]
#[unsafe(no_mangle)]
pub extern "C" fn zaytulobe_longest_run(octets: &[u8], statuses: &[u8]) -> RunNumbers
    ensures { result ≡ longest_numbers octets.now statuses.now }
{
    if let Err(why) = longest::check(octets, statuses) {
        return RunNumbers {
            refusal: why.number(),
            start: 0,
            count: 0,
        };
    }
    let span = longest::span_of(statuses);
    RunNumbers {
        refusal: 0,
        start: span.start,
        count: span.count,
    }
}

// The listing of a capture, over the start of `text`.
#[unsafe(no_mangle)]
pub extern "C" fn zaytulobe_listing(capture: &[u8], text: &mut [u8]) -> CountedNumbers
    ensures { list_done (as_counted result) text.new ≡ listed capture.now text.old }
{
    CountedNumbers::from(capture::listing(capture, text))
}

// What is told of the messages in a capture, over the start of `text`.
#[unsafe(no_mangle)]
pub extern "C" fn zaytulobe_messages(capture: &[u8], text: &mut [u8]) -> CountedNumbers
    ensures { list_done (as_counted result) text.new ≡ told capture.now text.old }
{
    CountedNumbers::from(capture::messages(capture, text))
}

// No two answers for callers in C are the same in the answers that they stand for.
#[tactic(auto, using(crate::proofs::OneAnswer::counted_numbers_one, crate::proofs::OneAnswer::sent_numbers_one))]
fn apart()
    ensures counts { (a b : CountedNumbers) → as_counted a ≡ as_counted b → a ≡ b }
    ensures sent { (a b : SentNumbers) → as_answer a ≡ as_answer b → a ≡ b }
{}
