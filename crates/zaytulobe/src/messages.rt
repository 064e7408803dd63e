// Messages for callers in C. Clauses 7.3.7 and 7.6.3; request 6.
ghost use Rattle.std.specs.Prelude.{◌≡◌};
ghost use Rattle.commands.specs.Writing.{done, writing};
ghost use Rattle.commands.specs.Reading.{unrefused, reading};
ghost use Rattle.zaytulobe.specs.Counts.{as_counted};
ghost use Rattle.zaytulobe.specs.Events.{no_event, event_numbers};

use crate::counts::CountedNumbers;
use commands::events::{Event, Read};

// A refusal, or 0 with an event: `kind` is 0 for the list's end, 1 a message, 2 a cut, 3 a code that is not defined.
#[repr(C)]
#[derive(Clone, Copy)]
pub struct EventNumbers {
    pub refusal: u8,
    pub kind: u8,
    pub code: u8,
    pub words: [u8; 7],
    pub count: usize,
    pub begin: usize,
    pub next: usize,
}

impl EventNumbers {
    // No event, from the word where one was looked for, with the word to go on from.
    fn none(begin: usize, next: usize) -> EventNumbers
        ensures { result ≡ no_event begin next }
    {
        EventNumbers {
            refusal: 0,
            kind: 0,
            code: 0,
            words: [0; 7],
            count: 0,
            begin,
            next,
        }
    }
}

impl From<Read> for EventNumbers {
    ghost from_gives = { λ read numbers. numbers ≡ event_numbers (unrefused read) };

    #[tactic(auto, unfolding(crate::specs::Events::event_numbers))]
    fn from(read: Read) -> EventNumbers {
        let none = EventNumbers::none(read.begin, read.next);
        match read.event {
            None => none,
            Some(Event::Message(message)) => {
                let words = message.words;
                EventNumbers {
                    kind: 1,
                    code: message.code,
                    words,
                    count: message.count,
                    ..none
                }
            }
            Some(Event::Cut(taken)) => EventNumbers {
                kind: 2,
                count: taken,
                ..none
            },
            Some(Event::Undefined(code)) => EventNumbers {
                kind: 3,
                code,
                ..none
            },
        }
    }
}

// Writes a message, over the start of `commands`.
#[unsafe(no_mangle)]
pub extern "C" fn zaytulobe_write_message(
    mode: u8,
    code: u8,
    payload: &[u8],
    commands: &mut [u32],
) -> CountedNumbers
    ensures { done (as_counted result) commands.new ≡ writing mode code payload.now commands.old }
{
    CountedNumbers::from(commands::write(mode, code, payload, commands))
}

// Reads the first event at or after word `from`.
#[tactic(auto, unfolding(crate::specs::Events::event_numbers))]
#[unsafe(no_mangle)]
pub extern "C" fn zaytulobe_read_event(mode: u8, commands: &[u32], from: usize) -> EventNumbers
    ensures { result ≡ event_numbers (reading mode commands.now from) }
{
    match commands::read(mode, commands, from) {
        Ok(read) => EventNumbers::from(read),
        Err(why) => EventNumbers {
            refusal: why.number(),
            ..EventNumbers::none(from, from)
        },
    }
}
