// The lines of messages, and the whole of their text: request 6. It is written where there is room for all of it.
ghost use Rattle.std.specs.Prelude.{◌≡◌, ◌*◌, ◌/◌, ◌≤◌, length};
ghost use Rattle.answers.specs.Numbers.{counted};
ghost use Rattle.frame.specs.Modes.{most_of_all};
ghost use Rattle.commands.specs.Writing.{channel_words};
ghost use Rattle.commands.specs.Reading.{refusal_of};
ghost use Rattle.text.specs.Messages.{words_text, told_line, event_line, event_lines, messages_text};
ghost use Rattle.text.specs.Writing.{done, room_over};
ghost use Rattle.text.specs.inner.Wrote.{Wrote};
ghost use Rattle.text.specs.inner.Tellable.{Tellable};

use crate::fields;
use answers::Refusal;
use commands::events::Event;
use frame::modes;

// A list of commands that is not refused.
#[derive(Clone, Copy)]
pub(crate) struct Commands<'a> {
    pub mode: u8,
    pub commands: &'a [u32],
    ghost readable: { refusal_of mode commands.now ≡ 0 },
    ghost few: { length commands.now ≤ most_of_all },
}

// Each word after a space.
fn put_words(text: &mut [u8], at: usize, words: &[u8]) -> usize
    ensures { Wrote (words_text words.now) at text.old result text.new }
{
    let mut next = at;
    for word in words {
        next = fields::put(text, next, b" ");
        next = fields::put_decimal(text, next, u32::from(*word));
    }
    next
}

// A multiblock, a name, a number and words. Taken into its three calls, each of which knows the name's length.
#[inline(always)]
fn put_told(text: &mut [u8], at: usize, k: u32, name: &[u8], number: u32, words: &[u8]) -> usize
    ensures { Wrote (told_line k name.now number words.now) at text.old result text.new }
{
    let first = fields::put_field(text, at, k, b' ');
    let second = fields::put(text, first, name);
    let third = fields::put_decimal(text, second, number);
    let fourth = put_words(text, third, words);
    fields::put(text, fourth, b"\n")
}

// The line of an event that began in multiblock `k`.
fn put_event(text: &mut [u8], at: usize, k: u32, event: Event) -> usize
    requires { Tellable event }
    ensures { Wrote (event_line k (Some event)) at text.old result text.new }
{
    match event {
        Event::Message(message) => {
            let words = message.words;
            put_told(
                text,
                at,
                k,
                b"message ",
                u32::from(message.code),
                &words[..message.count],
            )
        }
        Event::Cut(taken) => put_told(text, at, k, b"cut ", taken as u32, b""),
        Event::Undefined(code) => put_told(text, at, k, b"undefined ", u32::from(code), b""),
    }
}

// The multiblock that carries a word, of commands of `n` words.
fn multiblock_of(n: usize, word: usize) -> u32
    requires { (1 ≤ n) × (word ≤ 3 * most_of_all) }
    ensures { result ≡ word / n }
{
    (word / n) as u32
}

impl Commands<'_> {
    // The lines of all events, read one after the other.
    fn put_events(&self, text: &mut [u8], start: usize) -> usize
        ensures { let n = channel_words self.now.mode in Wrote (event_lines n self.now.commands.now 0 (n * length self.now.commands.now)) start text.old result text.new }
    {
        let n = commands::channel_words(self.mode);
        let mut at = start;
        let mut read = commands::read(self.mode, self.commands, 0).unwrap();
        while let Some(event) = read.event {
            at = put_event(text, at, multiblock_of(n, read.begin), event);
            read = commands::read(self.mode, self.commands, read.next).unwrap();
        }
        at
    }

    fn put_all(&self, text: &mut [u8], e: u32, received: u32) -> usize
        ensures { Wrote (messages_text self.now.mode e received self.now.commands.now) 0 text.old result text.new }
    {
        let row = modes::row_of(self.mode);
        let start = fields::put_head(text, row, e, received, self.commands.len() as u32);
        self.put_events(text, start)
    }

    // The header line and a line for each event, measured first.
    pub(crate) fn put(&self, text: &mut [u8], e: u32, received: u32) -> Result<usize, Refusal>
        ensures { done (counted result) text.new ≡ room_over (messages_text self.now.mode e received self.now.commands.now) text.old }
    {
        fields::put_where_room(text, |text| self.put_all(text, e, received))
    }
}
