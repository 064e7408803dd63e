// Messages read word by word: clauses 7.3.7.4, 7.3.7.6 and 7.6.3; request 6.
ghost use Rattle.std.specs.Prelude.{◌≡◌, Bool, ◌+◌, ◌≤◌, ◌<◌, ◌^◌};
ghost use Rattle.commands.specs.declared.words.Word.{Word};
ghost use Rattle.commands.specs.Words.{word_at};
ghost use Rattle.commands.specs.Table51.{function_of};
ghost use Rattle.commands.specs.Reading.{is_spoilt, five_bits, in_a_row, found, complete, past_padding, past_command, payload_from, past_cut, message_at, header_at, event_at, event_in};

use crate::events::{Event, Message, Read};
use crate::table51;
use crate::words::{Word, Words};

impl Word {
    fn is_spoilt(self) -> bool
        ensures { result ≡ is_spoilt self }
    {
        matches!(self, Word::Spoilt)
    }

    fn five_bits(self) -> u8
        ensures { result ≡ five_bits self }
    {
        match self {
            Word::Payload(bits) => bits,
            _ => 0,
        }
    }
}

// Whether a message can have no more payload, or has enough and what comes behind it is not spoilt.
#[tactic(auto, unfolding(crate::specs::Reading::complete))]
fn complete(code: u8, count: usize, spoilt: bool) -> bool
    ensures { result ≡ complete (function_of code) count spoilt }
{
    let function = table51::function_of(code);
    if count == function.most {
        return true;
    }
    function.fewest <= count && !spoilt
}

// Where nothing begins any more.
fn nothing_at(begin: usize) -> Read
    ensures { result ≡ found None begin begin }
{
    Read {
        event: None,
        begin,
        next: begin,
    }
}

impl Words<'_> {
    // How many words in a row are meant, from word `at` on, and at most so many.
    fn in_a_row<F: Fn(Word) -> bool>(&self, is: F, at: usize, most: usize) -> usize
        ghost test: { Word → Bool }
        requires callable { F.IsAlwaysCallable is }
        requires tests { (word : Word) (r : Bool) → F.post is word r → r ≡ test word }
        requires room { at + most < 2 ^ 64 }
        ensures counted { result ≡ in_a_row test (word_at self.now.each self.now.commands.now) at most }
        ensures few { result ≤ most }
    {
        (at..at + most).take_while(|&i| is(self.at(i))).count()
    }

    // Past the padding that stands from word `at` on.
    #[tactic(auto, unfolding(crate::specs::Reading::past_padding))]
    fn past_padding(&self, at: usize) -> usize
        requires { at + 3 < 2 ^ 64 }
        ensures { result ≡ past_padding self.now.each (word_at self.now.each self.now.commands.now) at }
    {
        at + self.in_a_row(|word| matches!(word, Word::Padding), at, self.each)
    }

    // The first word of the command behind that of word `at`.
    #[tactic(auto, unfolding(crate::specs::Reading::past_command))]
    fn past_command(&self, at: usize) -> usize
        requires { at + 3 < 2 ^ 64 }
        ensures { result ≡ past_command self.now.each at }
    {
        self.each * (at / self.each + 1)
    }

    // Payload that is taken, from word `at` on.
    fn payload_from(&self, at: usize, count: usize) -> [u8; 7]
        requires { (count ≤ 7) × (at + 7 < 2 ^ 64) }
        ensures { result ≡ payload_from self.now.each (word_at self.now.each self.now.commands.now) at count }
    {
        let mut taken = [0u8; 7];
        for (k, bits) in taken[..count].iter_mut().enumerate() {
            *bits = self.at(at + k).five_bits();
        }
        taken
    }

    // The word to go on from where a message is cut: a command that is spoilt goes with it.
    #[tactic(auto, unfolding(crate::specs::Reading::past_cut))]
    fn past_cut(&self, behind: usize, spoilt: bool) -> usize
        requires { behind + 3 < 2 ^ 64 }
        ensures { result ≡ past_cut self.now.each (word_at self.now.each self.now.commands.now) behind spoilt }
    {
        if spoilt {
            return self.past_command(behind);
        }
        self.past_padding(behind)
    }

    // A message of a defined code, whose header is word `begin` and whose payload has so many words.
    #[tactic(auto, unfolding(crate::specs::Reading::message_at))]
    fn message_at(&self, begin: usize, code: u8, count: usize) -> Read
        requires { (count ≤ 7) × (begin + 11 < 2 ^ 64) }
        ensures { result ≡ message_at self.now.each (word_at self.now.each self.now.commands.now) begin code count }
    {
        let behind = begin + 1 + count;
        let spoilt = self.at(behind).is_spoilt();
        if !complete(code, count, spoilt) {
            return Read {
                event: Some(Event::Cut(1 + count)),
                begin,
                next: self.past_cut(behind, spoilt),
            };
        }
        let words = self.payload_from(begin + 1, count);
        let next = self.past_padding(behind);
        Read {
            event: Some(Event::Message(Message { code, count, words })),
            begin,
            next,
        }
    }

    // What begins with the header at word `begin`.
    #[tactic(auto, unfolding(crate::specs::Reading::header_at))]
    fn header_at(&self, begin: usize, code: u8) -> Read
        requires { begin + 11 < 2 ^ 64 }
        ensures { result ≡ header_at self.now.each (word_at self.now.each self.now.commands.now) begin code }
    {
        let function = table51::function_of(code);
        if !function.defined {
            let next = self.past_padding(begin + 1);
            return Read {
                event: Some(Event::Undefined(code)),
                begin,
                next,
            };
        }
        let count = self.in_a_row(
            |word| matches!(word, Word::Payload(_)),
            begin + 1,
            function.most,
        );
        self.message_at(begin, code, count)
    }

    // What begins at word `begin`.
    fn event_at(&self, begin: usize) -> Read
        requires { begin + 11 < 2 ^ 64 }
        ensures { let words = word_at self.now.each self.now.commands.now in result ≡ event_at self.now.each words begin (words begin) }
    {
        match self.at(begin) {
            Word::Header(code) => self.header_at(begin, code),
            Word::Spoilt => Read {
                event: Some(Event::Cut(0)),
                begin,
                next: self.past_command(begin),
            },
            Word::Payload(_) | Word::Padding | Word::End => nothing_at(begin),
        }
    }

    // The first event at or after word `from`: payload and padding with nothing open are skipped.
    #[tactic(auto, unfolding(crate::specs::Reading::event_in, crate::specs::Reading::event_from, crate::specs::Reading::begin_from))]
    pub(crate) fn event_from(&self, from: usize) -> Read
        ensures { result ≡ event_in self.now.each self.now.commands.now from }
    {
        let all = self.each * self.commands.len();
        if from >= all {
            return nothing_at(from);
        }
        let skipped = self.in_a_row(
            |word| matches!(word, Word::Payload(_) | Word::Padding),
            from,
            all - from,
        );
        self.event_at(from + skipped)
    }
}
