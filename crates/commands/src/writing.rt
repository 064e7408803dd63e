// A message as commands: clauses 7.3.7.3 and 7.3.7.4; request 6.
ghost use Rattle.std.specs.Prelude.{◌≡◌, true, ◌+◌, ◌≤◌, ◌<◌, ◌^◌, length};
ghost use Rattle.bits.specs.Bounds.{all_below};
ghost use Rattle.bits.specs.Order.{list_from};
ghost use Rattle.commands.specs.Words.{together};
ghost use Rattle.commands.specs.Writing.{message_word, command_of, commands_for};

use crate::words;

// A message that is not refused, for commands of so many words: its function code and its payload, of five bits each.
#[derive(Clone, Copy)]
pub(crate) struct Given<'a> {
    pub each: usize,
    pub code: u8,
    pub payload: &'a [u8],
    ghost few: { each ≤ 3 },
    ghost small: { code < 32 },
    ghost fits: { all_below 32 payload.now ≡ true },
}

// How many commands a header and so much payload fill.
#[tactic(auto, unfolding(crate::specs::Writing::commands_for))]
pub(crate) fn commands_for(each: usize, words: usize) -> usize
    requires { (1 ≤ each) × (words + each < 2 ^ 64) }
    ensures { result ≡ commands_for each words }
{
    (words + each) / each
}

impl Given<'_> {
    // Word `i`: its header, its payload, and then idle headers.
    #[tactic(auto, unfolding(crate::specs::Writing::message_word))]
    fn word(&self, i: usize) -> u8
        ensures { result ≡ message_word self.now.code self.now.payload.now i }
    {
        if i == 0 {
            return self.code;
        }
        if i <= self.payload.len() {
            return 32 + self.payload[i - 1];
        }
        0
    }

    // The words of a command, the first highest, from word `at` on.
    #[tactic(auto, unfolding(parity::specs::Codeword::joined))]
    fn together(&self, at: usize) -> u32
        requires { at ≤ 24 }
        ensures words { result ≡ together (message_word self.now.code self.now.payload.now) at self.now.each }
        ensures small { result < 0x40000 }
    {
        let mut v = 0;
        for j in 0..self.each {
            v = v * 64 + u32::from(self.word(at + j));
        }
        v
    }

    // Its commands, over all of `commands`.
    pub(crate) fn put(&self, commands: &mut [u32])
        requires { length commands.old ≤ 8 }
        ensures { commands.new ≡ list_from (command_of self.now.each self.now.code self.now.payload.now) 0 (length commands.old) }
    {
        for (k, command) in commands.iter_mut().enumerate() {
            *command = words::with_parity(self.together(self.each * k));
        }
    }
}
