// Command words: clauses 7.3.7.3 and 7.6.3; request 6.
ghost use Rattle.std.specs.Prelude.{◌≡◌, ◌≤◌, ◌<◌};
ghost use Rattle.commands.specs.Words.{parity_bit, with_parity, word_in, spoilt, said, word_at};

// What a word says: a function code, five bits of payload, that it only fills its command, or that its command is not to be read.
#[derive(Clone, Copy)]
pub(crate) enum Word {
    Header(u8),
    Payload(u8),
    Padding,
    Spoilt,
    End,
}

// A list of commands, each of so many words.
#[derive(Clone, Copy)]
pub(crate) struct Words<'a> {
    pub commands: &'a [u32],
    pub each: usize,
    ghost some: { 1 ≤ each },
    ghost few: { each ≤ 3 },
}

// The exclusive or of all bits.
#[tactic(auto, unfolding(crate::specs::Words::parity_bit))]
fn parity_bit(v: u32) -> u32
    ensures { result ≡ parity_bit v }
{
    u32::count_ones(v) % 2
}

// The command of some words.
#[tactic(auto, unfolding(crate::specs::Words::with_parity, crate::specs::Words::parity_bit))]
pub(crate) fn with_parity(v: u32) -> u32
    requires { v < 0x40000 }
    ensures { result ≡ with_parity v }
{
    v * 2 + parity_bit(v)
}

// What word `j` of a command says.
#[tactic(auto, unfolding(crate::specs::Words::said))]
fn said(j: usize, word: u8) -> Word
    ensures { result ≡ said j word }
{
    if word >= 32 {
        return Word::Payload(word - 32);
    }
    if word == 0 && j > 0 {
        return Word::Padding;
    }
    Word::Header(word)
}

impl Words<'_> {
    // Whether a command carries the mark, or its parity bit is wrong.
    #[tactic(auto, unfolding(crate::specs::Words::spoilt))]
    fn spoilt(&self, command: u32) -> bool
        ensures { result ≡ spoilt self.now.each command }
    {
        if command >> (6 * self.each + 1) > 0 {
            return true;
        }
        command % 2 != parity_bit(command / 2)
    }

    // Word `j` of a command.
    #[tactic(auto, unfolding(crate::specs::Words::word_in))]
    fn word_in(&self, command: u32, j: usize) -> u8
        requires { j < self.now.each }
        ensures { result ≡ word_in self.now.each command j }
    {
        ((command >> (6 * (self.each - 1 - j) + 1)) % 64) as u8
    }

    // What word `i` of the list says.
    #[tactic(auto, unfolding(crate::specs::Words::word_at))]
    pub(crate) fn at(&self, i: usize) -> Word
        ensures { result ≡ word_at self.now.each self.now.commands.now i }
    {
        let Some(&command) = self.commands.get(i / self.each) else {
            return Word::End;
        };
        if self.spoilt(command) {
            return Word::Spoilt;
        }
        let j = i % self.each;
        said(j, self.word_in(command, j))
    }
}
