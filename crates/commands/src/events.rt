// What is read from a list of commands: clauses 7.3.7.4 and 7.6.3; request 6.

// A function code and its payload words, `count` of them, with 0 behind.
#[derive(Clone, Copy, Debug, PartialEq, Eq)]
pub struct Message {
    pub code: u8,
    pub count: usize,
    pub words: [u8; 7],
}

// A message; one that was cut, with the words of six bits that were taken; a code that is not defined.
#[derive(Clone, Copy, Debug, PartialEq, Eq)]
pub enum Event {
    Message(Message),
    Cut(usize),
    Undefined(u8),
}

// An event, or None at the list's end, the word with which it begins, and the word to go on from.
#[derive(Clone, Copy, Debug, PartialEq, Eq)]
pub struct Read {
    pub event: Option<Event>,
    pub begin: usize,
    pub next: usize,
}
