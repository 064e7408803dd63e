// What a call answers: a refusal with its number, or how far it came. Document 01, "Numbers of refusal"; of 10 and 11 request 6.
#![tactic(auto)]

ghost use Rattle.std.specs.Prelude.{◌≡◌, ℕ, Result, ⊤};
ghost use Rattle.answers.specs.declared.Refusal.{Refusal};
ghost use Rattle.answers.specs.declared.Ran.{Ran};
ghost use Rattle.answers.specs.Numbers.{number, refused, counted, answered};

use std::error::Error;
use std::fmt;

// Why a call is refused, in the order of the numbers.
#[derive(Clone, Copy, Debug, PartialEq, Eq)]
pub enum Refusal {
    Mode,
    Extent,
    State,
    Length,
    Count,
    Commands,
    Room,
    Capture,
    Header,
    Long,
    Code,
}

impl Refusal {
    pub fn number(self) -> u8
        ensures { result ≡ number self }
    {
        match self {
            Refusal::Mode => 1,
            Refusal::Extent => 2,
            Refusal::State => 3,
            Refusal::Length => 4,
            Refusal::Count => 5,
            Refusal::Commands => 6,
            Refusal::Room => 7,
            Refusal::Capture => 8,
            Refusal::Header => 9,
            Refusal::Long => 10,
            Refusal::Code => 11,
        }
    }
}

impl fmt::Display for Refusal {
    fn fmt<W: fmt::Write>(&self, f: &mut fmt::Formatter<W>) -> fmt::Result {
        write!(f, "refused {}", self.number())
    }
}

impl Error for Refusal {}

// How many multiblocks a call sent or released, and the state for the next call.
#[derive(Clone, Copy, Debug, PartialEq, Eq)]
pub struct Ran<S> {
    pub count: usize,
    pub state: S,
}

// No two answers are the same in numbers: where a clause says what an answer is in numbers, that leaves one answer.
#[tactic(auto, using(crate::proofs::Numbers::number_one, crate::proofs::Numbers::refused_one, crate::proofs::Numbers::counted_one, crate::proofs::Numbers::answered_one))]
fn apart<S>()
    ensures refusals { (a b : Refusal) → number a ≡ number b → a ≡ b }
    ensures checks { (a b : Result ⊤ Refusal) → refused a ≡ refused b → a ≡ b }
    ensures counts { (a b : Result ℕ Refusal) → counted a ≡ counted b → a ≡ b }
    ensures runs { (state : S) (a b : Result (Ran S) Refusal) → answered state a ≡ answered state b → a ≡ b }
{}
