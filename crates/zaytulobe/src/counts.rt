// How many were written, for callers in C. Document 01, "Numbers of refusal" and "Capture and listing"; request 6.
ghost use Rattle.std.specs.Prelude.{◌≡◌};
ghost use Rattle.answers.specs.Numbers.{counted};
ghost use Rattle.zaytulobe.specs.Counts.{as_counted};

use answers::Refusal;

// A refusal, or 0 and how many commands of a message, or octets of a text, were written.
#[repr(C)]
#[derive(Clone, Copy)]
pub struct CountedNumbers {
    pub refusal: u8,
    pub count: usize,
}

impl From<Result<usize, Refusal>> for CountedNumbers {
    ghost from_gives = { λ answer numbers. as_counted numbers ≡ counted answer };

    fn from(answer: Result<usize, Refusal>) -> CountedNumbers {
        match answer {
            Ok(count) => CountedNumbers { refusal: 0, count },
            Err(why) => CountedNumbers {
                refusal: why.number(),
                count: 0,
            },
        }
    }
}
