// Reads a capture on standard input and writes the messages in its commands, or the number by which it is refused: request 6.
#![tactic(auto)]

ghost use Rattle.std.specs.Prelude.{◌≡◌, ◌≤◌, length, take};
ghost use Rattle.capture.specs.Messages.{longest_messages};
ghost use Rattle.lanecommands.specs.Output.{printed};

use std::io;

// One octet more than a capture may have, so that one that is too long is seen to be.
const READ: usize = capture::LONGEST + 1;

// All that is printed of a capture, over the start of `text`. There is room for the longest text, and for the line of a refusal: neither is
// refused by 7.
fn print(octets: &[u8], text: &mut [u8]) -> usize
    requires { length text.old ≡ longest_messages }
    ensures { (result ≤ length text.new) × (take result text.new ≡ printed octets.now) }
{
    match capture::messages(octets, text) {
        Ok(count) => count,
        Err(why) => text::write_refusal(text, why.number()).unwrap(),
    }
}

fn main(rt: HostRuntime) -> io::Result<()> {
    let mut octets = [0u8; READ];
    let mut text = [0u8; capture::MESSAGES];
    let got = input::read_full(&mut rt.stdin(), &mut octets)?;
    let count = print(&octets[..got], &mut text);
    rt.write_all(&text[..count])
}
