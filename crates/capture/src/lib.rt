// The capture's form, the listing's text, and that of its messages: document 01, "Capture and listing"; request 6.
#![tactic(auto)]

ghost use Rattle.std.specs.Prelude.{◌≡◌, ◌+◌};
ghost use Rattle.answers.specs.Numbers.{counted};
ghost use Rattle.frame.specs.Modes.{longest_lane};
ghost use Rattle.text.specs.Writing.{done};
ghost use Rattle.capture.specs.Listing.{listed, longest_text};
ghost use Rattle.capture.specs.Messages.{told, longest_messages};

use answers::Refusal;
use frame::modes;

mod form;
mod lane;

// For buffers of a fixed size: the octets of the longest capture, of the longest listing, and of the longest text of messages.
pub const LONGEST: usize = 11 + modes::LONGEST_LANE;

pub const TEXT: usize = 18 + 15 * (modes::MOST - 1);

pub const MESSAGES: usize = 21 + 17 * (3 * (modes::MOST - 1));

// The listing of a capture, over the start of `text`.
pub fn listing(capture: &[u8], text: &mut [u8]) -> Result<usize, Refusal>
    ensures { done (counted result) text.new ≡ listed capture.now text.old }
{
    let opened = form::open(capture, |mode| modes::known(mode))?;
    lane::list(text, opened)
}

// The messages in the commands of a capture, over the start of `text`: only a mode that has commands is taken.
pub fn messages(capture: &[u8], text: &mut [u8]) -> Result<usize, Refusal>
    ensures { done (counted result) text.new ≡ told capture.now text.old }
{
    let opened = form::open(capture, |mode| commands::channel_words(mode) != 0)?;
    lane::tell(text, opened)
}

// The constants are the numbers of the definitions.
fn tied()
    ensures { (LONGEST ≡ 11 + longest_lane) × (TEXT ≡ longest_text) × (MESSAGES ≡ longest_messages) }
{}
