// The text of a listing, from the lists of what was released, and the line of a refusal: document 01, "Capture and listing". The text of messages,
// from the commands that were released: request 6.
#![tactic(auto)]

ghost use Rattle.std.specs.Prelude.{◌≡◌, ◌&&◌, eqb};
ghost use Rattle.answers.specs.Numbers.{counted};
ghost use Rattle.text.specs.Text.{refused_line};
ghost use Rattle.text.specs.Writing.{done, room_over, written};
ghost use Rattle.text.specs.Messages.{messages_written};
ghost use Rattle.text.specs.inner.Wrote.{Wrote};

use answers::Refusal;
use frame::modes;
use frame::modes::Row;
use lines::Releases;
use messages::Commands;

mod fields;
mod lines;
mod messages;

// Whether there are as many places and patterns as statuses.
fn alike(statuses: usize, places: usize, patterns: usize) -> bool
    ensures { result ≡ (eqb places statuses && eqb patterns statuses) }
{
    places == statuses && patterns == statuses
}

// The header line and a line for each status, place and pattern, over the start of `text`.
pub fn write(
    text: &mut [u8],
    row: Row,
    e: u32,
    received: u32,
    statuses: &[u8],
    places: &[u16],
    patterns: &[u16],
) -> Result<usize, Refusal>
    ensures { done (counted result) text.new ≡ written row e received statuses.now places.now patterns.now text.old }
{
    if !alike(statuses.len(), places.len(), patterns.len()) {
        return Err(Refusal::Length);
    }
    if statuses.len() > modes::MOST {
        return Err(Refusal::Count);
    }
    let releases = Releases {
        statuses,
        places,
        patterns,
    };
    releases.put(text, row, e, received)
}

fn put_refusal(text: &mut [u8], refusal: u8) -> usize
    ensures { Wrote (refused_line refusal) 0 text.old result text.new }
{
    let name = fields::put(text, 0, b"refused ");
    fields::put_field(text, name, u32::from(refusal), b'\n')
}

// The line of a refusal, over the start of `text`.
pub fn write_refusal(text: &mut [u8], refusal: u8) -> Result<usize, Refusal>
    ensures { done (counted result) text.new ≡ room_over (refused_line refusal) text.old }
{
    fields::put_where_room(text, |text| put_refusal(text, refusal))
}

// The header line and a line for each event of these commands, over the start of `text`.
pub fn write_messages(
    text: &mut [u8],
    mode: u8,
    e: u32,
    received: u32,
    commands: &[u32],
) -> Result<usize, Refusal>
    ensures { done (counted result) text.new ≡ messages_written mode e received commands.now text.old }
{
    if commands::channel_words(mode) == 0 {
        return Err(Refusal::Mode);
    }
    if commands.len() > modes::MOST {
        return Err(Refusal::Count);
    }
    let numbers = modes::numbers_of(modes::row_of(mode));
    if !bits::all_below(numbers.flagged, commands) {
        return Err(Refusal::Commands);
    }
    let listed = Commands { mode, commands };
    listed.put(text, e, received)
}
