// The lane of a capture, received, and listed or told: document 01, "Capture and listing"; request 6.
ghost use Rattle.std.specs.Prelude.{◌≡◌, true};
ghost use Rattle.answers.specs.Numbers.{counted};
ghost use Rattle.frame.specs.Modes.{row};
ghost use Rattle.text.specs.Writing.{done, room_over};
ghost use Rattle.capture.specs.Listing.{received_in, releases_of, lane_text};
ghost use Rattle.capture.specs.Messages.{has_commands, lane_messages};
ghost use Rattle.capture.specs.inner.Lists.{Lists, Receivable};

use crate::form::Opened;
use answers::Refusal;
use frame::modes;
use receiver::Receiver;

const OCTETS: usize = 256 * modes::MOST;

// How many multiblocks a lane has, how many of them a fresh receiver releases, and the status, command, place and pattern of each.
#[derive(Drop)]
struct Releases {
    received: u32,
    count: usize,
    statuses: [u8; modes::MOST],
    commands: [u32; modes::MOST],
    places: [u16; modes::MOST],
    patterns: [u16; modes::MOST],
}

// Taken into both of its callers, which take the answer apart: whole it would be zeroed and copied.
#[inline(always)]
fn receive(mode: u8, lane: &[u8]) -> Releases
    requires { Receivable mode lane.now }
    ensures received { result.received ≡ received_in (row mode) lane.now }
    ensures lists { Lists (releases_of (row mode) lane.now) result.count result.statuses result.commands result.places result.patterns }
{
    let numbers = modes::numbers_of(modes::row_of(mode));
    let mut octets = [0u8; OCTETS];
    let mut statuses = [0u8; modes::MOST];
    let mut commands = [0u32; modes::MOST];
    let mut places = [0u16; modes::MOST];
    let mut patterns = [0u16; modes::MOST];
    let mut invalid = [0u8; modes::MOST];
    let ran = receiver::receive(
        mode,
        Receiver::fresh(),
        lane,
        &mut octets,
        &mut statuses,
        &mut commands,
        &mut places,
        &mut patterns,
        &mut invalid,
    )
    .unwrap();
    Releases {
        received: (lane.len() / numbers.octets) as u32,
        count: ran.count,
        statuses,
        commands,
        places,
        patterns,
    }
}

// The listing of a lane of whole multiblocks, over the start of `text`. A capture that is refused never makes room for the lists.
#[inline(never)]
pub(crate) fn list(text: &mut [u8], opened: Opened) -> Result<usize, Refusal>
    requires { Receivable opened.mode opened.lane.now }
    ensures { done (counted result) text.new ≡ room_over (lane_text (row opened.entry.mode) opened.entry.e opened.entry.lane.now) text.old }
{
    let row = modes::row_of(opened.mode);
    let Releases {
        received,
        count,
        statuses,
        places,
        patterns,
        ..
    } = receive(opened.mode, opened.lane);
    let statuses = &statuses[..count];
    let places = &places[..count];
    let patterns = &patterns[..count];
    text::write(text, row, opened.e, received, statuses, places, patterns)
}

// The messages in the commands of a lane of whole multiblocks, over the start of `text`.
#[inline(never)]
pub(crate) fn tell(text: &mut [u8], opened: Opened) -> Result<usize, Refusal>
    requires { (has_commands opened.mode ≡ true) × Receivable opened.mode opened.lane.now }
    ensures { done (counted result) text.new ≡ room_over (lane_messages opened.entry.mode opened.entry.e opened.entry.lane.now) text.old }
{
    let Releases {
        received,
        count,
        commands,
        ..
    } = receive(opened.mode, opened.lane);
    let commands = &commands[..count];
    text::write_messages(text, opened.mode, opened.e, received, commands)
}
