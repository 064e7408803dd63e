// A run over multiblocks: clauses 7.1.4, 7.2.5, 7.3.3, 7.4.1 and 7.5.1; requests 2 and 5.
ghost use Rattle.std.specs.Prelude.{◌≡◌, ◌*◌, ◌≤◌, ◌<◌, length};
ghost use Rattle.bits.specs.Order.{bit_at, octets_in, laid};
ghost use Rattle.parity.specs.Codeword.{multiblock_parity};
ghost use Rattle.frame.specs.Modes.{code};
ghost use Rattle.sender.specs.Lane.{sent_one, after_one, lane as sent_all, after};

use crate::Sender;
use frame::modes::Sync;
use frame::sync;
use frame::sync::Parts;
use multiblock::Layout;

// The parity of the octets that 32 blocks hold: of no groups it is 0.
fn parity_of(sync: Sync, blocks: &[u64]) -> u32
    requires { length blocks.now ≡ 32 }
    ensures { result ≡ multiblock_parity (code sync) (bit_at (octets_in blocks.now)) }
{
    match sync {
        Sync::Crc12 => parity::Crc12::of_words(blocks),
        Sync::Fec => parity::Fec::of_words(blocks),
        Sync::Crc3 => parity::Crc3::of_words(blocks),
        Sync::Command => 0,
    }
}

// The multiblock for 256 user octets, over the start of `lane`. Its sync word carries a part of the parity of the one before, and of its own the rest.
fn send_one(
    layout: Layout,
    e: u32,
    state: Sender,
    user: &[u8],
    command: u32,
    lane: &mut [u8],
) -> Sender
    requires { (layout.size ≤ length lane.old) × (state.number < e) }
    ensures value { result ≡ after_one layout.row e state user.now }
    ensures lane_after { lane.new ≡ laid (sent_one layout.row e state user.now command) lane.old }
{
    let scrambled = scrambler::scramble_multiblock(user, state.history);
    let blocks = scrambled.blocks;
    let kind = layout.row.sync;
    let parts = sync::split(kind, parity_of(kind, &blocks[..]));
    let carried = Parts {
        before: state.parity,
        ..parts
    };
    let next = state.number + 1;
    let last = next == e;
    let word = sync::word(kind, carried, command, last);
    let fill = multiblock::write(layout.row.gap, state.fill, word, &blocks, lane);
    Sender {
        history: scrambled.history,
        parity: parts.before,
        number: next % e,
        fill,
    }
}

// The multiblocks for all commands, each through the part of `lane` that starts where it goes.
pub(crate) fn send_all(
    layout: Layout,
    e: u32,
    start: Sender,
    user: &[u8],
    commands: &[u32],
    lane: &mut [u8],
) -> Sender
    requires { (256 * length commands.now ≤ length user.now) × (layout.size * length commands.now ≤ length lane.old) × (start.number < e) }
    ensures value { result ≡ after layout.row e start user.now commands.now }
    ensures lane_after { lane.new ≡ laid (sent_all layout.row e start user.now commands.now) lane.old }
{
    let mut state = start;
    for (k, &command) in commands.iter().enumerate() {
        let from = 256 * k;
        let user = &user[from..from + 256];
        let at = layout.size * k;
        state = send_one(layout, e, state, user, command, &mut lane[at..]);
    }
    state
}
