// The modes and their numbers, which no other place in the code has: document 01, "From octets to lane bits" and "Numbers of refusal"; requests 2 and
// 5; clauses 7.1 and 7.3.4 to 7.3.7. A row is a mode's sync word, the bits between the data octets of its blocks, and the multiblocks that one call takes.
ghost use Rattle.std.specs.Prelude.{◌≡◌};
ghost use Rattle.frame.specs.Lane.{fill_bound};
ghost use Rattle.frame.specs.Modes.{known, row, numbers_of, extent_fits, most_of_all, longest_lane};

// What a sync word carries: the parity of CRC-12 and a command, the parity of FEC, the parities of CRC-3 and a command, or a command alone.
#[derive(Clone, Copy, Debug, PartialEq, Eq)]
pub enum Sync {
    Crc12,
    Fec,
    Crc3,
    Command,
}

#[derive(Clone, Copy, Debug, PartialEq, Eq)]
pub struct Row {
    pub sync: Sync,
    pub gap: u8,
    pub most: usize,
}

// What follows from a row: parities that go with the next sync word and with their own, commands, commands with their flag and fill registers are
// below these; words of a command; octets of a multiblock on the lane, and bits of a block; whether a burst is flipped back.
#[derive(Clone, Copy, Debug, PartialEq, Eq)]
pub struct Numbers {
    pub parities: u32,
    pub owns: u16,
    pub commands: u32,
    pub flagged: u32,
    pub words: usize,
    pub fills: u32,
    pub octets: usize,
    pub width: u32,
    pub repairs: bool,
}

// For buffers of a fixed size: the most multiblocks that a call takes in any mode, and the most lane octets.
pub const MOST: usize = 240;

pub const LONGEST_LANE: usize = 320 * 200;

// A mode's number is its place here.
const ROWS: [Row; 6] = [
    Row {
        sync: Sync::Crc12,
        gap: 0,
        most: 240,
    },
    Row {
        sync: Sync::Fec,
        gap: 0,
        most: 240,
    },
    Row {
        sync: Sync::Crc12,
        gap: 2,
        most: 200,
    },
    Row {
        sync: Sync::Fec,
        gap: 2,
        most: 200,
    },
    Row {
        sync: Sync::Crc3,
        gap: 0,
        most: 240,
    },
    Row {
        sync: Sync::Command,
        gap: 0,
        most: 240,
    },
];

// By the row of a number that is no mode's, no call takes a multiblock.
const NO_ROW: Row = Row {
    sync: Sync::Crc12,
    gap: 0,
    most: 0,
};

// Whether a mode has this number.
pub fn known(mode: u8) -> bool
    ensures { result ≡ known mode }
{
    usize::from(mode) < ROWS.len()
}

// The row of a mode.
#[tactic(auto, unfolding(crate::specs::Modes::row))]
pub fn row_of(mode: u8) -> Row
    ensures { result ≡ row mode }
{
    if known(mode) {
        ROWS[usize::from(mode)]
    } else {
        NO_ROW
    }
}

// Fill registers are below this: in gaps all ones are none, since they stand still; without gaps 0 is the only one.
fn fills_of(gap: u8) -> u32
    ensures { result ≡ fill_bound gap }
{
    if gap == 0 { 1 } else { 0x1_ffff }
}

// The numbers that follow from a row. A sync word that carries no parity and no command brings what stands in `bare`.
#[tactic(auto, unfolding(crate::specs::Lane::lane_octets, crate::specs::Lane::block_width))]
pub fn numbers_of(row: Row) -> Numbers
    ensures { result ≡ numbers_of row }
{
    let width = 66 + 7 * u32::from(row.gap);
    let bare = Numbers {
        parities: 1,
        owns: 1,
        commands: 1,
        flagged: 1,
        words: 0,
        fills: fills_of(row.gap),
        octets: 4 * width as usize,
        width,
        repairs: false,
    };
    match row.sync {
        Sync::Crc12 => Numbers {
            parities: 0x1000,
            commands: 0x80,
            flagged: 0x100,
            words: 1,
            ..bare
        },
        Sync::Fec => Numbers {
            parities: 0x400_0000,
            repairs: true,
            ..bare
        },
        Sync::Crc3 => Numbers {
            parities: 8,
            owns: 0x200,
            commands: 0x80,
            flagged: 0x100,
            words: 1,
            ..bare
        },
        Sync::Command => Numbers {
            commands: 0x8_0000,
            flagged: 0x10_0000,
            words: 3,
            ..bare
        },
    }
}

// Whether a number of multiblocks may make an extended multiblock.
#[tactic(auto, unfolding(crate::specs::Modes::extent_fits))]
pub fn extent_fits(e: u32) -> bool
    ensures { result ≡ extent_fits e }
{
    matches!(e, 1..=256)
}

// The constants are the numbers of the rows.
#[tactic(auto, unfolding(crate::specs::Modes::most_of_all, crate::specs::Modes::longest_lane, crate::specs::Lane::lane_octets, crate::specs::Lane::block_width))]
fn tied()
    ensures { (MOST ≡ most_of_all) × (LONGEST_LANE ≡ longest_lane) }
{}
