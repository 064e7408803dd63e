// Sync words made and read: clauses 7.3.3 to 7.3.7. Position 0 is the highest of 32 bits.
// Tables 41, 43, 45 and 47: fields are moved whole, by shifts and masks; no two meet, so exclusive or joins them.
ghost use Rattle.std.specs.Prelude.{◌≡◌, ◌^◌};
ghost use Rattle.bits.specs.Choice.{bit_of};
ghost use Rattle.bits.specs.Order.{digit};
ghost use Rattle.frame.specs.declared.modes.Sync.TheVariants.{Crc12, Fec, Crc3, Command};
ghost use Rattle.frame.specs.Headers.{header_in};
ghost use Rattle.frame.specs.Modes.{before, own, command_width};
ghost use Rattle.frame.specs.SyncWord.{sync_word, read_parity, read_parts, read_command, flagged_command, whole, split};

use crate::headers::Headers;
use crate::modes::Sync;

// What a sync word carries of parities: of the multiblock before it, and of its own (request 5).
#[derive(Clone, Copy, Debug, PartialEq, Eq)]
pub struct Parts {
    pub before: u32,
    pub own: u16,
}

// ---- written

fn crc12_word(parts: Parts, command: u32, mark: bool) -> u32
    ensures { result ≡ sync_word Crc12 parts command (bit_of mark) }
{
    let parity = parts.before;
    let end = u32::from(mark) << 9;
    let code = ((parity & 0xe00) << 20)
        ^ ((parity & 0x1c0) << 19)
        ^ ((parity & 0x38) << 18)
        ^ ((parity & 7) << 17);
    let order = ((command & 0x70) << 9) ^ ((command & 8) << 8) ^ ((command & 7) << 5);
    code ^ order ^ (end ^ 0x1111_1501)
}

// A command has no place in it.
fn fec_word(parts: Parts, command: u32, mark: bool) -> u32
    ensures { result ≡ sync_word Fec parts command (bit_of mark) }
{
    let parity = parts.before;
    let end = u32::from(mark) << 9;
    ((parity & 0x03ff_fff0) << 6) ^ ((parity & 0xf) << 5) ^ (end ^ 1)
}

// CRC-A is the parity of the one before; CRC-B, C and D are its own.
fn crc3_word(parts: Parts, command: u32, mark: bool) -> u32
    ensures { result ≡ sync_word Crc3 parts command (bit_of mark) }
{
    let last = (parts.before & 7) << 29;
    let parity = u32::from(parts.own);
    let end = u32::from(mark) << 9;
    let code = ((parity & 0x1c0) << 15) ^ ((parity & 0x38) << 10) ^ ((parity & 7) << 5);
    let order = ((command & 0x70) << 21) ^ ((command & 0xe) << 16) ^ ((command & 1) << 11);
    last ^ code ^ order ^ (end ^ 0x1111_1501)
}

// A parity has no place in it.
fn command_word(parts: Parts, command: u32, mark: bool) -> u32
    ensures { result ≡ sync_word Command parts command (bit_of mark) }
{
    let end = u32::from(mark) << 9;
    let order = ((command & 0x7_0000) << 13)
        ^ ((command & 0xe000) << 12)
        ^ ((command & 0x1c00) << 11)
        ^ ((command & 0x380) << 10)
        ^ ((command & 0x70) << 9)
        ^ ((command & 8) << 8)
        ^ ((command & 7) << 5);
    order ^ (end ^ 0x1111_1501)
}

// The sync word that carries parities, a command and an end mark.
pub fn word(sync: Sync, parts: Parts, command: u32, mark: bool) -> u32
    ensures { result ≡ sync_word sync parts command (bit_of mark) }
{
    match sync {
        Sync::Crc12 => crc12_word(parts, command, mark),
        Sync::Fec => fec_word(parts, command, mark),
        Sync::Crc3 => crc3_word(parts, command, mark),
        Sync::Command => command_word(parts, command, mark),
    }
}

// ---- read

fn crc12_parity(bits: u32) -> u32
    ensures { result ≡ read_parity Crc12 before (digit 32 bits) }
{
    ((bits >> 20) & 0xe00) ^ ((bits >> 19) & 0x1c0) ^ ((bits >> 18) & 0x38) ^ ((bits >> 17) & 7)
}

fn fec_parity(bits: u32) -> u32
    ensures { result ≡ read_parity Fec before (digit 32 bits) }
{
    ((bits >> 6) & 0x03ff_fff0) ^ ((bits >> 5) & 0xf)
}

fn crc3_parity(bits: u32) -> u32
    ensures { result ≡ read_parity Crc3 before (digit 32 bits) }
{
    (bits >> 29) & 7
}

fn crc3_own(bits: u32) -> u16
    ensures { result ≡ read_parity Crc3 own (digit 32 bits) }
{
    (((bits >> 15) & 0x1c0) ^ ((bits >> 10) & 0x38) ^ ((bits >> 5) & 7)) as u16
}

// The parities that 32 sync bits carry.
#[tactic(auto, unfolding(crate::specs::SyncWord::read_by, bits::specs::Order::number))]
pub fn parities(sync: Sync, bits: u32) -> Parts
    ensures { result ≡ read_parts sync (digit 32 bits) }
{
    match sync {
        Sync::Crc12 => Parts {
            before: crc12_parity(bits),
            own: 0,
        },
        Sync::Fec => Parts {
            before: fec_parity(bits),
            own: 0,
        },
        Sync::Crc3 => Parts {
            before: crc3_parity(bits),
            own: crc3_own(bits),
        },
        Sync::Command => Parts { before: 0, own: 0 },
    }
}

// The command beside a CRC-12 parity.
fn crc12_command(bits: u32) -> u32
    ensures { result ≡ read_command Crc12 (digit 32 bits) }
{
    ((bits >> 9) & 0x70) ^ ((bits >> 8) & 8) ^ ((bits >> 5) & 7)
}

// The command beside CRC-3 parities.
fn crc3_command(bits: u32) -> u32
    ensures { result ≡ read_command Crc3 (digit 32 bits) }
{
    ((bits >> 21) & 0x70) ^ ((bits >> 16) & 0xe) ^ ((bits >> 11) & 1)
}

// The command that stands alone.
fn command_alone(bits: u32) -> u32
    ensures { result ≡ read_command Command (digit 32 bits) }
{
    ((bits >> 13) & 0x7_0000)
        ^ ((bits >> 12) & 0xe000)
        ^ ((bits >> 11) & 0x1c00)
        ^ ((bits >> 10) & 0x380)
        ^ ((bits >> 9) & 0x70)
        ^ ((bits >> 8) & 8)
        ^ ((bits >> 5) & 7)
}

// The command that 32 sync bits carry; none with FEC.
#[tactic(auto, unfolding(crate::specs::SyncWord::read_by, bits::specs::Order::number))]
fn command_in(sync: Sync, bits: u32) -> u32
    ensures { result ≡ read_command sync (digit 32 bits) }
{
    match sync {
        Sync::Crc12 => crc12_command(bits),
        Sync::Fec => 0,
        Sync::Crc3 => crc3_command(bits),
        Sync::Command => command_alone(bits),
    }
}

// What is added to a command of which a header was invalid.
fn flag_of(sync: Sync) -> u32
    ensures { result ≡ 2 ^ command_width sync }
{
    match sync {
        Sync::Crc12 => 0x80,
        Sync::Fec => 1,
        Sync::Crc3 => 0x80,
        Sync::Command => 0x8_0000,
    }
}

// The command that 32 headers carry; flagged where one of its own was invalid.
pub fn command(sync: Sync, headers: Headers) -> u32
    ensures { result ≡ flagged_command sync (header_in headers.first headers.second) }
{
    let own = command_in(sync, headers.carried());
    if command_in(sync, headers.invalid()) >= 1 {
        return own + flag_of(sync);
    }
    own
}

// ---- a parity in two parts

// A multiblock's parity from its two parts: the part that the next sync word carries is the lowest.
#[tactic(auto, unfolding(crate::specs::SyncWord::whole))]
pub fn whole(sync: Sync, parts: Parts) -> u32
    ensures { result ≡ whole sync parts }
{
    match sync {
        Sync::Crc12 => parts.before % 0x1000,
        Sync::Fec => parts.before % 0x400_0000,
        Sync::Crc3 => u32::from(parts.own % 0x200) * 8 + parts.before % 8,
        Sync::Command => 0,
    }
}

// The two parts of a multiblock's parity.
#[tactic(auto, unfolding(crate::specs::SyncWord::split))]
pub fn split(sync: Sync, parity: u32) -> Parts
    ensures { result ≡ split sync parity }
{
    match sync {
        Sync::Crc12 => Parts {
            before: parity % 0x1000,
            own: 0,
        },
        Sync::Fec => Parts {
            before: parity % 0x400_0000,
            own: 0,
        },
        Sync::Crc3 => Parts {
            before: parity % 8,
            own: (parity / 8 % 0x200) as u16,
        },
        Sync::Command => Parts { before: 0, own: 0 },
    }
}
