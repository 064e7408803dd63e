// Sync words made and read back, Tables 41, 43, 45 and 47, clauses 7.3.4 to 7.3.7: nothing, the mark, each bit of each field alone, everything,
// and 16 cases a layout from a generator; then commands of which one header was invalid. A parity is a multiblock's whole one (request 5).
ghost use Rattle.std.specs.Prelude.{◌<◌, ◌≤◌};

use frame::headers::Headers;
use frame::modes::Sync;
use frame::{modes, sync};
use std::io;

// A command of 7 bits in two digits, one of 19 in five.
fn digits_of(kind: Sync) -> usize {
    if kind == Sync::Command { 5 } else { 2 }
}

// The sync word of the three fields, and the parity and command read from it, whose headers are all valid.
fn write_word(rt: &impl Print, mode: u8, parity: u32, command: u32, mark: bool) -> io::Result<()> {
    let kind = modes::row_of(mode).sync;
    let digits = digits_of(kind);
    let end = u8::from(mark);
    print!(rt; "sync word {mode} {parity:07X} {command:0digits$X} {end} -> ")?;
    let word = sync::word(kind, sync::split(kind, parity), command, mark);
    let parity_read = sync::whole(kind, sync::parities(kind, word));
    let valid = Headers {
        first: !word,
        second: word,
    };
    let command_read = sync::command(kind, valid);
    println!(rt; "{word:08X} read {parity_read:07X} {command_read:0digits$X}")
}

// The generator: x' = (x * 1103515245 + 12345) mod 2^31.
fn next(x: u32) -> u32 {
    ((u64::from(x) * 1103515245 + 12345) % 0x8000_0000) as u32
}

// So many bits of a number of the generator, from its highest on.
fn highest(x: u32, width: u32) -> u32
    requires { width ≤ 26 }
{
    x >> (31 - width)
}

// Cases from the numbers after 1: three for each, for its parity, its command and its mark.
fn write_generated(rt: &impl Print, mode: u8, parities: u32, commands: u32) -> io::Result<()>
    requires { (parities ≤ 26) × (commands ≤ 26) }
{
    let mut x = 1;
    for _ in 0..16u32 {
        let first = next(x);
        let second = next(first);
        x = next(second);
        let parity = highest(first, parities);
        let command = highest(second, commands);
        write_word(rt, mode, parity, command, highest(x, 1) == 1)?;
    }
    Ok(())
}

// The words of a mode, by the bits of its parity and of its command, and by those of the commands given.
fn write_mode(rt: &impl Print, mode: u8, parities: u32, commands: u32, given: u32) -> io::Result<()>
    requires { (parities ≤ 26) × (commands ≤ 26) × (given ≤ 26) }
{
    write_word(rt, mode, 0, 0, false)?;
    write_word(rt, mode, 0, 0, true)?;
    for k in 0..parities {
        write_word(rt, mode, 1 << k, 0, false)?;
    }
    for k in 0..commands {
        write_word(rt, mode, 0, 1 << k, false)?;
    }
    write_word(rt, mode, (1 << parities) - 1, (1 << given) - 1, true)?;
    write_generated(rt, mode, parities, given)
}

// An FEC word has no room for a command, nor one of the stand-alone command channel for a parity: whatever is given, 0 is read.
pub(crate) fn write_words(rt: &impl Print) -> io::Result<()> {
    write_mode(rt, 0, 12, 7, 7)?;
    write_mode(rt, 1, 26, 0, 7)?;
    write_mode(rt, 4, 12, 7, 7)?;
    write_mode(rt, 5, 0, 19, 19)
}

// The command of a word of zeros in which the header at one position is 00; position 0 is the highest bit.
fn write_invalid_header(rt: &impl Print, mode: u8, position: u32) -> io::Result<()>
    requires { position < 32 }
{
    let kind = modes::row_of(mode).sync;
    let digits = digits_of(kind);
    let headers = Headers {
        first: !(0x8000_0000 >> position),
        second: 0,
    };
    let command = sync::command(kind, headers);
    println!(rt; "command invalid {mode} {position} -> {command:0digits$X}")
}

pub(crate) fn write_invalid_headers(rt: &impl Print) -> io::Result<()> {
    for mode in [0, 4, 5] {
        for position in 0..32u32 {
            write_invalid_header(rt, mode, position)?;
        }
    }
    Ok(())
}
