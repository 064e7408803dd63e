// The listings of named captures on standard input. Each name and each capture is a section after its count in four octets, highest first.
// The second program's `listings` prints the same: the name with a colon, and what lanelist prints.
#![tactic(auto)]

ghost use Rattle.std.specs.Prelude.{◌≤◌, length};

use std::io;
use std::io::Read;

// Captures that are too long are read whole too.
const ROOM: usize = 2 * capture::LONGEST;

// The count of the next section, or 0 at the end.
fn read_count(input: &mut impl Read) -> io::Result<usize> {
    let mut head = [0u8; 4];
    input::read_full(input, &mut head)?;
    Ok((bits::word_at(&head, 0) >> 32) as usize)
}

// That many octets, to the start of `octets`.
fn read_octets(input: &mut impl Read, count: usize, octets: &mut [u8]) -> io::Result<()>
    requires { count ≤ length octets.old }
    ensures { count ≤ length octets.new }
{
    input::read_full(input, &mut octets[..count])?;
    Ok(())
}

fn write_listing(rt: &impl Print, octets: &[u8]) -> io::Result<()> {
    let mut text = [0u8; capture::TEXT];
    match capture::listing(octets, &mut text) {
        Ok(count) => rt.write_all(&text[..count]),
        Err(why) => println!(rt; "{why}"),
    }
}

// Whether there was a name.
fn run_name(rt: &impl Print, input: &mut impl Read) -> io::Result<bool> {
    let mut name = [0u8; 64];
    let count = read_count(input)?;
    if count == 0 || count > 64 {
        return Ok(false);
    }
    read_octets(input, count, &mut name)?;
    rt.write_all(&name[..count])?;
    rt.write_all(b":\n")?;
    Ok(true)
}

fn run_capture(rt: &impl Print, input: &mut impl Read) -> io::Result<()> {
    let mut octets = [0u8; ROOM];
    let count = read_count(input)?;
    if count > ROOM {
        return Ok(());
    }
    read_octets(input, count, &mut octets)?;
    write_listing(rt, &octets[..count])
}

// No more than 1,000 captures. All have names.
fn main(rt: HostRuntime) -> io::Result<()> {
    let mut input = rt.stdin();
    for _ in 0..1000u64 {
        if !run_name(&rt, &mut input)? {
            return Ok(());
        }
        run_capture(&rt, &mut input)?;
    }
    Ok(())
}
