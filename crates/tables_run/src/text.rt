// Rows as text on standard output: numbers in hexadecimal, with a note where the standard prints another value.
use std::io;

// What the library computes, and what the standard prints where that is something else, in as many digits as it shows.
pub(crate) fn write_row(
    rt: &impl Print,
    label: &str,
    row: usize,
    value: u64,
    digits: usize,
    printed: u64,
    shown: usize,
) -> io::Result<()> {
    print!(rt; "{label} {row} {value:0digits$X}")?;
    if value != printed {
        print!(rt; " (the standard prints {printed:0shown$X}, a misprint)")?;
    }
    println!(rt)
}
