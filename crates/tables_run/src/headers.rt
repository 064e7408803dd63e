// Headers by their values, numbers that no header has among them; and the 32 headers of two words, with one asked for past the last block.
// Clause 7.3.2; request 1.
use frame::headers;
use frame::headers::{Header, Headers};
use std::io;

const VALUES: [u8; 6] = [0, 1, 2, 3, 4, 255];

const WORDS: [(u32, u32); 8] = [
    (0, 0),
    (0xFFFF_FFFF, 0xFFFF_FFFF),
    (0, 0xFFFF_FFFF),
    (0xFFFF_FFFF, 0),
    (0x8000_0001, 0x7FFF_FFFE),
    (0x0001_0000, 0x0003_0000),
    (0xAAAA_AAAA, 0x6666_6666),
    (0x1234_5678, 0x9ABC_DEF0),
];

fn write_value(rt: &impl Print, value: u8) -> io::Result<()> {
    match headers::read(value) {
        Header::One => println!(rt; "header {value} -> one"),
        Header::Zero => println!(rt; "header {value} -> zero"),
        Header::Invalid(pair) => println!(rt; "header {value} -> invalid {pair}"),
    }
}

// 1 and 0; of an invalid header l where its bits are low, and h where they are high.
fn letter(header: Header) -> char {
    match header {
        Header::One => '1',
        Header::Zero => '0',
        Header::Invalid(0) => 'l',
        Header::Invalid(_) => 'h',
    }
}

// All 32, the one past them, and how many are invalid.
fn write_headers(rt: &impl Print, headers: Headers) -> io::Result<()> {
    print!(rt; "headers {:08X} {:08X} -> ", headers.first, headers.second)?;
    for block in 0..32u32 {
        print!(rt; "{}", letter(headers.at(block)))?;
    }
    let past = letter(headers.at(32));
    println!(rt; " {past} invalid {}", headers.invalid_count())
}

pub(crate) fn write_values(rt: &impl Print) -> io::Result<()> {
    for &value in VALUES.iter() {
        write_value(rt, value)?;
    }
    Ok(())
}

pub(crate) fn write_words(rt: &impl Print) -> io::Result<()> {
    for &(first, second) in WORDS.iter() {
        write_headers(rt, Headers { first, second })?;
    }
    Ok(())
}
