// Tables 52 to 55, clauses 7.4.2, 7.4.3 and 7.5.2: the parities of four blocks and of three multiblocks.
ghost use Rattle.std.specs.Prelude.{◌≡◌, ◌≤◌, length};

use crate::text;
use frame::modes::Sync;
use frame::sync;
use parity::{Crc3, Crc12, Fec};
use std::io;

// A multiblock that ends with blocks 0 to `row` of source data: zeros in front change no remainder, so its parity is that of the blocks alone. Blocks
// past its end are not laid.
fn multiblock(row: usize) -> [u8; 256]
    requires { row ≤ 3 }
    ensures { length result ≡ 256 }
{
    let mut octets = [0u8; 256];
    let first = 248 - 8 * row;
    bits::put_word(&mut octets, first, 0x8001_0203_0505_0423);
    bits::put_word(&mut octets, first + 8, 0x0e43_80c2_0b50_81cd);
    bits::put_word(&mut octets, first + 16, 0x04e7_8392_5a3c_aa51);
    bits::put_word(&mut octets, first + 24, 0x054d_87d9_313d_1151);
    octets
}

// The parities of a table's four rows, beside what it prints.
fn write_blocks<F: Fn(&[u8]) -> u32>(
    rt: &impl Print,
    label: &str,
    digits: usize,
    rows: [u64; 4],
    parity_of: F,
) -> io::Result<()>
    requires { F.IsAlwaysCallable parity_of }
{
    for (row, &printed) in rows.iter().enumerate() {
        let value = u64::from(parity_of(&multiblock(row)));
        text::write_row(rt, label, row, value, digits, printed, digits)?;
    }
    Ok(())
}

pub(crate) fn write_crc12_blocks(rt: &impl Print) -> io::Result<()> {
    let rows = [0xD00, 0x11C, 0xFE4, 0x5FE];
    write_blocks(rt, "table 52 block", 3, rows, |octets| Crc12::of(octets))
}

// Of the parities of a multiblock's four groups that of the last, which has the blocks; it goes with the next sync word (request 5).
pub(crate) fn write_crc3_blocks(rt: &impl Print) -> io::Result<()> {
    let rows = [0b011, 0b111, 0b010, 0b001];
    write_blocks(rt, "table 53 block", 1, rows, |octets| {
        sync::split(Sync::Crc3, Crc3::of(octets)).before
    })
}

pub(crate) fn write_fec_blocks(rt: &impl Print) -> io::Result<()> {
    let rows = [0x22A43C3, 0x05DFF66, 0x07171AB, 0x01957FD];
    write_blocks(rt, "table 54 block", 7, rows, |octets| Fec::of(octets))
}

fn write_fec_multiblock(
    rt: &impl Print,
    row: usize,
    octets: &[u8],
    printed: u64,
) -> io::Result<()> {
    let value = u64::from(Fec::of(octets));
    text::write_row(rt, "table 55 multiblock", row, value, 7, printed, 7)
}

// The first bit alone, every bit, the last bit alone.
pub(crate) fn write_fec_multiblocks(rt: &impl Print) -> io::Result<()> {
    let mut octets = [0u8; 256];
    octets[0] = 0x80;
    write_fec_multiblock(rt, 0, &octets, 0x235011A)?;
    write_fec_multiblock(rt, 1, &[255u8; 256], 0x3C7FFE3)?;
    octets[0] = 0;
    octets[255] = 1;
    write_fec_multiblock(rt, 2, &octets, 0x0220211)
}
