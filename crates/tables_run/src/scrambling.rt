// Table 37, clause 7.2.4.2: four blocks scrambled one after the other.
use crate::text;
use std::io;

// Initial state 0x01: of the 58 bits sent before, only the earliest is 1.
const INITIAL: u64 = 0x200_0000_0000_0000;

// The data of each block, and what the standard prints in so many digits: seven octets of block 0.
const ROWS: [(u64, u64, usize); 4] = [
    (0x0001_0203_0405_0607, 0x80_0102_0305_0423, 14),
    (0x0809_0a0b_0c0d_0e0f, 0x0e43_80c2_0b50_81cd, 16),
    (0x1011_1213_1415_1617, 0x04e7_8392_5a3c_aa51, 16),
    (0x1819_1a1b_1c1d_1e1f, 0x054d_87d9_313d_1151, 16),
];

pub(crate) fn write_table(rt: &impl Print) -> io::Result<()> {
    let mut history = INITIAL;
    for (row, &(data, printed, shown)) in ROWS.iter().enumerate() {
        let block = scrambler::scramble(data, history);
        text::write_row(rt, "table 37 block", row, block, 16, printed, shown)?;
        history = scrambler::history_after(block);
    }
    Ok(())
}
