// Tables of the standard row by row, sync words and headers, as the library computes them. The second program prints the same lines.
#![tactic(auto)]

mod headers;
mod parities;
mod scrambling;
mod text;
mod words;

use std::io;

fn main(rt: HostRuntime) -> io::Result<()> {
    scrambling::write_table(&rt)?;
    parities::write_crc12_blocks(&rt)?;
    parities::write_crc3_blocks(&rt)?;
    parities::write_fec_blocks(&rt)?;
    parities::write_fec_multiblocks(&rt)?;
    words::write_words(&rt)?;
    words::write_invalid_headers(&rt)?;
    headers::write_values(&rt)?;
    headers::write_words(&rt)
}
