// Octets read until there is room for no more, or until the input ends. The programs that read captures stand on it.
#![tactic(auto)]

ghost use Rattle.std.specs.Prelude.{ℕ, ◌<◌, ◌≤◌, IfOk, OnErr, length, take};
ghost use Rattle.std.specs.Io.KnownBytes.{Consumes, IsAtEnd};

use std::io;
use std::io::Read;

// How many octets it put at the start of `octets`: fewer than there is room for only at the input's end. Where a read fails, those read before it
// stand there, and no other is gone from the input.
pub fn read_full<R: Read>(input: &mut R, octets: &mut [u8]) -> io::Result<usize>
    ensures bound { IfOk result (λ n. n ≤ length octets.new) }
    ensures read { IfOk result (λ n. Consumes (R.remaining input.old) (R.remaining input.new) (take n octets.new)) }
    ensures end { IfOk result (λ n. n < length octets.new → IsAtEnd (R.remaining input.new)) }
    ensures failed { OnErr result ((n : ℕ) × (n ≤ length octets.new) × Consumes (R.remaining input.old) (R.remaining input.new) (take n octets.new)) }
{
    let mut done = 0;
    while done < octets.len() {
        let got = input.read(&mut octets[done..])?;
        if got == 0 {
            return Ok(done);
        }
        done += got;
    }
    Ok(done)
}
