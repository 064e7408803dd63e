// Fill bits, which stand between the data octets of blocks with gaps: clause 7.2.5, Table 38; request 2.
#![tactic(auto)]

ghost use Rattle.std.specs.Prelude.{◌≡◌, ◌+◌, ◌/◌, ◌%◌, ◌<◌, get_or};
ghost use Rattle.fill.specs.Register.{register_after, shifts};
ghost use Rattle.fill.specs.Table38.{never, at, filled, table38, pairs_of, packed};

// The register for the next block: 17 bits at once. A new bit is 1 plus the bits 17 and 14 before it; the last three of the 17 stand on the first
// three.
pub fn next_register(register: u32) -> u32
    ensures { result ≡ register_after register shifts }
{
    let own = (register ^ (register << 3) ^ 0x1_ffff) & 0x1_ffff;
    own ^ (own >> 14)
}

// Where the pair stands that is replaced, by PRBS[1:0]: F1, F2, F4 or F5. Its row of Table 38 says when.
fn place_of(chosen: u32) -> u32
    ensures { chosen < 4 → get_or table38 (result / 2) (filled 0 0 never) ≡ filled (result + 4) (result + 3) (at (chosen / 2) (chosen % 2)) }
{
    match chosen {
        0 => 2,
        1 => 4,
        2 => 8,
        _ => 10,
    }
}

// The seven pairs of the block that takes a register, F0 the lowest.
pub fn pairs(register: u32) -> u32
    ensures { result ≡ packed (pairs_of register) }
{
    let own = (register >> 3) & 0x3fff;
    let other = 2 - (register >> 2) % 2;
    let low = place_of(register % 4);
    let old = (own >> low) % 4;
    own ^ ((old ^ other) << low)
}
