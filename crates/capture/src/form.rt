// The form of a capture: document 01, "Capture and listing"; request 2. Two sections, each after its count in four octets, highest first.
ghost use Rattle.std.specs.Prelude.{◌≡◌, Bool, ◌*◌, ◌≤◌};
ghost use Rattle.answers.specs.Numbers.{refused};
ghost use Rattle.bits.specs.Order.{bit_at, number};
ghost use Rattle.bits.specs.Refusals.{refusal_by};
ghost use Rattle.frame.specs.Modes.{longest_lane};
ghost use Rattle.capture.specs.Form.{mode_of, limited_by, longest_of, well_formed, extent_of, refusals_by, opened_as, opened_by};

use answers::Refusal;
use frame::modes;

// The mode, E, and the lane octets.
#[derive(Clone, Copy)]
pub(crate) struct Opened<'a> {
    pub mode: u8,
    pub e: u32,
    pub lane: &'a [u8],
}

// The count of a section, which stands before it.
fn count_at(capture: &[u8], at: usize) -> u64
    ensures { result ≡ number (bit_at capture.now) (8 * at) 32 }
{
    bits::word_at(capture, at) >> 32
}

// The mode by which the length of a capture is limited: an unknown one has mode 0's.
fn limited_by(mode: u8) -> u8
    ensures { result ≡ limited_by mode }
{
    if modes::known(mode) { mode } else { 0 }
}

// The most lane octets of a capture.
fn longest_of(mode: u8) -> usize
    ensures { (result ≡ longest_of mode) × (result ≤ longest_lane) }
{
    let row = modes::row_of(limited_by(mode));
    modes::numbers_of(row).octets * row.most
}

fn mode_of(capture: &[u8]) -> u8
    ensures { result ≡ mode_of capture.now }
{
    bits::octet_at(capture, 4)
}

// Whether both counts are right, with nothing after, and the whole is not too long.
fn well_formed(capture: &[u8]) -> bool
    ensures { result ≡ well_formed capture.now }
{
    let long = capture.len();
    11 <= long
        && long <= 11 + longest_of(mode_of(capture))
        && count_at(capture, 0) == 3
        && count_at(capture, 7) == (long - 11) as u64
}

// E, in two octets, the higher first.
fn extent_of(capture: &[u8]) -> u32
    ensures { result ≡ extent_of capture.now }
{
    let octets = [bits::octet_at(capture, 5), bits::octet_at(capture, 6)];
    u32::from(u16::from_be_bytes(octets))
}

// 8, then the table's order: the lowest number that applies. Which modes are taken the caller says.
fn check(capture: &[u8], taken: bool) -> Result<(), Refusal>
    ensures { refused result ≡ refusal_by (refusals_by (λ _. taken) capture.now) }
{
    if !well_formed(capture) {
        return Err(Refusal::Capture);
    }
    if !taken {
        return Err(Refusal::Mode);
    }
    if !modes::extent_fits(extent_of(capture)) {
        return Err(Refusal::Extent);
    }
    let numbers = modes::numbers_of(modes::row_of(mode_of(capture)));
    if (capture.len() - 11) % numbers.octets != 0 {
        return Err(Refusal::Length);
    }
    Ok(())
}

// The sections of a capture whose mode is taken.
pub(crate) fn open<'a, F: Fn(u8) -> bool>(
    capture: &'a [u8],
    takes: F,
) -> Result<Opened<'a>, Refusal>
    requires { F.IsAlwaysCallable takes }
    ensures { (taken : Bool) × F.post takes (mode_of capture.now) taken × (opened_as result ≡ opened_by (λ _. taken) capture.now) }
{
    let mode = mode_of(capture);
    check(capture, takes(mode))?;
    Ok(Opened {
        mode,
        e: extent_of(capture),
        lane: &capture[11..],
    })
}
