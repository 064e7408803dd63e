// Which states are accepted: document 01, "Numbers of refusal", line 3; request 4.
ghost use Rattle.std.specs.Prelude.{◌≡◌};
ghost use Rattle.lock.specs.Ranges.{header_in_range, headers_in_range, phase_in_range, extended_in_range, accepted};

use crate::{ExtendedLock, HeaderLock, Lock, Phase};

#[tactic(auto, unfolding(crate::specs::Ranges::header_in_range))]
fn header_in_range(width: u32, lock: HeaderLock) -> bool
    ensures { result ≡ header_in_range width lock }
{
    lock.run <= 63 && lock.bad <= 15 && lock.offset < width && (lock.locked || lock.bad == 0)
}

#[tactic(auto, unfolding(crate::specs::Ranges::headers_in_range))]
fn headers_in_range(lock: ExtendedLock) -> bool
    ensures { result ≡ headers_in_range lock }
{
    lock.seen <= 32 && u64::from(lock.headers) >> lock.seen == 0
}

fn phase_in_range(period: u32, lock: ExtendedLock) -> bool
    ensures { result ≡ phase_in_range lock.phase period lock }
{
    let next_fits = (1..=period).contains(&lock.next);
    match lock.phase {
        Phase::Hunting => lock.good == 0 && lock.bad == 0 && lock.next == 0 && lock.kept == 0,
        Phase::Following => {
            (1..=3).contains(&lock.good)
                && lock.bad == 0
                && next_fits
                && lock.kept <= period
                && lock.kept != lock.next
        }
        Phase::Locked => lock.good == 0 && lock.bad <= 7 && next_fits && lock.kept == 0,
    }
}

#[tactic(auto, unfolding(crate::specs::Ranges::extended_in_range))]
fn extended_in_range(period: u32, lock: ExtendedLock) -> bool
    ensures { result ≡ extended_in_range period lock }
{
    headers_in_range(lock) && phase_in_range(period, lock)
}

#[tactic(auto, unfolding(crate::specs::Ranges::accepted))]
pub(crate) fn is_accepted(width: u32, period: u32, lock: Lock) -> bool
    ensures { result ≡ accepted width period lock }
{
    let header = lock.header;
    let extended = lock.extended;
    header_in_range(width, header)
        && extended_in_range(period, extended)
        && (header.locked || extended == ExtendedLock::fresh())
}
