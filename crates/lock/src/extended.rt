// One header for extended lock: clause 7.6.2; document 01, "Lock tables"; request 4.
ghost use Rattle.std.specs.Prelude.{◌≡◌, true, false, eqb};
ghost use Rattle.lock.specs.ExtendedTable.{counted, hunting, following, locked, ran_on, extended_row, moved, extended_step};
ghost use Rattle.lock.specs.Ranges.{phase_in_range, extended_in_range};
ghost use Rattle.lock.specs.declared.Phase.TheVariants.{Hunting, Following, Locked};

use crate::latest::{is_match, with_header};
use crate::{ExtendedLock, Phase};
use frame::headers::Header;

// The same headers, with a phase and what it counts.
fn counted(
    lock: ExtendedLock,
    phase: Phase,
    good: u32,
    bad: u32,
    next: u32,
    kept: u32,
) -> ExtendedLock
    ensures { result ≡ counted lock phase good bad next kept }
{
    ExtendedLock {
        phase,
        good,
        bad,
        next,
        kept,
        ..lock
    }
}

fn hunting(lock: ExtendedLock) -> ExtendedLock
    ensures { result ≡ hunting lock }
{
    counted(lock, Phase::Hunting, 0, 0, 0, 0)
}

fn following(lock: ExtendedLock, good: u32, next: u32, kept: u32) -> ExtendedLock
    ensures { result ≡ following lock good next kept }
{
    counted(lock, Phase::Following, good, 0, next, kept)
}

fn locked(lock: ExtendedLock, bad: u32, next: u32) -> ExtendedLock
    ensures { result ≡ locked lock bad next }
{
    counted(lock, Phase::Locked, 0, bad, next, 0)
}

// The kept phase's count, a header later.
fn ran_on(period: u32, kept: u32) -> u32
    ensures { result ≡ ran_on period kept }
{
    if kept == 0 {
        return 0;
    }
    if kept == 1 {
        return period;
    }
    kept - 1
}

fn hunting_next(period: u32, lock: ExtendedLock, matched: bool) -> ExtendedLock
    ensures { result ≡ extended_row Hunting (eqb lock.next 1) matched period lock }
{
    if matched {
        return following(lock, 1, period, 0);
    }
    hunting(lock)
}

// Following, at a block where the followed phase isn't looked at.
fn between_looks(period: u32, lock: ExtendedLock, matched: bool) -> ExtendedLock
    requires { phase_in_range Following period lock ≡ true }
    ensures { result ≡ extended_row Following false matched period lock }
{
    let next = lock.next - 1;
    if matched && lock.kept == 0 {
        return following(lock, lock.good, next, period);
    }
    let kept = ran_on(period, lock.kept);
    following(lock, lock.good, next, kept)
}

// Following, at a look.
fn at_look(period: u32, lock: ExtendedLock, matched: bool) -> ExtendedLock
    requires { phase_in_range Following period lock ≡ true }
    ensures { result ≡ extended_row Following true matched period lock }
{
    let kept = ran_on(period, lock.kept);
    if !matched {
        if lock.kept == 0 {
            return hunting(lock);
        }
        return following(lock, 1, kept, 0);
    }
    let good = lock.good + 1;
    if good == 4 {
        return locked(lock, 0, period);
    }
    following(lock, good, period, kept)
}

fn following_next(period: u32, lock: ExtendedLock, look: bool, matched: bool) -> ExtendedLock
    requires { phase_in_range Following period lock ≡ true }
    ensures { result ≡ extended_row Following look matched period lock }
{
    if look {
        return at_look(period, lock, matched);
    }
    between_looks(period, lock, matched)
}

fn locked_next(period: u32, lock: ExtendedLock, look: bool, matched: bool) -> ExtendedLock
    requires { phase_in_range Locked period lock ≡ true }
    ensures { result ≡ extended_row Locked look matched period lock }
{
    if !look {
        return locked(lock, lock.bad, lock.next - 1);
    }
    if matched {
        return locked(lock, 0, period);
    }
    let bad = lock.bad + 1;
    if bad == 8 {
        return hunting(lock);
    }
    locked(lock, bad, period)
}

#[tactic(auto, unfolding(crate::specs::ExtendedTable::moved))]
fn moved(period: u32, lock: ExtendedLock, matched: bool) -> ExtendedLock
    requires { phase_in_range lock.phase period lock ≡ true }
    ensures { result ≡ moved period lock matched }
{
    let look = lock.next == 1;
    match lock.phase {
        Phase::Hunting => hunting_next(period, lock, matched),
        Phase::Following => following_next(period, lock, look, matched),
        Phase::Locked => locked_next(period, lock, look, matched),
    }
}

// The state after one more header.
#[tactic(auto, unfolding(crate::specs::ExtendedTable::extended_step))]
pub(crate) fn next(period: u32, lock: ExtendedLock, header: Header) -> ExtendedLock
    requires { extended_in_range period lock ≡ true }
    ensures { result ≡ extended_step period lock header }
{
    let lock = with_header(lock, header);
    let matched = is_match(lock);
    moved(period, lock, matched)
}
