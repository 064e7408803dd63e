// The two locks of a receiver: on headers, and on extended multiblocks. Clause 7.6; document 01, "Lock tables".
#![tactic(auto)]

ghost use Rattle.std.specs.Prelude.{◌≡◌, true, Result};
ghost use Rattle.answers.specs.declared.Refusal.{Refusal};
ghost use Rattle.answers.specs.Numbers.{refused};
ghost use Rattle.bits.specs.Refusals.{refusal_by};
ghost use Rattle.lock.specs.ExtendedTable.{fresh_extended};
ghost use Rattle.lock.specs.Table.{fresh, extended_after, lock_step};
ghost use Rattle.lock.specs.Ranges.{extended_in_range, accepted};
ghost use Rattle.lock.specs.Refusals.{width_of, refusals, step_answer, stepped};
ghost use Rattle.lock.specs.declared.Lock.{Lock};

use answers::Refusal;
use frame::headers;
use frame::headers::Header;
use frame::modes::{extent_fits, known, numbers_of, row_of};
use range::is_accepted;

mod extended;
mod header;
mod latest;
mod range;

// A run of valid headers, and a count of bad ones while locked.
#[derive(Clone, Copy, Debug, PartialEq, Eq)]
pub struct HeaderLock {
    pub locked: bool,
    pub offset: u32,
    pub run: u32,
    pub bad: u32,
}

#[derive(Clone, Copy, Debug, PartialEq, Eq)]
pub enum Phase {
    Hunting,
    Following,
    Locked,
}

// The last 32 sync bits, the latest in bit 0, with how many were seen: a missing one is 0.
// Good counts while following, bad while locked, and next is the number of blocks to the next look. Kept is the number of blocks to where
// a match that came while another is followed would be looked at next, 0 for none.
#[derive(Clone, Copy, Debug, PartialEq, Eq)]
pub struct ExtendedLock {
    pub phase: Phase,
    pub seen: u32,
    pub headers: u32,
    pub good: u32,
    pub bad: u32,
    pub next: u32,
    pub kept: u32,
}

#[derive(Clone, Copy, Debug, PartialEq, Eq)]
pub struct Lock {
    pub header: HeaderLock,
    pub extended: ExtendedLock,
}

impl ExtendedLock {
    pub(crate) fn fresh() -> ExtendedLock
        ensures { result ≡ fresh_extended }
    {
        ExtendedLock {
            phase: Phase::Hunting,
            seen: 0,
            headers: 0,
            good: 0,
            bad: 0,
            next: 0,
            kept: 0,
        }
    }
}

impl Lock {
    pub fn fresh() -> Lock
        ensures { result ≡ fresh }
    {
        Lock {
            header: header::hunting(0, 0),
            extended: ExtendedLock::fresh(),
        }
    }
}

// Extended lock, by whether header lock was held before a header and is held after it.
fn extended_after(
    was: bool,
    held: bool,
    period: u32,
    lock: ExtendedLock,
    header: Header,
) -> ExtendedLock
    requires { extended_in_range period lock ≡ true }
    ensures { result ≡ extended_after was held period lock header }
{
    if !was {
        return lock;
    }
    if held {
        return extended::next(period, lock, header);
    }
    ExtendedLock::fresh()
}

#[tactic(auto, unfolding(crate::specs::Table::lock_step))]
fn lock_next(width: u32, period: u32, lock: Lock, header: Header) -> Lock
    requires { accepted width period lock ≡ true }
    ensures { result ≡ lock_step width period lock header }
{
    let before = lock.header;
    let after = header::next(width, before, header);
    let extended = extended_after(before.locked, after.locked, period, lock.extended, header);
    Lock {
        header: after,
        extended,
    }
}

// The bits of a block in a mode.
fn width_of(mode: u8) -> u32
    ensures { result ≡ width_of mode }
{
    numbers_of(row_of(mode)).width
}

// What a step is refused for: the lowest number is found first.
#[tactic(auto, unfolding(bits::specs::Refusals::refusal_by))]
fn check(mode: u8, e: u32, lock: Lock, header: u8) -> Result<(), Refusal>
    ensures { refused result ≡ refusal_by (refusals mode e lock header) }
{
    if !known(mode) {
        return Err(Refusal::Mode);
    }
    if !extent_fits(e) {
        return Err(Refusal::Extent);
    }
    if !is_accepted(width_of(mode), 32 * e, lock) {
        return Err(Refusal::State);
    }
    if header > 3 {
        return Err(Refusal::Header);
    }
    Ok(())
}

// Both locks after one more header.
#[tactic(auto, unfolding(crate::specs::Refusals::stepped))]
pub fn step(mode: u8, e: u32, lock: Lock, header: u8) -> Result<Lock, Refusal>
    ensures { step_answer lock result ≡ stepped mode e lock header }
{
    check(mode, e, lock, header)?;
    let width = width_of(mode);
    let header = headers::read(header);
    Ok(lock_next(width, 32 * e, lock, header))
}

// No two answers of a step are the same in numbers.
#[tactic(auto, using(crate::proofs::OneAnswer::stepped_one))]
fn apart()
    ensures { (lock : Lock) (a b : Result Lock Refusal) → step_answer lock a ≡ step_answer lock b → a ≡ b }
{}
