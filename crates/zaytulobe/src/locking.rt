// The locks for callers in C. Clause 7.6; document 01, "Lock tables".
ghost use Rattle.std.specs.Prelude.{◌≡◌};
ghost use Rattle.lock.specs.Table.{fresh};
ghost use Rattle.zaytulobe.specs.Locks.{as_numbers};
ghost use Rattle.zaytulobe.specs.Locking.{answer_numbers, step_numbers};

use crate::locks::LockNumbers;
use answers::Refusal;
use frame::modes;
use lock::Lock;

// A refusal or 0, and the locks for the next step.
#[repr(C)]
#[derive(Clone, Copy)]
pub struct SteppedNumbers {
    pub refusal: u8,
    pub lock: LockNumbers,
}

// The locks' first state.
#[unsafe(no_mangle)]
pub extern "C" fn zaytulobe_fresh_lock() -> LockNumbers
    ensures { result ≡ as_numbers fresh }
{
    LockNumbers::from(Lock::fresh())
}

// The step from the state that numbers stand for; refused by 3 too where the bool or the phase is none.
#[tactic(auto, unfolding(crate::specs::Locking::step_numbers, crate::specs::Locks::read, bits::specs::Refusals::refusal_by))]
fn step(mode: u8, e: u32, lock: LockNumbers, header: u8) -> Result<Lock, Refusal>
    ensures { answer_numbers lock result ≡ step_numbers mode e lock header }
{
    if !modes::known(mode) {
        return Err(Refusal::Mode);
    }
    if !modes::extent_fits(e) {
        return Err(Refusal::Extent);
    }
    let given = Lock::try_from(lock)?;
    lock::step(mode, e, given, header)
}

// Both locks after one more header.
#[unsafe(no_mangle)]
pub extern "C" fn zaytulobe_lock_step(
    mode: u8,
    e: u32,
    lock: LockNumbers,
    header: u8,
) -> SteppedNumbers
    ensures { result ≡ step_numbers mode e lock header }
{
    match step(mode, e, lock, header) {
        Ok(next) => SteppedNumbers {
            refusal: 0,
            lock: LockNumbers::from(next),
        },
        Err(why) => SteppedNumbers {
            refusal: why.number(),
            lock,
        },
    }
}
