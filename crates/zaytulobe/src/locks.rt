// The locks' state as numbers, for callers in C, who may hand any number where a bool or a phase is meant: the state that numbers stand for, if
// they fit, and the numbers of a state. Clause 7.6; document 01, "Lock tables" and "Numbers of refusal".
ghost use Rattle.std.specs.Prelude.{◌≡◌, Ok, Err, leb};
ghost use Rattle.answers.specs.declared.Refusal.TheVariants.{State};
ghost use Rattle.bits.specs.Choice.{pick};
ghost use Rattle.zaytulobe.specs.Locks.{phase_of, phase_number, read, as_numbers};

use crate::bools::bool_of;
use answers::Refusal;
use lock::{ExtendedLock, HeaderLock, Lock, Phase};

// Header lock as numbers: `locked` is 0 or 1.
#[repr(C)]
#[derive(Clone, Copy)]
pub struct HeaderNumbers {
    pub locked: u32,
    pub offset: u32,
    pub run: u32,
    pub bad: u32,
}

// Extended lock as numbers: `phase` is 0 hunting, 1 following, 2 locked.
#[repr(C)]
#[derive(Clone, Copy)]
pub struct ExtendedNumbers {
    pub phase: u32,
    pub seen: u32,
    pub headers: u32,
    pub good: u32,
    pub bad: u32,
    pub next: u32,
    pub kept: u32,
}

// Both locks as numbers.
#[repr(C)]
#[derive(Clone, Copy)]
pub struct LockNumbers {
    pub header: HeaderNumbers,
    pub extended: ExtendedNumbers,
}

// The phase that a number stands for, refused where it is none.
#[tactic(auto, unfolding(crate::specs::Locks::phase_of))]
fn phase_of(number: u32) -> Result<Phase, Refusal>
    ensures { result ≡ pick (leb number 2) (Ok (phase_of number)) (Err State) }
{
    match number {
        0 => Ok(Phase::Hunting),
        1 => Ok(Phase::Following),
        2 => Ok(Phase::Locked),
        _ => Err(Refusal::State),
    }
}

fn phase_number(phase: Phase) -> u32
    ensures { result ≡ phase_number phase }
{
    match phase {
        Phase::Hunting => 0,
        Phase::Following => 1,
        Phase::Locked => 2,
    }
}

// The state that numbers stand for, if they fit.
impl TryFrom<LockNumbers> for Lock {
    type Error = Refusal;

    ghost try_from_gives = { λ given result. result ≡ read given };

    #[tactic(auto, unfolding(crate::specs::Locks::read, crate::specs::Locks::fit, crate::specs::Locks::state_of))]
    fn try_from(given: LockNumbers) -> Result<Lock, Refusal> {
        let header = given.header;
        let extended = given.extended;
        Ok(Lock {
            header: HeaderLock {
                locked: bool_of(header.locked)?,
                offset: header.offset,
                run: header.run,
                bad: header.bad,
            },
            extended: ExtendedLock {
                phase: phase_of(extended.phase)?,
                seen: extended.seen,
                headers: extended.headers,
                good: extended.good,
                bad: extended.bad,
                next: extended.next,
                kept: extended.kept,
            },
        })
    }
}

// The numbers of a state.
impl From<Lock> for LockNumbers {
    ghost from_gives = { λ lock numbers. numbers ≡ as_numbers lock };

    #[tactic(auto, unfolding(crate::specs::Locks::as_numbers))]
    fn from(lock: Lock) -> LockNumbers {
        let header = lock.header;
        let state = lock.extended;
        LockNumbers {
            header: HeaderNumbers {
                locked: u32::from(header.locked),
                offset: header.offset,
                run: header.run,
                bad: header.bad,
            },
            extended: ExtendedNumbers {
                phase: phase_number(state.phase),
                seen: state.seen,
                headers: state.headers,
                good: state.good,
                bad: state.bad,
                next: state.next,
                kept: state.kept,
            },
        }
    }
}
