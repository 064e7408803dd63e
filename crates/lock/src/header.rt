// One header for header lock: clause 7.6.1; document 01, "Lock tables".
ghost use Rattle.std.specs.Prelude.{◌≡◌, true, false};
ghost use Rattle.lock.specs.HeaderTable.{header_hunting, header_locked, valid, header_row, header_step};
ghost use Rattle.lock.specs.Ranges.{header_in_range};

use crate::HeaderLock;
use frame::headers::Header;

pub(crate) fn hunting(offset: u32, run: u32) -> HeaderLock
    ensures { result ≡ header_hunting offset run }
{
    HeaderLock {
        locked: false,
        offset,
        run,
        bad: 0,
    }
}

fn locked(offset: u32, run: u32, bad: u32) -> HeaderLock
    ensures { result ≡ header_locked offset run bad }
{
    HeaderLock {
        locked: true,
        offset,
        run,
        bad,
    }
}

fn hunting_next(width: u32, lock: HeaderLock, valid: bool) -> HeaderLock
    requires { header_in_range width lock ≡ true }
    ensures { result ≡ header_row false valid width lock }
{
    if valid {
        let run = lock.run + 1;
        if run != 64 {
            return hunting(lock.offset, run);
        }
        return locked(lock.offset, 0, 0);
    }
    hunting((lock.offset + 1) % width, 0)
}

fn locked_next(width: u32, lock: HeaderLock, valid: bool) -> HeaderLock
    requires { header_in_range width lock ≡ true }
    ensures { result ≡ header_row true valid width lock }
{
    if valid {
        let run = lock.run + 1;
        if run == 64 {
            return locked(lock.offset, 0, 0);
        }
        return locked(lock.offset, run, lock.bad);
    }
    let bad = lock.bad + 1;
    if bad == 16 {
        return hunting(lock.offset, 0);
    }
    locked(lock.offset, 0, bad)
}

// The state after one more header.
#[tactic(auto, unfolding(crate::specs::HeaderTable::header_step))]
pub(crate) fn next(width: u32, lock: HeaderLock, header: Header) -> HeaderLock
    requires { header_in_range width lock ≡ true }
    ensures { result ≡ header_step width lock (valid header) }
{
    let valid = !header.is_invalid();
    if lock.locked {
        return locked_next(width, lock, valid);
    }
    hunting_next(width, lock, valid)
}
