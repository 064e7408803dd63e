// The last 32 headers, and whether they match: clause 7.6.2; document 01, "Lock tables".
ghost use Rattle.std.specs.Prelude.{◌≡◌};
ghost use Rattle.lock.specs.ExtendedTable.{with_header, matches};

use crate::ExtendedLock;
use frame::headers::Header;

// The oldest of 32 headers goes where one comes.
pub(crate) fn with_header(lock: ExtendedLock, header: Header) -> ExtendedLock
    ensures { result ≡ with_header lock header }
{
    let bit = header.carries();
    ExtendedLock {
        seen: lock.seen.min(31) + 1,
        headers: lock.headers % 0x8000_0000 * 2 + bit,
        ..lock
    }
}

// The end mark stands at position 22, so nine headers came after it.
#[tactic(auto, using(bits::proofs::Numbers::digit_at), unfolding(crate::specs::ExtendedTable::matches))]
pub(crate) fn is_match(lock: ExtendedLock) -> bool
    ensures { result ≡ matches lock }
{
    32 <= lock.seen && lock.headers / 512 % 2 == 1 && lock.headers % 32 == 1
}
