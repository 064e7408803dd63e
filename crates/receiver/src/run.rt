// Multiblocks received one after another, each releasing the one before it: document 01, "What the receiver releases".
ghost use Rattle.std.specs.Prelude.{◌≡◌, true, Ok, ◌*◌, ◌<◌, ◌≤◌, length};
ghost use Rattle.answers.specs.Numbers.{answered};
ghost use Rattle.bits.specs.Order.{bit_at};
ghost use Rattle.frame.specs.Modes.{most_of_all};
ghost use Rattle.receiver.specs.Release.{release_at, step, run};
ghost use Rattle.receiver.specs.Totals.{totalled};
ghost use Rattle.receiver.specs.Entry.{done, laid_out};
ghost use Rattle.receiver.specs.inner.Turn.{heard_at, begun_by, counts_after, Turned, Room};

use crate::Receiver;
use answers::Ran;
use frame::sync;
use frame::sync::Parts;
use judge::Verdict;
use multiblock::Layout;

// What a multiblock tells: its data octets as they came, what it carries of the parity of the one before it and of its own, its command, and
// how many of its headers were invalid.
#[derive(Clone, Copy)]
pub(crate) struct Heard {
    octets: [u8; 256],
    parts: Parts,
    command: u32,
    invalid: u8,
}

fn hear(layout: Layout, lane: &[u8]) -> Heard
    requires { layout.size ≤ length lane.now }
    ensures { result ≡ heard_at layout.row (bit_at lane.now) 0 }
{
    let read = multiblock::read(layout.row.gap, lane);
    let octets = read.octets;
    let headers = read.headers;
    Heard {
        octets,
        parts: sync::parities(layout.row.sync, headers.carried()),
        command: sync::command(layout.row.sync, headers),
        invalid: headers.invalid_count(),
    }
}

// A state, and how many multiblocks of the lane were taken for it.
#[derive(Clone, Copy)]
pub(crate) struct Begun {
    pub(crate) state: Receiver,
    pub(crate) taken: usize,
}

// Where none waits, the first multiblock does, if there is one. Nothing came before it.
#[tactic(auto, unfolding(crate::specs::inner::Turn::begun_by, crate::specs::inner::Turn::heard_at, crate::specs::Release::waiting_at))]
pub(crate) fn begin(layout: Layout, state: Receiver, lane: &[u8]) -> Begun
    ensures value { result ≡ begun_by layout.row state lane.now }
    ensures taken_bound { (result.taken ≤ 1) × (layout.size * result.taken ≤ length lane.now) }
{
    if state.waiting || lane.len() < layout.size {
        return Begun { state, taken: 0 };
    }
    let first = hear(layout, lane);
    let octets = first.octets;
    let waiting = Receiver {
        waiting: true,
        octets,
        history: 0,
        trusted: false,
        command: first.command,
        invalid: first.invalid,
        own: first.parts.own,
        ..state
    };
    Begun {
        state: waiting,
        taken: 1,
    }
}

// How many were released sound, repaired and failed: request 7. Each count stops at the greatest number and stays there.
#[derive(Clone, Copy)]
struct Counts {
    sound: u32,
    repaired: u32,
    failed: u32,
}

impl Counts {
    // With one release more. Whether the history before it was trusted makes no difference.
    #[tactic(auto, using(crate::proofs::Totalled::one_more), unfolding(crate::specs::Totals::added, crate::specs::inner::Turn::counts_after))]
    fn with(self, verdict: Verdict) -> Counts
        ensures { result ≡ counts_after self verdict }
    {
        match verdict {
            Verdict::Agrees => Counts {
                sound: self.sound.saturating_add(1),
                ..self
            },
            Verdict::Repaired(_) => Counts {
                repaired: self.repaired.saturating_add(1),
                ..self
            },
            Verdict::Failed => Counts {
                failed: self.failed.saturating_add(1),
                ..self
            },
        }
    }
}

// What is told of a multiblock that is released, beside its octets.
#[derive(Clone, Copy)]
struct Told {
    status: u8,
    command: u32,
    place: u16,
    pattern: u16,
    invalid: u8,
}

// The next state, and what is told of the multiblock that was released on the way to it.
#[derive(Clone, Copy)]
struct Turn {
    state: Receiver,
    told: Told,
}

// The multiblock at the start of `lane` is received, and the one that waits is released and counted: its octets to the start of `octets`.
fn release(layout: Layout, state: Receiver, lane: &[u8], octets: &mut [u8]) -> Turn
    requires { (layout.size ≤ length lane.now) × (state.waiting ≡ true) × (256 ≤ length octets.old) }
    ensures { Turned (totalled (step layout.row (bit_at lane.now) 0 state)).state (release_at layout.row (bit_at lane.now) 0 state) result octets.old octets.new }
{
    let heard = hear(layout, lane);
    let parts = heard.parts;
    let received = Parts {
        before: parts.before,
        own: state.own,
    };
    let released = judge::release(
        layout.row.sync,
        state.octets,
        state.history,
        state.trusted,
        sync::whole(layout.row.sync, received),
        octets,
    );
    let verdict = released.verdict;
    let told = Told {
        status: released.status,
        command: state.command,
        place: verdict.place(),
        pattern: verdict.pattern(),
        invalid: state.invalid,
    };
    let counted = Counts {
        sound: state.sound,
        repaired: state.repaired,
        failed: state.failed,
    };
    let counts = counted.with(verdict);
    let next = heard.octets;
    let state = Receiver {
        waiting: true,
        octets: next,
        history: released.history,
        trusted: released.trusted,
        command: heard.command,
        invalid: heard.invalid,
        own: parts.own,
        sound: counts.sound,
        repaired: counts.repaired,
        failed: counts.failed,
    };
    Turn { state, told }
}

// The n multiblocks of `lane` are received, from a state with one waiting, if there are any. Each releases one: number k's octets to 256 times k,
// and what is told of it to k.
pub(crate) fn run(
    layout: Layout,
    start: Receiver,
    lane: &[u8],
    n: usize,
    octets: &mut [u8],
    statuses: &mut [u8],
    commands: &mut [u32],
    places: &mut [u16],
    patterns: &mut [u16],
    invalid: &mut [u8],
) -> Ran<Receiver>
    requires waiting_value { (0 < n → start.waiting ≡ true) × (layout.size * n ≤ length lane.now) × (n ≤ most_of_all) }
    requires room { Room n (length octets.old) (length statuses.old) (length commands.old) (length places.old) (length patterns.old) (length invalid.old) }
    ensures { done (answered start (Ok result)) octets.new statuses.new commands.new places.new patterns.new invalid.new
        ≡ laid_out (totalled (run layout.row (bit_at lane.now) start n))
        octets.old statuses.old commands.old places.old patterns.old invalid.old }
{
    let mut state = start;
    for k in 0..n {
        let at = layout.size * k;
        let turn = release(layout, state, &lane[at..], &mut octets[256 * k..]);
        let told = turn.told;
        statuses[k] = told.status;
        commands[k] = told.command;
        places[k] = told.place;
        patterns[k] = told.pattern;
        invalid[k] = told.invalid;
        state = turn.state;
    }
    Ran { count: n, state }
}
