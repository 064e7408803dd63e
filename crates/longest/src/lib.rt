// The longest run of multiblocks with status 0 or 1, handed back as that part of the caller's octets. Document 01, "What the receiver releases".
#![tactic(auto)]

ghost use Rattle.std.specs.Prelude.{◌≡◌, IfOk};
ghost use Rattle.answers.specs.Numbers.{refused};
ghost use Rattle.longest.specs.Longest.{longer, span_of, part_of, refusal_for};

use answers::Refusal;

// Multiblocks in a row: the first, and how many.
#[derive(Clone, Copy, Debug, PartialEq, Eq)]
pub struct Span {
    pub start: usize,
    pub count: usize,
}

// The run from a place on if it is longer than the best, else the best.
#[tactic(auto, unfolding(crate::specs::Longest::longer))]
fn longer_of(best: Span, start: usize, count: usize) -> Span
    ensures { result ≡ longer best start count }
{
    if best.count < count {
        Span { start, count }
    } else {
        best
    }
}

// The longest run with status 0 or 1, the earliest if several tie; 0 from 0 if there is none. Any other status only ends a run.
#[tactic(auto, using(crate::proofs::Spans::keeps_run, crate::proofs::Spans::ends_run, crate::proofs::Spans::scan_on, crate::proofs::Spans::scan_over), unfolding(crate::specs::Longest::span_of))]
pub fn span_of(statuses: &[u8]) -> Span
    ensures { result ≡ span_of statuses.now }
{
    let mut best = Span { start: 0, count: 0 };
    let mut start: usize = 0;
    for (i, &status) in statuses.iter().enumerate() {
        let next = i + 1;
        if status > 1 {
            start = next;
        }
        best = longer_of(best, start, next - start);
    }
    best
}

// Refused where the octets aren't 256 for each status.
#[tactic(auto, unfolding(crate::specs::Longest::refusal_for))]
pub fn check(octets: &[u8], statuses: &[u8]) -> Result<(), Refusal>
    ensures { refused result ≡ refusal_for octets.now statuses.now }
{
    if octets.len() % 256 != 0 {
        return Err(Refusal::Length);
    }
    if octets.len() / 256 != statuses.len() {
        return Err(Refusal::Length);
    }
    Ok(())
}

// The octets of the longest run, none where there is no run; refused where they aren't 256 for each status.
#[tactic(auto, using(crate::proofs::Spans::in_octets, crate::proofs::Spans::part_given))]
pub fn longest_run<'a>(octets: &'a [u8], statuses: &[u8]) -> Result<&'a [u8], Refusal>
    ensures refusal_value { refused result ≡ refusal_for octets.now statuses.now }
    ensures part_value { IfOk result (λ part. part.now ≡ part_of octets.now statuses.now) }
{
    check(octets, statuses)?;
    let span = span_of(statuses);
    let from = 256 * span.start;
    let end = from + 256 * span.count;
    Ok(&octets[from..end])
}

// The same octets, and none where the call would be refused.
#[tactic(auto, using(crate::proofs::Spans::part_or_none))]
pub fn part<'a>(octets: &'a [u8], statuses: &[u8]) -> &'a [u8]
    ensures { result.now ≡ part_of octets.now statuses.now }
{
    longest_run(octets, statuses).unwrap_or(&octets[0..0])
}
