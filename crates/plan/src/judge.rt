// What check and planner refuse alike.
ghost use Rattle.std.specs.Prelude.{◌≡◌};
ghost use Rattle.fields.specs.Answer.{all_of, answer_of};
ghost use Rattle.plan.specs.Missing.{apart, apart_behind};
ghost use Rattle.plan.specs.Gaps.{pairs};
ghost use Rattle.plan.specs.Checking.{plan_tests, judging_plan};

use crate::gaps::Scope;
use fields::Refusal;
use header::{LargeFileFlag, PduHeader};
use nak::{count, write};

// Whether ranges are apart, and behind one that ends at `end`.
fn apart_behind(ranges: &[[u64; 2]], end: u64) -> bool
    ensures { result ≡ apart_behind end (pairs ranges.now) }
{
    let mut last = end;
    for [from, to] in ranges {
        if *from <= last || *to <= *from {
            return false;
        }
        last = *to;
    }
    true
}

// Whether ranges are apart: each start below its end, each next start above the end before.
fn are_apart(ranges: &[[u64; 2]]) -> bool
    ensures { result ≡ apart (pairs ranges.now) }
{
    let Some(([from, to], others)) = ranges.split_first() else {
        return true;
    };
    from < to && apart_behind(others, *to)
}

// 12 for the received ranges, then for the plan's requests, of which there are so many numbers; 23; 9.
fn judge_ranges(file: LargeFileFlag, scope: Scope, requests: usize) -> Result<(), Refusal>
    ensures { answer_of result ≡ all_of (plan_tests file scope.entry.received.now scope.entry.start scope.entry.end requests) }
{
    let count = scope.received.len();
    if count % 2 != 0 {
        return Err(Refusal::OddCount(count));
    }
    if requests % 2 != 0 {
        return Err(Refusal::OddCount(requests));
    }
    let (ranges, _) = scope.received.as_chunks();
    if !are_apart(ranges) {
        return Err(Refusal::RangesOutOfOrder);
    }
    if scope.end < scope.start {
        return Err(Refusal::RangesOutOfOrder);
    }
    write::judge_scope(file, scope.start, scope.end)
}

// The refusals of C-08 and then those; else how many requests a NAK has at most.
pub(crate) fn judge(
    header: PduHeader,
    size: usize,
    scope: Scope,
    requests: usize,
) -> Result<usize, Refusal>
    ensures { answer_of result ≡ judging_plan header size scope.entry.received.now scope.entry.start scope.entry.end requests }
{
    let most = count::calculate_max_segment_requests(size, header)?;
    let file = header.file;
    judge_ranges(file, scope, requests)?;
    Ok(most)
}
