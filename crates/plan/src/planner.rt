// The planner: one request for each missing range, in as few NAKs as the packet size allows.
ghost use Rattle.std.specs.Prelude.{◌≡◌, true, not, ◌&&◌, eqb, ◌<◌, length};
ghost use Rattle.fields.specs.Answer.{answer_of};
ghost use Rattle.ranges.specs.Pairs.{twos};
ghost use Rattle.plan.specs.Missing.{apart, missing_ranges};
ghost use Rattle.plan.specs.Planning.{naks_for, plan_with, planning, counted, requests_after, naks_after};

use crate::gaps::Scope;
use crate::{gaps, judge, naks};
use fields::Refusal;
use header::PduHeader;

// How many requests and NAKs were stored.
#[derive(Clone, Copy, Debug, PartialEq, Eq)]
pub struct Planned {
    pub requests: usize,
    pub naks: usize,
}

// The ranges divided by the most requests of a NAK, rounded up.
fn naks_for(ranges: usize, most: usize) -> usize
    requires { 0 < ranges → 0 < most }
    ensures { result ≡ naks_for ranges most }
{
    if ranges == 0 {
        return 0;
    }
    ranges.div_ceil(most)
}

fn none_fits(most: usize, ranges: usize) -> bool
    ensures { result ≡ (not (eqb ranges 0) && eqb most 0) }
{
    ranges != 0 && most == 0
}

fn plan_with(
    most: usize,
    scope: Scope,
    requests: &mut [u64],
    naks: &mut [u64],
) -> Result<Planned, Refusal>
    requires { apart (twos scope.received.now) ≡ true }
    ensures answered { let s = scope.entry in answer_of result ≡ counted (plan_with most s.start s.end (missing_ranges (twos s.received.now) s.start s.end) (length requests.old) (length naks.old)) }
    ensures requested { let s = scope.entry in requests.new ≡ requests_after (plan_with most s.start s.end (missing_ranges (twos s.received.now) s.start s.end) (length requests.old) (length naks.old)) requests.old }
    ensures dealt { let s = scope.entry in naks.new ≡ naks_after (plan_with most s.start s.end (missing_ranges (twos s.received.now) s.start s.end) (length requests.old) (length naks.old)) naks.old }
{
    let missing = scope.gaps();
    let count = missing.count();
    if none_fits(most, count) {
        return Err(Refusal::NoRequestFits);
    }
    let parts = naks_for(count, most);
    if requests.len() / 2 < count {
        return Err(Refusal::NoRoom);
    }
    if naks.len() / 3 < parts {
        return Err(Refusal::NoRoom);
    }
    gaps::store_gaps(missing, requests);
    let (asked, _) = requests.as_chunks();
    let (asked, _) = asked.split_at(count);
    naks::store_naks(parts, most, scope.start, scope.end, asked, naks);
    Ok(Planned {
        requests: count,
        naks: parts,
    })
}

// A plan that asks, in NAKs that fit the packet size, for exactly the bytes of the scope that were not received. It is counted first: where
// it is refused, no lent number changes.
// Kept: start and end apart, and lists of plain numbers: the clauses name each, and C lends them so.
pub fn plan(
    header: PduHeader,
    size: usize,
    received: &[u64],
    start: u64,
    end: u64,
    requests: &mut [u64],
    naks: &mut [u64],
) -> Result<Planned, Refusal>
    ensures answered { answer_of result ≡ counted (planning header size received.now start end (length requests.old) (length naks.old)) }
    ensures requested { requests.new ≡ requests_after (planning header size received.now start end (length requests.old) (length naks.old)) requests.old }
    ensures dealt { naks.new ≡ naks_after (planning header size received.now start end (length requests.old) (length naks.old)) naks.old }
{
    let scope = Scope {
        received,
        start,
        end,
    };
    let most = judge::judge(header, size, scope, requests.len())?;
    plan_with(most, scope, requests, naks)
}
