// The check of a plan, which trusts none.
ghost use Rattle.std.specs.Prelude.{◌≡◌, true, ◌≤◌};
ghost use Rattle.fields.specs.Answer.{answer_of};
ghost use Rattle.ranges.specs.Pairs.{twos};
ghost use Rattle.plan.specs.Missing.{apart};
ghost use Rattle.plan.specs.Plans.{accepts_numbers};
ghost use Rattle.plan.specs.Checking.{checking_plan};

use crate::gaps::Scope;
use crate::{gaps, judge, naks};
use fields::Refusal;
use header::PduHeader;

// Whether a plan is accepted, with `most` requests to a NAK. Requests that are the gaps, one by one, are apart and ask for exactly the
// missing bytes, and no others do.
fn accepted(most: usize, scope: Scope, requests: &[u64], naks: &[u64]) -> bool
    requires { (apart (twos scope.received.now) ≡ true) × (scope.start ≤ scope.end) }
    ensures { result ≡ accepts_numbers most scope.entry.received.now scope.entry.start scope.entry.end requests.now naks.now }
{
    let (naks, part) = naks.as_chunks();
    let (requests, _) = requests.as_chunks();
    part.is_empty()
        && naks::each_fits(naks, most)
        && naks::each_within(naks, requests)
        && gaps::are_gaps(requests, scope.gaps())
        && naks::scopes_join(naks, scope.start, scope.end)
}

// Whether a plan asks, in NAKs that fit the packet size, for exactly the bytes of the scope that were not received. It is lent as numbers:
// its requests, start and end by turns; its NAKs by threes, start and end of the scope and how many of the requests are its own.
// Kept: start and end apart, and lists of plain numbers: the clause names each, and C lends them so.
pub fn check_plan(
    header: PduHeader,
    size: usize,
    received: &[u64],
    start: u64,
    end: u64,
    requests: &[u64],
    naks: &[u64],
) -> Result<bool, Refusal>
    ensures { answer_of result ≡ checking_plan header size received.now start end requests.now naks.now }
{
    let scope = Scope {
        received,
        start,
        end,
    };
    let most = judge::judge(header, size, scope, requests.len())?;
    Ok(accepted(most, scope, requests, naks))
}
