// Plans of NAKs: any plan checked, and one made.
ghost use Rattle.std.specs.Prelude.{◌≡◌, length};
ghost use Rattle.fields.specs.Answer.{and_then, answer_of};
ghost use Rattle.plan.specs.Checking.{checking_plan};
ghost use Rattle.plan.specs.Planning.{counted, planning, requests_after, naks_after};
ghost use Rattle.cfdp.specs.Given.{given_header, left_by};
ghost use Rattle.cfdp.specs.Shown.{shown, verdict_number};
ghost use Rattle.cfdp.specs.Plans.{plan_numbers};

use crate::{Answer, Numbers, header_from, show, show_few, show_refusal};
use fields::Refusal;
use plan::planner::Planned;
use plan::{checker, planner};

impl Numbers for Planned {
    ghost numbers = { plan_numbers };

    fn put(self, answer: &mut Answer) {
        show_few(0, self.requests as u64, self.naks as u64, answer)
    }
}

pub fn cfdp_plan_check(
    shape: &[u8; 10],
    ids: &[u64; 3],
    packet: usize,
    received: &[u64],
    start: u64,
    end: u64,
    requests: &[u64],
    naks: &[u64],
    answer: &mut Answer,
)
    ensures { answer.new ≡ shown verdict_number (and_then (given_header shape.now ids.now) (λ h. checking_plan h packet received.now start end requests.now naks.now)) }
{
    let joined = header_from(shape, 0, ids);
    let checked = joined.and_then(|header| {
        checker::check_plan(header, packet, received, start, end, requests, naks)
    });
    show(checked, answer)
}

pub fn cfdp_plan(
    shape: &[u8; 10],
    ids: &[u64; 3],
    packet: usize,
    received: &[u64],
    start: u64,
    end: u64,
    requests: &mut [u64],
    naks: &mut [u64],
    answer: &mut Answer,
)
    ensures answered { answer.new ≡ shown plan_numbers (and_then (given_header shape.now ids.now) (λ h. counted (planning h packet received.now start end (length requests.old) (length naks.old)))) }
    ensures requested { requests.new ≡ left_by (given_header shape.now ids.now) (λ h. requests_after (planning h packet received.now start end (length requests.old) (length naks.old)) requests.old) requests.old }
    ensures dealt { naks.new ≡ left_by (given_header shape.now ids.now) (λ h. naks_after (planning h packet received.now start end (length requests.old) (length naks.old)) naks.old) naks.old }
{
    // Kept: it lends two slices, and a with_header for two is no plainer for one caller; held by a closure, their proof did not close.
    let joined = header_from(shape, 0, ids);
    match joined {
        Err(refusal) => show_refusal(refusal, answer),
        Ok(header) => {
            let planned = planner::plan(header, packet, received, start, end, requests, naks);
            show(planned, answer)
        }
    }
}
