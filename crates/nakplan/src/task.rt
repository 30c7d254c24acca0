// A task of which all was read, and what it gives.
use arrayvec::ArrayVec;
use fields::Refusal;
use header::PduHeader;
use plan::{checker, planner};
use std::fmt;

// What a task may have: received ranges, and requests; NAKs.
pub const MOST_RANGES: usize = 8190;

pub const MOST_NAKS: usize = 1024;

// Ranges, each by start and end.
pub type Ranges = ArrayVec<[u64; 2], MOST_RANGES>;

// Requests; NAKs, each by start, end and how many of the requests are its own.
#[derive(Drop)]
pub struct Plan {
    pub requests: Ranges,
    pub naks: ArrayVec<[u64; 3], MOST_NAKS>,
}

impl Plan {
    pub(crate) fn new() -> Plan {
        Plan {
            requests: ArrayVec::new(),
            naks: ArrayVec::new(),
        }
    }

    // Room for any plan: as many requests and NAKs as there may be.
    fn fill(&mut self) {
        for _ in 0..MOST_RANGES {
            let _ = self.requests.try_push([0; 2]);
        }
        for _ in 0..MOST_NAKS {
            let _ = self.naks.try_push([0; 3]);
        }
    }
}

impl fmt::Display for Plan {
    fn fmt<W: fmt::Write>(&self, f: &mut fmt::Formatter<W>) -> fmt::Result {
        let mut requests = self.requests.as_slice().iter();
        for [start, end, count] in self.naks.as_slice() {
            writeln!(f, "nak {start} {end}")?;
            for [start, end] in requests.by_ref().take(*count as usize) {
                writeln!(f, "request {start} {end}")?;
            }
        }
        let naks = self.naks.as_slice().len();
        write!(f, "end {naks} {}", self.requests.as_slice().len())
    }
}

// Whether the given plan is accepted, or the plan that was made.
#[derive(Drop)]
pub enum Answer<'a> {
    Accepted(bool),
    Plan(&'a Plan),
}

impl<'a> fmt::Display for Answer<'a> {
    fn fmt<W: fmt::Write>(&self, f: &mut fmt::Formatter<W>) -> fmt::Result {
        match self {
            Answer::Accepted(true) => write!(f, "accepted"),
            Answer::Accepted(false) => write!(f, "not accepted"),
            Answer::Plan(plan) => write!(f, "{plan}"),
        }
    }
}

// What is asked for, but for its lists. With a given plan it is checked, and else one is made.
#[derive(Clone, Copy)]
pub struct Task {
    pub header: Result<PduHeader, Refusal>,
    pub size: usize,
    pub start: u64,
    pub end: u64,
    pub given: bool,
}

impl Task {
    pub(crate) fn answer<'a>(
        self,
        received: &Ranges,
        plan: &'a mut Plan,
    ) -> Result<Answer<'a>, Refusal> {
        let header = self.header?;
        let received = received.as_slice().as_flattened();
        if self.given {
            let requests = plan.requests.as_slice().as_flattened();
            let naks = plan.naks.as_slice().as_flattened();
            let accepted = checker::check_plan(
                header, self.size, received, self.start, self.end, requests, naks,
            )?;
            return Ok(Answer::Accepted(accepted));
        }
        plan.fill();
        let requests = plan.requests.as_mut_slice().as_flattened_mut();
        let naks = plan.naks.as_mut_slice().as_flattened_mut();
        let planned = planner::plan(
            header, self.size, received, self.start, self.end, requests, naks,
        )?;
        plan.requests.truncate(planned.requests);
        plan.naks.truncate(planned.naks);
        Ok(Answer::Plan(plan))
    }
}
