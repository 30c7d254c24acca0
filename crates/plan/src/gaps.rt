// The missing ranges of a scope, as the gaps between the received ranges.
ghost use Rattle.std.specs.Prelude.{◌≡◌, ◌*◌, ◌^◌, ◌≤◌, ◌<◌, length};
ghost use Rattle.std.specs.Iterator.{YieldsFirst, item_count};
ghost use Rattle.std.proofs.lemmas.List.Edits.{sets};
ghost use Rattle.ranges.specs.Pairs.{twos};
ghost use Rattle.plan.specs.Plans.{pair_numbers};
ghost use Rattle.plan.specs.Gaps.{pairs, gaps, same_pairs};

// A scope, from its first byte to the first byte behind it, and the ranges of it that were received, start and end by turns.
#[derive(Clone, Copy)]
pub(crate) struct Scope<'a> {
    pub(crate) received: &'a [u64],
    pub(crate) start: u64,
    pub(crate) end: u64,
}

impl<'a> Scope<'a> {
    pub(crate) fn gaps(self) -> Gaps<'a>
        ensures { let s = self.entry in gaps result.at result.stop (pairs result.received.now) ≡ gaps s.start s.end (twos s.received.now) }
    {
        let (received, _) = self.received.as_chunks();
        Gaps {
            received,
            at: self.start,
            stop: self.end,
        }
    }
}

// The gaps from the byte `at` on, before `stop`, between the ranges that are left.
#[derive(Clone, Copy)]
pub(crate) struct Gaps<'a> {
    received: &'a [[u64; 2]],
    at: u64,
    stop: u64,
    ghost few: { length received.now < 2 ^ 63 },
}

impl<'a> Iterator for Gaps<'a> {
    type Item = (u64, u64);

    ghost next_gives = { YieldsFirst (λ s. gaps s.at s.stop (pairs s.received.now)) };

    ghost remaining = { item_count (λ s. gaps s.at s.stop (pairs s.received.now)) };

    fn next(&mut self) -> Option<(u64, u64)> {
        while let Some(([start, end], rest)) = self.received.split_first() {
            let from = self.at;
            let to = self.stop.min(*start);
            self.at = from.max(*end);
            self.received = rest;
            if from < to {
                return Some((from, to));
            }
        }
        let from = self.at;
        self.at = self.stop;
        if from < self.stop {
            return Some((from, self.stop));
        }
        None
    }
}

// Whether the requests are the gaps, one by one.
pub(crate) fn are_gaps(requests: &[[u64; 2]], missing: Gaps) -> bool
    ensures { result ≡ same_pairs (pairs requests.now) (gaps missing.entry.at missing.entry.stop (pairs missing.entry.received.now)) }
{
    requests.iter().map(|[from, to]| (*from, *to)).eq(missing)
}

// The gaps as numbers, start and end by turns.
// Kept: pairs by index. The proof of `iter_mut().zip` over `as_chunks_mut` did not close: nothing is said of what its slice ends as.
pub(crate) fn store_gaps(missing: Gaps, out: &mut [u64])
    requires { 2 * length (gaps missing.at missing.stop (pairs missing.received.now)) ≤ length out.old }
    ensures { out.new ≡ sets out.old 0 (pair_numbers (gaps missing.entry.at missing.entry.stop (pairs missing.entry.received.now))) }
{
    for (k, (from, to)) in missing.enumerate() {
        out[2 * k] = from;
        out[2 * k + 1] = to;
    }
}
