// The NAKs of a plan, three numbers to each.
ghost use Rattle.std.specs.Prelude.{◌≡◌, [], ◌∷◌, ◌+◌, ◌-◌, ◌*◌, ◌≤◌, ◌<◌, length};
ghost use Rattle.std.proofs.lemmas.List.Edits.{sets};
ghost use Rattle.plan.specs.Plans.{nak_numbers, each_fits, all_within, each_within, scopes_join};
ghost use Rattle.plan.specs.Gaps.{pairs, naks_of};
ghost use Rattle.plan.specs.Planning.{dealt};

// Whether each NAK has at most so many requests.
pub(crate) fn each_fits(naks: &[[u64; 3]], most: usize) -> bool
    ensures { result ≡ each_fits most (naks_of naks.now) }
{
    let most = most as u64;
    naks.iter().all(|[_, _, count]| *count <= most)
}

// Whether requests lie in a scope.
fn all_within(requests: &[[u64; 2]], start: u64, end: u64) -> bool
    ensures { result ≡ all_within start end (pairs requests.now) }
{
    requests
        .iter()
        .all(|[from, to]| start <= *from && *to <= end)
}

// Whether each request lies in its NAK's scope, none being left over or lacking.
pub(crate) fn each_within(naks: &[[u64; 3]], requests: &[[u64; 2]]) -> bool
    ensures { result ≡ each_within (naks_of naks.now) (pairs requests.now) }
{
    let mut rest = requests;
    for [start, end, count] in naks {
        let Some((own, others)) = rest.split_at_checked(*count as usize) else {
            return false;
        };
        if !all_within(own, *start, *end) {
            return false;
        }
        rest = others;
    }
    rest.is_empty()
}

// Whether the scopes, none backwards, join up from `start` to `end`.
pub(crate) fn scopes_join(naks: &[[u64; 3]], start: u64, end: u64) -> bool
    ensures { result ≡ scopes_join start end (naks_of naks.now) }
{
    let mut at = start;
    for [from, to, _] in naks {
        if *from != at || *to < *from {
            return false;
        }
        at = *to;
    }
    naks.is_empty() || at == end
}

fn put_nak(out: &mut [u64], at: usize, start: u64, end: u64, count: u64)
    requires { at + 3 ≤ length out.old }
    ensures { out.new ≡ sets out.old at (start ∷ end ∷ count ∷ []) }
{
    out[at] = start;
    out[at + 1] = end;
    out[at + 2] = count;
}

// So many NAKs for the requests, `most` to each and to the last what is left.
// Kept: threes by index. The proof of a `for` over `as_chunks_mut` did not close: nothing is said of what its slice ends as.
pub(crate) fn store_naks(
    naks: usize,
    most: usize,
    start: u64,
    end: u64,
    requests: &[[u64; 2]],
    out: &mut [u64],
)
    requires { (3 * naks ≤ length out.old) × ((naks - 1) * most ≤ length requests.now) × (1 < naks → 0 < most) }
    ensures { out.new ≡ sets out.old 0 (nak_numbers (dealt naks most (length requests.now) start end (pairs requests.now))) }
{
    if naks == 0 {
        return;
    }
    let last = naks - 1;
    let mut rest = requests;
    let mut at = start;
    for i in 0..last {
        let (own, others) = rest.split_at(most);
        let to = own[most - 1][1];
        put_nak(out, 3 * i, at, to, most as u64);
        at = to;
        rest = others;
    }
    put_nak(out, 3 * last, at, end, rest.len() as u64);
}
