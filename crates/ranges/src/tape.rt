// Ranges stored one behind the other into lent numbers, as many as there is room for, and counted.
ghost use Rattle.std.specs.Prelude.{◌≡◌, ◌+◌, ◌≤◌};
ghost use Rattle.ranges.specs.Runs.{range};
ghost use Rattle.ranges.specs.Merging.{largest};
ghost use Rattle.ranges.specs.Laying.{wide};
ghost use Rattle.ranges.specs.Within.{placed, closing, closed_into, turned_open, turned_into};

// The range that is open: its first byte and its label, which is 0 where none is open; and how many ranges were closed before it.
// Kept: an Option is no plainer, since it would have to say that no label in it is 0, which specs/Runs has for a byte in no range.
// Kept: `out` and `labelled` stay beside it, since each method of a struct that held the `&mut` would have to say that it still is.
#[derive(Clone, Copy, Debug, PartialEq, Eq)]
pub struct Open {
    pub from: u64,
    pub label: u64,
    pub count: usize,
}

fn width(labelled: bool) -> usize
    ensures { (result ≡ wide labelled) × (2 ≤ result) × (result ≤ 3) }
{
    if labelled { 3 } else { 2 }
}

// A range in the place of index `count`, if there is that place.
#[tactic(auto, using(crate::proofs::Laying::place_fits))]
fn place(out: &mut [u64], labelled: bool, count: usize, from: u64, to: u64, label: u64)
    ensures { out.new ≡ placed labelled out.old count (range from to label) }
{
    let size = width(labelled);
    // Divided, not multiplied: a count that wraps around has no place.
    if out.len() / size <= count {
        return;
    }
    let i = size * count;
    out[i] = from;
    out[i + 1] = to;
    if labelled {
        out[i + 2] = label;
    }
}

impl Open {
    // The open range ends at `at`: it is stored, and counted.
    pub(crate) fn close(self, out: &mut [u64], labelled: bool, at: u64) -> usize
        requires { self.count + closing self.label ≤ largest }
        ensures { (result ≡ self.count + closing self.label) × (out.new ≡ closed_into labelled out.old self at) }
    {
        let count = self.count;
        let label = self.label;
        if label == 0 {
            return count;
        }
        place(out, labelled, count, self.from, at, label);
        count + 1
    }

    // From `at` on bytes have that label: the open range goes on, or ends here and another is open.
    #[tactic(auto, unfolding(crate::specs::Within::turned_open, crate::specs::Within::turned_into))]
    pub(crate) fn turned(self, out: &mut [u64], labelled: bool, at: u64, label: u64) -> Open
        requires { self.count + closing self.label ≤ largest }
        ensures { (result ≡ turned_open self at label) × (out.new ≡ turned_into labelled out.old self at label) }
    {
        if self.label == label {
            return self;
        }
        let count = self.close(out, labelled, at);
        Open {
            from: at,
            label,
            count,
        }
    }
}
