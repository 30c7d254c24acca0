// The pairs of a NAK's request area as ranges: the metadata pair kept apart, and whether the others rise.
ghost use Rattle.std.specs.Prelude.{◌≡◌, ◌≤◌, ◌+◌, length};
ghost use Rattle.ranges.specs.Merging.{largest};
ghost use Rattle.ranges.specs.Order.{out_of_order};
ghost use Rattle.ranges.specs.Sources.{pairs_in};
ghost use Rattle.ranges.specs.Within.{number_or_none, AsksOrWrong};

use crate::side::Source;

// Pairs are counted from 1, the metadata pair too.
const FIRST_PAIR: usize = 1;

const SECOND_PAIR: usize = 2;

// What a request area asks for: whether for metadata, and the other pairs.
#[derive(Clone, Copy, Debug, PartialEq, Eq)]
pub struct Asked<'a> {
    pub metadata: bool,
    pub others: Source<'a>,
}

// The number of the first pair out of order, where the first of them has that number.
// Kept: the bound on the pairs stands in four contracts: as a ghost field of `Source` each place that makes one would have to prove it.
fn first_out_of_order(pairs: Source, number: usize) -> Option<usize>
    requires { (1 ≤ number) × (number ≤ 2) × (length (pairs_in pairs) + 2 ≤ largest) }
    ensures { number_or_none result (out_of_order number 0 (pairs_in pairs.entry)) }
{
    let mut last = 0;
    for (i, (start, end)) in pairs.enumerate() {
        if start < last || end <= start {
            return Some(number + i);
        }
        last = end;
    }
    None
}

// What the pairs of an area ask for, or the number of the first of them out of order.
pub(crate) fn asked_in(pairs: Source) -> Result<Asked, usize>
    requires { length (pairs_in pairs) + 2 ≤ largest }
    ensures { AsksOrWrong result (pairs_in pairs.entry) }
{
    let mut behind = pairs;
    let metadata = behind.next() == Some((0, 0));
    let (others, number) = if metadata {
        (behind, SECOND_PAIR)
    } else {
        (pairs, FIRST_PAIR)
    };
    match first_out_of_order(others, number) {
        Some(pair) => Err(pair),
        None => Ok(Asked { metadata, others }),
    }
}
