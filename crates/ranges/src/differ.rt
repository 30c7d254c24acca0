// Two NAKs of one transaction beside each other: which bytes only one of them asks for.
ghost use Rattle.std.specs.Prelude.{◌≡◌, ◌+◌, ◌≤◌, length};
ghost use Rattle.fields.specs.Answer.{accepted, and_then, leaves, answer_of};
ghost use Rattle.ranges.specs.Merging.{largest};
ghost use Rattle.ranges.specs.Differing.{counted, threes, comparing_pairs, differing, differ_memory};
ghost use Rattle.ranges.specs.Sources.{pairs_in};
ghost use Rattle.ranges.specs.Within.{AsksOrRefused, comparing_read};

use crate::merge::Rule;
use crate::order::Asked;
use crate::side::Source;
use crate::{merge, order, transaction};
use fields::Refusal;
use nak::Nak;

// What two NAKs differ in: which of them ask for metadata, and how many ranges only one of them asks for.
#[derive(Clone, Copy, Debug, PartialEq, Eq)]
pub struct Differences {
    pub first: bool,
    pub second: bool,
    pub ranges: usize,
}

// What the pairs of one of the files ask for; or 18.
fn asked_of(file: u8, pairs: Source) -> Result<Asked, Refusal>
    requires { length (pairs_in pairs) + 2 ≤ largest }
    ensures { AsksOrRefused file result (pairs_in pairs.entry) }
{
    order::asked_in(pairs).map_err(|pair| Refusal::PairOutOfOrder { file, pair })
}

// The pairs of two request areas, of one transaction or not. The ranges are counted first, by a walk that lays them into other numbers:
// where they have no room, none of those that are lent is changed.
fn compare_pairs(
    pairs1: Source,
    pairs2: Source,
    same: bool,
    elsewhere: &mut [u64],
    lent: &mut [u64],
) -> Result<Differences, Refusal>
    requires { (length (pairs_in pairs1) + 2 ≤ largest) × (length (pairs_in pairs2) + 2 ≤ largest) }
    ensures answered { answer_of result ≡ and_then (comparing_pairs same (pairs_in pairs1.entry) (pairs_in pairs2.entry) (length lent.old)) (λ c. accepted (counted c)) }
    ensures stored { lent.new ≡ leaves (comparing_pairs same (pairs_in pairs1.entry) (pairs_in pairs2.entry) (length lent.old)) threes lent.old }
{
    let asked1 = asked_of(1, pairs1)?;
    let asked2 = asked_of(2, pairs2)?;
    if !same {
        return Err(Refusal::TransactionsDiffer);
    }
    let ranges = merge::merge(Rule::Differ, true, asked1.others, asked2.others, elsewhere);
    if lent.len() / 3 < ranges {
        return Err(Refusal::NoRoom);
    }
    merge::merge(Rule::Differ, true, asked1.others, asked2.others, lent);
    Ok(Differences {
        first: asked1.metadata,
        second: asked2.metadata,
        ranges,
    })
}

// The second NAK beside one that was read from `first`.
fn compare_read(
    nak1: Nak,
    first: &[u8],
    second: &[u8],
    lent: &mut [u64],
) -> Result<Differences, Refusal>
    ensures answered { answer_of result ≡ and_then (comparing_read nak1 first.now second.now (length lent.old)) (λ c. accepted (counted c)) }
    ensures stored { lent.new ≡ leaves (comparing_read nak1 first.now second.now (length lent.old)) threes lent.old }
{
    let nak2 = Nak::from_bytes(second)?;
    let same = transaction::same_transaction(nak1.header, nak2.header);
    let pairs1 = Source::Area(nak1.segment_request_iter(first));
    let pairs2 = Source::Area(nak2.segment_request_iter(second));
    compare_pairs(pairs1, pairs2, same, &mut [0; 2], lent)
}

// The NAKs at the start of two buffers. Scope, destination, flags and widths do not matter, nor does a part of a pair at the end of a request area.
pub fn differ(first: &[u8], second: &[u8], lent: &mut [u64]) -> Result<Differences, Refusal>
    ensures answered { answer_of result ≡ differing first.now second.now (length lent.old) }
    ensures stored { lent.new ≡ differ_memory first.now second.now lent.old }
{
    let nak1 = Nak::from_bytes(first)?;
    compare_read(nak1, first, second, lent)
}
