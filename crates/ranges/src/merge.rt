// Two sides walked together, stretch by stretch: the longest ranges for which either asks, only one of them, or the first alone.
ghost use Rattle.std.specs.Prelude.{◌≡◌, length};
ghost use Rattle.ranges.specs.Pairs.{Rising};
ghost use Rattle.ranges.specs.Merging.{label_of, merged};
ghost use Rattle.ranges.specs.Sources.{pairs_in};
ghost use Rattle.ranges.specs.Within.{laid};

use crate::side::{Side, Source};
use crate::tape::Open;

// What is asked of two lists: the bytes that only one asks for, by side; those that either asks for; those of the first that the second does not ask for.
#[derive(Clone, Copy, Debug, PartialEq, Eq)]
pub enum Rule {
    Differ,
    Either,
    Without,
}

// Which side asks, as the definition says it; 0 is none.
// Kept: a number, since it is stored for C beside the range: 1 or 2 for the NAK that alone asks for it.
fn label_of(rule: Rule, first: bool, second: bool) -> u64
    ensures { result ≡ label_of rule first second }
{
    match rule {
        Rule::Differ => match (first, second) {
            (true, false) => 1,
            (false, true) => 2,
            _ => 0,
        },
        Rule::Either => if first || second { 1 } else { 0 },
        Rule::Without => if first && !second { 1 } else { 0 },
    }
}

// The ranges of two rising lists: how many there are; those that have room are stored.
// Kept: `labelled` stays beside `rule`. Asked of the rule, `owe` would require a rule without labels, by one more definition.
pub(crate) fn merge(
    rule: Rule,
    labelled: bool,
    one: Source,
    other: Source,
    out: &mut [u64],
) -> usize
    requires { Rising 0 (pairs_in one) × Rising 0 (pairs_in other) }
    ensures answered { result ≡ length (merged rule (pairs_in one.entry) (pairs_in other.entry)) }
    ensures stored { out.new ≡ laid labelled out.old 0 (merged rule (pairs_in one.entry) (pairs_in other.entry)) }
{
    let mut first = Side::new(one);
    let mut second = Side::new(other);
    let mut open = Open {
        from: 0,
        label: 0,
        count: 0,
    };
    let mut at = 0;
    // Kept: no index is counted here. Each turn goes to the next byte at which a side changes.
    while at < u64::MAX {
        let to = first.edge(at).min(second.edge(at));
        let label = label_of(rule, first.asks(at), second.asks(at));
        open = open.turned(out, labelled, at, label);
        first.pass(to);
        second.pass(to);
        at = to;
    }
    open.close(out, labelled, at)
}
