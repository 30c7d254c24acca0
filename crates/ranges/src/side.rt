// One side of a merge: pairs that stand in the bytes of a request area or in lent numbers, and the one of them that comes next.
ghost use Rattle.std.specs.Iterator.{YieldsFirst, MakesProgress, item_count};
ghost use Rattle.std.specs.Prelude.{◌≡◌, ◌≤◌, ⊤};
ghost use Rattle.ranges.specs.Merging.{largest};
ghost use Rattle.ranges.specs.Sources.{pairs_in, GoesOn};
ghost use Rattle.ranges.specs.Within.{ahead, edge, begun, passed};

use nak::iter::SegmentRequestIter;

// The pairs that are still to come.
#[derive(Clone, Copy, Debug, PartialEq, Eq)]
pub enum Source<'a> {
    Area(SegmentRequestIter<'a>),
    Numbers(&'a [u64]),
}

impl<'a> Iterator for Source<'a> {
    type Item = (u64, u64);

    ghost next_gives = { YieldsFirst pairs_in };

    ghost remaining = { item_count pairs_in };

    #[inline]
    fn next(&mut self) -> Option<(u64, u64)>
        ensures steps { YieldsFirst pairs_in self.old result self.new }
        ensures goes { MakesProgress (λ _. ⊤) (item_count pairs_in) self.old result self.new }
        ensures moves { GoesOn self.old self.new }
    {
        match self {
            Source::Area(requests) => requests.next(),
            Source::Numbers(numbers) => {
                let [from, to, rest @ ..] = *numbers else {
                    return None;
                };
                *numbers = rest;
                Some((*from, *to))
            }
        }
    }
}

// A pair, unless all are behind, and those behind it.
#[derive(Clone, Copy, Debug, PartialEq, Eq)]
pub struct Side<'a> {
    pub pair: Option<(u64, u64)>,
    pub rest: Source<'a>,
}

impl<'a> Side<'a> {
    pub(crate) fn new(source: Source<'a>) -> Side<'a>
        ensures { ahead result ≡ pairs_in source.entry }
    {
        let mut rest = source;
        let pair = rest.next();
        Side { pair, rest }
    }

    // Where this side changes next, seen from a place before its pair's end.
    #[inline]
    pub(crate) fn edge(&self, at: u64) -> u64
        ensures { (result ≡ edge at (ahead self.now)) × (result ≤ largest) }
    {
        match self.pair {
            Some((from, to)) => if from <= at { to } else { from },
            None => u64::MAX,
        }
    }

    // Whether this side asks for the byte at such a place.
    #[inline]
    pub(crate) fn asks(&self, at: u64) -> bool
        ensures { result ≡ begun at (ahead self.now) }
    {
        match self.pair {
            Some((from, _)) => from <= at,
            None => false,
        }
    }

    // At a place that may be the pair's end: there the next pair is taken.
    #[inline]
    pub(crate) fn pass(&mut self, at: u64)
        ensures { ahead self.new ≡ passed at (ahead self.old) }
    {
        match self.pair {
            Some((_, to)) if to == at => {
                self.pair = self.rest.next();
            }
            _ => {}
        }
    }
}
