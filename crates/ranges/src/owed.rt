// What is still owed (request C-13): a log of NAKs heard and ranges resent, run entry by entry over a state in memory that the caller lends.
// The state before an entry and the entry's pairs are merged in rising order into new room, so that the ranges are counted after the whole entry.
ghost use Rattle.std.specs.Prelude.{◌≡◌, true, false, ◌*◌, ◌≤◌, length, take, drop};
ghost use Rattle.fields.specs.Answer.{answer_of};
ghost use Rattle.ranges.specs.Pairs.{Rising, twos};
ghost use Rattle.ranges.specs.Owing.{most, first_after, differs};
ghost use Rattle.ranges.specs.Memory.{rises, first_in, is_state};
ghost use Rattle.ranges.specs.Log.{left_by, entry_taken, entry_memory, stop_answer, running};
ghost use Rattle.ranges.specs.Sources.{pairs_in};
ghost use Rattle.ranges.specs.OwedWithin.{head_put, owing_with, heard_in, resent_in, contents_taken, judged_only};

use crate::merge::Rule;
use crate::side::Source;
use crate::{merge, order};
use fields::{Refusal, be};
use nak::Nak;
use tlv::{Form, read};

// A state: the ranges, start and end by turns, at most 256; how many there are; 1 once a NAK was taken, and its source and sequence
// number. What a call leaves has zeros behind the ranges. The fresh state is all zeros.
pub const STATE_LEN: usize = 516;

// Kept: places of one array and no struct: C lends a state as so many numbers, and the definitions name their places.
pub type State = [u64; STATE_LEN];

// Where the count stands, and what is known of the log's first NAK.
pub const COUNT: usize = 512;

const KNOWN: usize = 513;

const SOURCE: usize = 514;

const SEQUENCE: usize = 515;

// The most ranges that a state keeps.
const MOST: u64 = 256;

// The tags of the entries, and the bytes of a resent range.
const NAK_TAG: u8 = 1;

const RESENT_TAG: u8 = 2;

const RESENT_LEN: usize = 16;

// The log's first NAK: its source and its sequence number.
#[derive(Clone, Copy, PartialEq, Eq)]
pub struct FirstNak {
    pub source: u64,
    pub sequence: u64,
}

// Why a run ended before its log did: the refusal of an entry, and that entry's offset.
#[derive(Clone, Copy, Debug, PartialEq, Eq)]
pub struct Stopped {
    pub refusal: Refusal,
    pub at: usize,
}

// Whether so many ranges rise.
// Kept: pairs by index. By an iterator over the pairs a log of 200 entries took twice as long.
fn rise(state: &[u64], count: usize) -> bool
    requires { (2 * count ≤ length state.now) × (count ≤ most) }
    ensures { result ≡ rises 0 (twos (take (2 * count) state.now)) }
{
    let mut last = 0;
    for i in 0..count {
        let from = state[2 * i];
        let to = state[2 * i + 1];
        if from < last {
            return false;
        }
        if to <= from {
            return false;
        }
        last = to;
    }
    true
}

// Whether the memory holds a state: no more than 256 ranges, which rise.
fn is_state(state: &State) -> bool
    ensures { result ≡ is_state state.now }
{
    let count = state[COUNT];
    if MOST < count {
        return false;
    }
    rise(state, count as usize)
}

#[tactic(auto, unfolding(crate::specs::Memory::first_in))]
fn first_in(state: &State) -> Option<FirstNak>
    ensures { result ≡ first_in state.now }
{
    if state[KNOWN] == 0 {
        return None;
    }
    Some(FirstNak {
        source: state[SOURCE],
        sequence: state[SEQUENCE],
    })
}

// Whether a NAK belongs to another transaction than the first.
#[tactic(auto, unfolding(crate::specs::Owing::differs))]
fn differs(first: Option<FirstNak>, its: FirstNak) -> bool
    ensures { result ≡ differs first its.source its.sequence }
{
    first.is_some_and(|first| first != its)
}

// The first NAK once that one was taken.
#[tactic(auto, unfolding(crate::specs::Owing::first_after))]
fn after(first: Option<FirstNak>, its: FirstNak) -> Option<FirstNak>
    ensures { result ≡ first_after first its.source its.sequence }
{
    first.or(Some(its))
}

// What is known behind the ranges: their count, and the first NAK.
fn put(first: Option<FirstNak>, count: u64, state: &mut State)
    ensures { state.new ≡ head_put state.old count first }
{
    state[COUNT] = count;
    if let Some(FirstNak { source, sequence }) = first {
        state[KNOWN] = 1;
        state[SOURCE] = source;
        state[SEQUENCE] = sequence;
    }
}

// 27, after the whole entry; else the state is the new one.
// Kept: that the numbers are a state stands in four contracts: C may lend what is none, and `entry` tests it before.
fn owe(rule: Rule, pairs: Source, first: Option<FirstNak>, state: &mut State) -> Result<(), Refusal>
    requires { (is_state state.old ≡ true) × Rising 0 (pairs_in pairs) }
    ensures { (answer_of result ≡ judged_only (owing_with rule first (pairs_in pairs.entry) state.old)) × (state.new ≡ left_by (owing_with rule first (pairs_in pairs.entry) state.old) state.old) }
{
    let used = 2 * state[COUNT] as usize;
    let kept = Source::Numbers(&state[..used]);
    let mut next = [0; STATE_LEN];
    let owed = merge::merge(rule, false, kept, pairs, &mut next) as u64;
    if MOST < owed {
        return Err(Refusal::TooManyRanges);
    }
    put(first, owed, &mut next);
    *state = next;
    Ok(())
}

// A NAK: the reader's refusals, 18, 19, 27. What the contents hold behind its PDU is not looked at.
fn heard(contents: &[u8], at: usize, state: &mut State) -> Result<(), Refusal>
    requires { is_state state.old ≡ true }
    ensures { (answer_of result ≡ judged_only (heard_in at contents.now state.old)) × (state.new ≡ left_by (heard_in at contents.now state.old) state.old) }
{
    let nak = Nak::from_bytes(contents)?;
    let pairs = Source::Area(nak.segment_request_iter(contents));
    let Ok(asked) = order::asked_in(pairs) else {
        return Err(Refusal::EntryOutOfOrder(at));
    };
    let its = FirstNak {
        source: nak.header.source.0,
        sequence: nak.header.sequence.0.value,
    };
    let first = first_in(state);
    if differs(first, its) {
        return Err(Refusal::TransactionsDiffer);
    }
    owe(Rule::Either, asked.others, after(first, its), state)
}

// A resent range: 18, 27.
fn resent(contents: &[u8], at: usize, state: &mut State) -> Result<(), Refusal>
    requires { (is_state state.old ≡ true) × (length contents.now ≡ 16) }
    ensures { (answer_of result ≡ judged_only (resent_in at contents.now state.old)) × (state.new ≡ left_by (resent_in at contents.now state.old) state.old) }
{
    let from = be::read_be(contents, 0, 8);
    let to = be::read_be(contents, 8, 8);
    if to <= from {
        return Err(Refusal::EntryOutOfOrder(at));
    }
    let first = first_in(state);
    owe(Rule::Without, Source::Numbers(&[from, to]), first, state)
}

// The contents of an entry: 26 for an unknown tag, and for a resent range not of 16 bytes.
fn take_contents(tag: u8, contents: &[u8], at: usize, state: &mut State) -> Result<(), Refusal>
    requires { is_state state.old ≡ true }
    ensures { (answer_of result ≡ judged_only (contents_taken at tag contents.now state.old)) × (state.new ≡ left_by (contents_taken at tag contents.now state.old) state.old) }
{
    match tag {
        NAK_TAG => heard(contents, at, state),
        RESENT_TAG if contents.len() == RESENT_LEN => resent(contents, at, state),
        _ => Err(Refusal::InvalidEntry(at)),
    }
}

// The entry with which `bytes` begin, whose offset in the log is `at`. A refused one leaves the state as it was.
pub fn entry(bytes: &[u8], at: usize, state: &mut State) -> Result<usize, Refusal>
    ensures answered { answer_of result ≡ entry_taken at bytes.now state.old }
    ensures stored { state.new ≡ entry_memory at bytes.now state.old }
{
    if !is_state(state) {
        return Err(Refusal::RangesOutOfOrder);
    }
    let Ok(field) = read::field_in(Form::LongTlv, bytes, 0) else {
        return Err(Refusal::InvalidEntry(at));
    };
    take_contents(field.tag, field.value(bytes), at, state)?;
    Ok(field.stop)
}

// The entries of a log from a place on, until the end or a refusal.
pub fn run(log: &[u8], from: usize, state: &mut State) -> Result<usize, Stopped>
    ensures answered { stop_answer result ≡ (running from (drop from log.now) state.old).stop }
    ensures stored { state.new ≡ (running from (drop from log.now) state.old).memory }
{
    let mut at = from;
    // Kept: an iterator is no plainer. The place is part of the answer, and an entry's size is known only once it was taken.
    while at < log.len() {
        at += entry(&log[at..], at, state).map_err(|refusal| Stopped { refusal, at })?;
    }
    Ok(at)
}
