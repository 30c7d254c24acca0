// The records of NAKs: reads what goes in, calls the library, compares.
use crate::expected::{Filled, UNTOUCHED};
use crate::list::{MOST_BYTES, MOST_LARGE, MOST_NORMAL};
use crate::{expected, list};
use cfdp::{ANSWER_LEN, Answer, compare, read, reserve, write};

// Kept: `metadata_read` is alike: six lines, which differ in two functions.
pub fn nak_read() -> bool {
    let mut bytes = [0; MOST_BYTES];
    let bytes = list::bytes(&mut bytes);
    let mut answer = [UNTOUCHED; ANSWER_LEN];
    read::cfdp_nak_read(bytes, &mut answer);
    let same = expected::answer(&answer);
    same & expected::requests(&answer, bytes)
}

pub fn nak_write() -> bool {
    let header = list::Header::next();
    let start = list::eight();
    let end = list::eight();
    expected::writes(|buf, answer| {
        write::cfdp_nak_write(&header.shape, &header.ids, start, end, buf, answer)
    })
}

// Whether a call that writes the list's requests answers as the list says; room for the most of them is lent.
// Kept: the call stands here, and below, and in no closure for `expected`: the check did not take a generic call of a `&[T]` in a closure.
fn writes_requests<T: Drop, R, F>(room: &mut [T], next: R, write: F) -> bool
where
    R: Fn() -> T,
    F: FnOnce(&[u8; 10], &[u64; 3], u64, u64, &[T], &mut [u8], &mut Answer),
    requires reading { R.IsAlwaysCallable next }
    requires writing { F.IsAlwaysCallable write }
{
    let header = list::Header::next();
    let start = list::eight();
    let end = list::eight();
    let numbers = list::numbers(room, next);
    let mut lent = Filled::next();
    let mut answer = [UNTOUCHED; ANSWER_LEN];
    write(
        &header.shape,
        &header.ids,
        start,
        end,
        numbers,
        lent.front(),
        &mut answer,
    );
    let same = expected::answer(&answer);
    same & lent.is_listed()
}

pub fn nak_write_normal() -> bool {
    writes_requests(
        &mut [0; MOST_NORMAL],
        list::four,
        write::cfdp_nak_write_normal,
    )
}

pub fn nak_write_large() -> bool {
    writes_requests(
        &mut [0; MOST_LARGE],
        list::eight,
        write::cfdp_nak_write_large,
    )
}

pub fn nak_most() -> bool {
    let header = list::Header::next();
    let packet = list::eight() as usize;
    expected::answers(|answer| write::cfdp_nak_most(&header.shape, &header.ids, packet, answer))
}

pub fn nak_reserve() -> bool {
    let header = list::Header::next();
    let pairs = list::eight() as usize;
    expected::writes(|buf, answer| {
        reserve::cfdp_nak_reserve(&header.shape, &header.ids, pairs, buf, answer)
    })
}

pub fn nak_finish() -> bool {
    let header = list::Header::next();
    let start = list::eight();
    let end = list::eight();
    let pairs = list::eight() as usize;
    expected::writes(|buf, answer| {
        reserve::cfdp_nak_finish(&header.shape, &header.ids, pairs, start, end, buf, answer)
    })
}

pub fn nak_compare() -> bool {
    let header = list::Header::next();
    let start = list::eight();
    let end = list::eight();
    let mut bytes = [0; MOST_BYTES];
    let bytes = list::bytes(&mut bytes);
    expected::answers(|answer| {
        compare::cfdp_nak_compare(bytes, &header.shape, &header.ids, start, end, answer)
    })
}

// Whether a call that compares the list's bytes with its requests answers as the list says; room for the most of them is lent.
fn compares_requests<T: Drop, R, F>(room: &mut [T], next: R, compare: F) -> bool
where
    R: Fn() -> T,
    F: FnOnce(&[u8], &[u8; 10], &[u64; 3], u64, u64, &[T], &mut Answer),
    requires reading { R.IsAlwaysCallable next }
    requires comparing { F.IsAlwaysCallable compare }
{
    let header = list::Header::next();
    let start = list::eight();
    let end = list::eight();
    let mut bytes = [0; MOST_BYTES];
    let bytes = list::bytes(&mut bytes);
    let numbers = list::numbers(room, next);
    let mut answer = [UNTOUCHED; ANSWER_LEN];
    compare(
        bytes,
        &header.shape,
        &header.ids,
        start,
        end,
        numbers,
        &mut answer,
    );
    expected::answer(&answer)
}

pub fn nak_compare_normal() -> bool {
    compares_requests(
        &mut [0; MOST_NORMAL],
        list::four,
        compare::cfdp_nak_compare_normal,
    )
}

pub fn nak_compare_large() -> bool {
    compares_requests(
        &mut [0; MOST_LARGE],
        list::eight,
        compare::cfdp_nak_compare_large,
    )
}
