// Compares what the library gave with what the list says, and reads all of that, whatever differs.
use crate::list;
use crate::list::{MOST_BYTES, MOST_LARGE};
use cfdp::{ANSWER_LEN, Answer, read};

// What stands in an answer and in lent numbers before the call, to show which of them it leaves.
pub const UNTOUCHED: u64 = 0xEEEEEEEEEEEEEEEE;

// Whether numbers are so many of the list, and behind them all the same one.
fn numbers(found: &[u64], count: usize, rest: u64) -> bool {
    let (front, back) = found.split_at(count.min(found.len()));
    let mut same = count <= found.len();
    for number in front {
        same &= *number == list::eight();
    }
    same & back.iter().all(|number| *number == rest)
}

// Whether an answer is the list's.
pub fn answer(found: &Answer) -> bool {
    let count = list::byte() as usize;
    numbers(found, count, 0)
}

// Whether a call answers as the list says.
pub(crate) fn answers<F: FnOnce(&mut Answer)>(call: F) -> bool
    requires { F.IsAlwaysCallable call }
{
    let mut found = [UNTOUCHED; ANSWER_LEN];
    call(&mut found);
    answer(&found)
}

// Whether a call that is given the list's bytes answers as the list says.
pub(crate) fn reads<F: FnOnce(&[u8], &mut Answer)>(call: F) -> bool
    requires { F.IsAlwaysCallable call }
{
    let mut bytes = [0; MOST_BYTES];
    let bytes = list::bytes(&mut bytes);
    answers(|answer| call(bytes, answer))
}

// An array of one byte, of which a call is lent a front as long as the list says.
// Kept: an array with a length: what lies behind the front is compared too.
#[derive(Drop)]
pub struct Filled {
    buf: [u8; MOST_BYTES],
    length: usize,
    filler: u8,
}

impl Filled {
    pub fn next() -> Filled {
        let length = list::four() as usize;
        let filler = list::byte();
        Filled {
            buf: [filler; MOST_BYTES],
            length,
            filler,
        }
    }

    pub fn front(&mut self) -> &mut [u8] {
        let n = self.length.min(MOST_BYTES);
        &mut self.buf[..n]
    }

    // Whether the list's bytes stand there, and behind them what filled the array.
    pub fn is_listed(&self) -> bool {
        let mut wanted = [self.filler; MOST_BYTES];
        list::bytes(&mut wanted);
        self.buf == wanted
    }
}

// Whether a call that writes answers as the list says, and leaves the list's bytes in what it is lent.
pub(crate) fn writes<F: FnOnce(&mut [u8], &mut Answer)>(call: F) -> bool
    requires { F.IsAlwaysCallable call }
{
    let mut lent = Filled::next();
    let same = answers(|found| call(lent.front(), found));
    same & lent.is_listed()
}

// Whether the pair of an index is the wanted one; where none is wanted, zeros stand for it.
fn is_pair(area: &[u8], large: bool, index: usize, wanted: Option<[u64; 2]>) -> bool {
    let mut pair = [UNTOUCHED; 2];
    let there = read::cfdp_nak_pair(area, large, index, &mut pair);
    there == wanted.is_some() && pair == wanted.unwrap_or([0, 0])
}

// Copies the requests of an accepted reading; whether they lie in its bytes, and are the same where each is asked for by its index.
fn copy(answer: &Answer, bytes: &[u8], copied: &mut [u64]) -> bool {
    if answer[0] != 0 {
        return true;
    }
    let large = answer[5] == 1;
    let Some(area) = bytes.get(answer[17] as usize..answer[18] as usize) else {
        return false;
    };
    let count = read::cfdp_nak_pairs(area, large, copied);
    let (pairs, _) = copied.as_chunks::<2>();
    let mut same = is_pair(area, large, count, None);
    for (index, pair) in pairs.iter().take(count).enumerate() {
        same &= is_pair(area, large, index, Some(*pair));
    }
    same
}

// Whether the requests of a reading are the list's pairs; a refused one has none.
pub fn requests(answer: &Answer, bytes: &[u8]) -> bool {
    let mut copied = [UNTOUCHED; MOST_LARGE];
    let same = copy(answer, bytes, &mut copied);
    let count = list::four() as usize;
    same & numbers(&copied, 2 * count, UNTOUCHED)
}
