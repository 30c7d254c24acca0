// The records of Metadata PDUs: reads what goes in, calls the library, compares; of a reading its options too, walked one by one.
use crate::expected::UNTOUCHED;
use crate::list::MOST_BYTES;
use crate::{expected, list};
use cfdp::{ANSWER_LEN, Answer, metadatas};

// Whether an option is the list's next: its type, where its value starts and stops, and that the next begins there.
fn is_option(option: &Answer) -> bool {
    let kind = list::eight();
    let start = list::eight();
    let stop = list::eight();
    option[..5] == [0, kind, start, stop, stop]
}

fn option_at(area: &[u8], at: usize) -> Answer {
    let mut option = [UNTOUCHED; ANSWER_LEN];
    metadatas::cfdp_metadata_option(area, at, &mut option);
    option
}

// Whether so many options are the list's, and then the end is told.
// Kept: a place and a walk by hand: what is tested here is `cfdp_metadata_option`, which C calls by place.
fn walked(area: &[u8], count: usize) -> bool {
    let mut same = true;
    let mut at = 0;
    for _ in 0..count {
        let option = option_at(area, at);
        same &= is_option(&option);
        at = option[4] as usize;
    }
    let end = option_at(area, at);
    same & (at == area.len()) & (end[0] == 0) & (end[4] == 0)
}

// Whether the options of a reading are the list's; a refused one has none, and an area that does not lie in the bytes is empty.
fn options(answer: &Answer, bytes: &[u8]) -> bool {
    let count = list::four() as usize;
    let area = bytes.get(answer[22] as usize..answer[23] as usize);
    match area {
        Some(area) if answer[0] == 0 => walked(area, count),
        _ => walked(&[], count),
    }
}

pub fn metadata_read() -> bool {
    let mut bytes = [0; MOST_BYTES];
    let bytes = list::bytes(&mut bytes);
    let mut answer = [UNTOUCHED; ANSWER_LEN];
    metadatas::cfdp_metadata_read(bytes, &mut answer);
    let same = expected::answer(&answer);
    same & options(&answer, bytes)
}

// The names and options of a record have at most 1,000 bytes each.
pub fn metadata_write() -> bool {
    let header = list::Header::next();
    let closure = list::byte() != 0;
    let kind = list::byte();
    let size = list::eight();
    let mut source = [0; 1000];
    let source = list::bytes(&mut source);
    let mut destination = [0; 1000];
    let destination = list::bytes(&mut destination);
    let mut options = [0; 1000];
    let options = list::bytes(&mut options);
    expected::writes(|buf, answer| {
        metadatas::cfdp_metadata_write(
            &header.shape,
            &header.ids,
            closure,
            kind,
            size,
            source,
            destination,
            options,
            buf,
            answer,
        )
    })
}
