// Comparing bytes with a NAK that is to be written, with no list, normal pairs or large pairs.
ghost use Rattle.std.specs.Prelude.{◌≡◌, [], Bool};
ghost use Rattle.fields.specs.Answer.{Answer, told, and_then, answer_of};
ghost use Rattle.fields.specs.Refusal.{paper};
ghost use Rattle.fields.specs.Staged.{run};
ghost use Rattle.nak.specs.Reading.{reading_nak};
ghost use Rattle.nak.specs.Comparing.{comparing};
ghost use Rattle.cfdp.specs.Given.{given_header, comparing_from};
ghost use Rattle.cfdp.specs.Shown.{shown, verdict_number};

use crate::{Answer, header_from, show};
use fields::Refusal;
use header::LargeFileFlag;
use nak::{Nak, compare};

// The reader's refusal, if it has one, and else the one given.
fn reader_first(bytes: &[u8], refusal: Refusal) -> Refusal
    ensures { ◌≡◌ {A = Answer Bool} (told (paper result)) (and_then (run reading_nak bytes.now) (λ _. told (paper refusal))) }
{
    let read = Nak::from_bytes(bytes);
    match read {
        Err(first) => first,
        Ok(_) => refusal,
    }
}

pub fn cfdp_nak_compare(
    bytes: &[u8],
    shape: &[u8; 10],
    ids: &[u64; 3],
    start: u64,
    end: u64,
    answer: &mut Answer,
)
    ensures { answer.new ≡ shown verdict_number (comparing_from (given_header shape.now ids.now) (λ h. comparing h.file h start end [] bytes.now) bytes.now) }
{
    let joined = header_from(shape, 0, ids).map_err(|refusal| reader_first(bytes, refusal));
    let compared = joined.and_then(|header| {
        compare::compare_no_segment_requests(bytes, header, start, end)
    });
    show(compared, answer)
}

pub fn cfdp_nak_compare_normal(
    bytes: &[u8],
    shape: &[u8; 10],
    ids: &[u64; 3],
    start: u64,
    end: u64,
    numbers: &[u32],
    answer: &mut Answer,
)
    ensures { answer.new ≡ shown verdict_number (comparing_from (given_header shape.now ids.now) (λ h. comparing LargeFileFlag.Normal h start end numbers.now bytes.now) bytes.now) }
{
    let joined = header_from(shape, 0, ids).map_err(|refusal| reader_first(bytes, refusal));
    let compared = joined.and_then(|header| {
        compare::compare_numbers(bytes, header, start, end, numbers)
    });
    show(compared, answer)
}

pub fn cfdp_nak_compare_large(
    bytes: &[u8],
    shape: &[u8; 10],
    ids: &[u64; 3],
    start: u64,
    end: u64,
    numbers: &[u64],
    answer: &mut Answer,
)
    ensures { answer.new ≡ shown verdict_number (comparing_from (given_header shape.now ids.now) (λ h. comparing LargeFileFlag.Large h start end numbers.now bytes.now) bytes.now) }
{
    let joined = header_from(shape, 0, ids).map_err(|refusal| reader_first(bytes, refusal));
    let compared = joined.and_then(|header| {
        compare::compare_numbers(bytes, header, start, end, numbers)
    });
    show(compared, answer)
}
