// Comparing bytes with a NAK that is to be written, with no list, normal pairs or large pairs.
ghost use Rattle.std.specs.Prelude.{◌≡◌, []};
ghost use Rattle.nak.specs.Comparing.{comparing};
ghost use Rattle.cfdp.specs.Given.{given_header, comparing_from};
ghost use Rattle.cfdp.specs.Shown.{shown, verdict_number};

use cfdp::Answer;
use header::LargeFileFlag;

#[unsafe(no_mangle)]
pub extern "C" fn cfdp_nak_compare(
    bytes: &[u8],
    shape: &[u8; 10],
    ids: &[u64; 3],
    start: u64,
    end: u64,
    answer: &mut Answer,
)
    ensures { answer.new ≡ shown verdict_number (comparing_from (given_header shape.now ids.now) (λ h. comparing h.file h start end [] bytes.now) bytes.now) }
{
    cfdp::compare::cfdp_nak_compare(bytes, shape, ids, start, end, answer)
}

#[unsafe(no_mangle)]
pub extern "C" fn cfdp_nak_compare_normal(
    bytes: &[u8],
    shape: &[u8; 10],
    ids: &[u64; 3],
    start: u64,
    end: u64,
    numbers: &[u32],
    answer: &mut Answer,
)
    ensures { answer.new ≡ shown verdict_number (comparing_from (given_header shape.now ids.now) (λ h. comparing LargeFileFlag.Normal h start end numbers.now bytes.now) bytes.now) }
{
    cfdp::compare::cfdp_nak_compare_normal(bytes, shape, ids, start, end, numbers, answer)
}

#[unsafe(no_mangle)]
pub extern "C" fn cfdp_nak_compare_large(
    bytes: &[u8],
    shape: &[u8; 10],
    ids: &[u64; 3],
    start: u64,
    end: u64,
    numbers: &[u64],
    answer: &mut Answer,
)
    ensures { answer.new ≡ shown verdict_number (comparing_from (given_header shape.now ids.now) (λ h. comparing LargeFileFlag.Large h start end numbers.now bytes.now) bytes.now) }
{
    cfdp::compare::cfdp_nak_compare_large(bytes, shape, ids, start, end, numbers, answer)
}
