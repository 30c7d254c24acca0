// Writing a NAK, with no list, normal pairs or large pairs, and how many pairs a packet holds.
ghost use Rattle.std.specs.Prelude.{◌≡◌, [], length};
ghost use Rattle.fields.specs.Answer.{and_then, answer_of};
ghost use Rattle.nak.specs.Counting.{most_requests};
ghost use Rattle.nak.specs.Writing.{writing_nak, nak_memory};
ghost use Rattle.cfdp.specs.Given.{given_header, left_by};
ghost use Rattle.cfdp.specs.Shown.{shown, one_number, written_numbers};

use crate::{Answer, header_from, show, with_header};
use fields::Refusal;
use header::LargeFileFlag;
use nak::{count, write};

pub fn cfdp_nak_write(
    shape: &[u8; 10],
    ids: &[u64; 3],
    start: u64,
    end: u64,
    buf: &mut [u8],
    answer: &mut Answer,
)
    ensures answered { answer.new ≡ shown written_numbers (and_then (given_header shape.now ids.now) (λ h. writing_nak h.file h start end 0 (length buf.old))) }
    ensures stored { buf.new ≡ left_by (given_header shape.now ids.now) (λ h. nak_memory h.file h start end [] buf.old) buf.old }
{
    let joined = header_from(shape, 0, ids);
    let written = with_header(joined, buf, |header, buf| {
        write::write_no_segment_requests(header, start, end, buf)
    });
    show(written, answer)
}

pub fn cfdp_nak_write_normal(
    shape: &[u8; 10],
    ids: &[u64; 3],
    start: u64,
    end: u64,
    numbers: &[u32],
    buf: &mut [u8],
    answer: &mut Answer,
)
    ensures answered { answer.new ≡ shown written_numbers (and_then (given_header shape.now ids.now) (λ h. writing_nak LargeFileFlag.Normal h start end (length numbers.now) (length buf.old))) }
    ensures stored { buf.new ≡ left_by (given_header shape.now ids.now) (λ h. nak_memory LargeFileFlag.Normal h start end numbers.now buf.old) buf.old }
{
    let joined = header_from(shape, 0, ids);
    let written = with_header(joined, buf, |header, buf| {
        write::write_numbers(header, start, end, numbers, buf)
    });
    show(written, answer)
}

pub fn cfdp_nak_write_large(
    shape: &[u8; 10],
    ids: &[u64; 3],
    start: u64,
    end: u64,
    numbers: &[u64],
    buf: &mut [u8],
    answer: &mut Answer,
)
    ensures answered { answer.new ≡ shown written_numbers (and_then (given_header shape.now ids.now) (λ h. writing_nak LargeFileFlag.Large h start end (length numbers.now) (length buf.old))) }
    ensures stored { buf.new ≡ left_by (given_header shape.now ids.now) (λ h. nak_memory LargeFileFlag.Large h start end numbers.now buf.old) buf.old }
{
    let joined = header_from(shape, 0, ids);
    let written = with_header(joined, buf, |header, buf| {
        write::write_numbers(header, start, end, numbers, buf)
    });
    show(written, answer)
}

pub fn cfdp_nak_most(shape: &[u8; 10], ids: &[u64; 3], packet: usize, answer: &mut Answer)
    ensures { answer.new ≡ shown one_number (and_then (given_header shape.now ids.now) (λ h. most_requests h packet)) }
{
    let joined = header_from(shape, 0, ids);
    let most = joined.and_then(|header| count::calculate_max_segment_requests(packet, header));
    show(most, answer)
}
