// Writing a NAK (the Rust's `NakPduCreator`): with no list, a list of 32-bit numbers, or a list of 64-bit numbers, start and end by turns.
ghost use Rattle.std.specs.Prelude.{◌≡◌, [], ◌∷◌, ◌+◌, ◌*◌, ◌/◌, ◌≤◌, length};
ghost use Rattle.std.proofs.lemmas.List.Edits.{sets};
ghost use Rattle.fields.specs.Answer.{first_of, all_of, answer_of};
ghost use Rattle.fields.proofs.Judging.{Passed};
ghost use Rattle.header.specs.Header.{header_length};
ghost use Rattle.header.specs.Size.{size_width};
ghost use Rattle.nak.specs.Nak.{area_start};
ghost use Rattle.nak.specs.Writing.{numbers_bytes, scope_bytes, data_length, most_pairs, scope_fits, scope_too_large, too_many, own_tests, writing_nak, nak_memory};
ghost use Rattle.nak.specs.Within.{towards_sender};

use crate::offset::Offset;
use crate::{NAK_CODE, SCOPE_AT, area_start, reserve};
use fields::{Refusal, be};
use header::pdu::PduWritten;
use header::{CRC_LEN, CrcFlag, Direction, Flag, LargeFileFlag, PduHeader, size};

// The pairs that fit a data field of 65,535 bytes, with or without CRC.
const MAX_NORMAL_PAIRS: usize = 8190;

const MAX_LARGE_PAIRS: usize = 4094;

pub(crate) fn most_pairs(file: LargeFileFlag) -> usize
    ensures { result ≡ most_pairs file }
{
    match file {
        LargeFileFlag::Normal => MAX_NORMAL_PAIRS,
        LargeFileFlag::Large => MAX_LARGE_PAIRS,
    }
}

#[tactic(auto, unfolding(crate::specs::Writing::scope_fits))]
fn scope_fits(file: LargeFileFlag, start: u64, end: u64) -> bool
    ensures { result ≡ scope_fits file start end }
{
    size::fits_size(file, start) && size::fits_size(file, end)
}

// 9: in a large NAK every scope fits.
// Kept: start and end apart, here and where a NAK is written, finished and compared: the public clauses name each, and C lends them so.
pub fn judge_scope(file: LargeFileFlag, start: u64, end: u64) -> Result<(), Refusal>
    ensures { answer_of result ≡ all_of (scope_too_large file start end ∷ []) }
{
    if let LargeFileFlag::Large = file {
        return Ok(());
    }
    if !scope_fits(file, start, end) {
        return Err(Refusal::InvalidStartOrEndOfScope { start, end });
    }
    Ok(())
}

// 10
pub(crate) fn judge_pairs(file: LargeFileFlag, pairs: usize) -> Result<(), Refusal>
    ensures { answer_of result ≡ all_of (too_many file pairs ∷ []) }
{
    let most = most_pairs(file);
    if most < pairs {
        return Err(Refusal::TooManySegmentRequests { found: pairs, most });
    }
    Ok(())
}

// The data field's length is computed wide; so many pairs fit, and so it fits 16 bits.
// Kept: file and crc apart, here and below: a header has both, but the file flag is the list's where there is one.
pub(crate) fn length_of(file: LargeFileFlag, crc: CrcFlag, pairs: usize) -> u16
    requires { pairs ≤ most_pairs file }
    ensures { result ≡ data_length file crc pairs }
{
    let pair = 2 * size::size_width(file);
    let sum = CRC_LEN * (crc.bit() as usize);
    let wide = SCOPE_AT + pair + pairs * pair + sum;
    wide as u16
}

// The NAK's own tests, 12, 9 and 10: the length of its data field.
pub(crate) fn data_length(
    file: LargeFileFlag,
    crc: CrcFlag,
    start: u64,
    end: u64,
    count: usize,
) -> Result<u16, Refusal>
    ensures { answer_of result ≡ first_of (own_tests file start end count) (data_length file crc (count / 2)) }
{
    if count % 2 != 0 {
        return Err(Refusal::OddCount(count));
    }
    judge_scope(file, start, end)?;
    let pairs = count / 2;
    judge_pairs(file, pairs)?;
    Ok(length_of(file, crc, pairs))
}

// The header that a NAK is begun with: direction towards the sender, the file flag of the list.
pub(crate) fn towards_sender(header: PduHeader, file: LargeFileFlag) -> PduHeader
    ensures { result ≡ towards_sender file header }
{
    header
        .with_direction(Direction::TowardsSender)
        .with_file_flag(file)
}

// Directive and scope, behind the header.
pub(crate) fn put_scope(buf: &mut [u8], header: PduHeader, start: u64, end: u64)
    requires { (area_start header ≤ length buf.old) × Passed (scope_too_large header.file start end ∷ []) }
    ensures { buf.new ≡ sets buf.old (header_length header) (scope_bytes header.file start end) }
{
    let at = header.header_len();
    let file = header.file;
    let width = size::size_width(file);
    let first = at + SCOPE_AT;
    let second = first + width;
    be::write_be(buf, at, 1, NAK_CODE as u64);
    be::write_be(buf, first, width, start);
    be::write_be(buf, second, width, end);
}

// Numbers, one behind the other from `at`, a pair at a time.
fn put_numbers<T: Offset>(buf: &mut [u8], at: usize, numbers: &[T])
    requires { (at + size_width T.file * length numbers.now ≤ length buf.old) × (length numbers.now ≡ 2 * (length numbers.now / 2)) }
    ensures { (buf.new ≡ sets buf.old at (numbers_bytes (size_width T.file) (T.numbers numbers.now))) × (length buf.new ≡ length buf.old) }
{
    let pair = 2 * size::size_width(T::file_flag());
    for i in 0..numbers.len() / 2 {
        let from = at + pair * i;
        T::put_pair(&mut buf[from..from + pair], &numbers[2 * i..2 * i + 2]);
    }
}

// No list: the header's file flag stands, and there is room for no pair.
pub fn write_no_segment_requests(
    header: PduHeader,
    start: u64,
    end: u64,
    buf: &mut [u8],
) -> Result<PduWritten, Refusal>
    ensures answered { answer_of result ≡ writing_nak header.file header start end 0 (length buf.old) }
    ensures stored { buf.new ≡ nak_memory header.file header start end [] buf.old }
{
    reserve::write_around(header, 0, start, end, buf)
}

// A list, even an empty one, decides the file flag: one of 32-bit numbers clears it, one of 64-bit numbers sets it.
pub fn write_numbers<T: Offset>(
    header: PduHeader,
    start: u64,
    end: u64,
    numbers: &[T],
    buf: &mut [u8],
) -> Result<PduWritten, Refusal>
    ensures answered { answer_of result ≡ writing_nak T.file header start end (length numbers.now) (length buf.old) }
    ensures stored { buf.new ≡ nak_memory T.file header start end (T.numbers numbers.now) buf.old }
{
    let file = T::file_flag();
    let own = data_length(file, header.crc, start, end, numbers.len());
    let header = towards_sender(header, file).with_data(own);
    let length = header.begin_write(own, buf)?;
    put_scope(buf, header, start, end);
    put_numbers(buf, area_start(header), numbers);
    header.seal(buf);
    Ok(PduWritten { header, length })
}
