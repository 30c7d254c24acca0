// Comparing a buffer with a NAK to be written (the Rust's `NakPduReader == NakPduCreator`): with no list, a list of 32-bit numbers, or a list of 64-bit numbers.
ghost use Rattle.std.specs.Prelude.{◌≡◌, [], length};
ghost use Rattle.fields.specs.Answer.{accepted, answer_of};
ghost use Rattle.header.specs.Size.{size_width};
ghost use Rattle.nak.specs.Comparing.{same_nak, holds_numbers, comparing};
ghost use Rattle.nak.specs.Within.{comparing_read};

use crate::offset::Offset;
use crate::{Nak, offset_at, write};
use fields::Refusal;
use header::{LargeFileFlag, PduHeader, size};

#[tactic(auto, unfolding(crate::specs::Comparing::same_nak))]
fn same_nak(nak: Nak, header: PduHeader, start: u64, end: u64) -> bool
    ensures { result ≡ same_nak nak header start end }
{
    nak.header == header && nak.start == start && nak.end == end
}

// Whether an area is exactly those numbers.
fn holds_numbers<T: Offset>(area: &[u8], numbers: &[T]) -> bool
    ensures { result ≡ holds_numbers (size_width T.file) area.now (T.numbers numbers.now) }
{
    let file = T::file_flag();
    let width = size::size_width(file);
    // Kept: a place in the area. As a slice of what is left, read by `read_be`, comparing 8,190 pairs took 21 us, the old form 16, this 11.
    let mut at = 0;
    for &n in numbers {
        if area.len() - at < width {
            return false;
        }
        if offset_at(area, at, file) != n.number() {
            return false;
        }
        at += width;
    }
    at == area.len()
}

// A NAK that was read, beside one to be written; `held` is whether its request area is exactly the list.
fn compare_read(
    nak: Nak,
    header: PduHeader,
    file: LargeFileFlag,
    start: u64,
    end: u64,
    count: usize,
    held: bool,
) -> Result<bool, Refusal>
    ensures { answer_of result ≡ comparing_read file header start end count nak held }
{
    header.judged_directive()?;
    let crc = header.crc;
    let d = write::data_length(file, crc, start, end, count)?;
    let handed = write::towards_sender(header, file).with_datafield_len(d);
    Ok(same_nak(nak, handed, start, end) && held)
}

// No list: the header's file flag stands, and no byte may follow the scope.
pub fn compare_no_segment_requests(
    buf: &[u8],
    header: PduHeader,
    start: u64,
    end: u64,
) -> Result<bool, Refusal>
    ensures { answer_of result ≡ comparing header.file header start end [] buf.now }
{
    let nak = Nak::from_bytes(buf)?;
    let held = nak.request_area(buf).is_empty();
    compare_read(nak, header, header.file, start, end, 0, held)
}

// A list decides the file flag, as where it is written.
pub fn compare_numbers<T: Offset>(
    buf: &[u8],
    header: PduHeader,
    start: u64,
    end: u64,
    numbers: &[T],
) -> Result<bool, Refusal>
    ensures { answer_of result ≡ comparing T.file header start end (T.numbers numbers.now) buf.now }
{
    let nak = Nak::from_bytes(buf)?;
    let held = holds_numbers(nak.request_area(buf), numbers);
    compare_read(nak, header, T::file_flag(), start, end, numbers.len(), held)
}
