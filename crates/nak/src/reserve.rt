// Reserving room for requests that the caller fills in, and finishing the NAK around them (the Rust's `NakPduCreatorWithReservedSeqReqsBuf`).
ghost use Rattle.std.specs.Prelude.{◌≡◌, [], ◌∷◌, length};
ghost use Rattle.fields.specs.Answer.{first_of, answer_of};
ghost use Rattle.nak.specs.Writing.{data_length, too_many};
ghost use Rattle.nak.specs.Reserving.{placed, reserving, finish_tests, finishing, finished_memory};

use crate::{area_start, write};
use fields::Refusal;
use header::pdu::PduWritten;
use header::{CrcFlag, LargeFileFlag, PduHeader};

// The header that was reserved for, the pairs, and where their bytes start and stop in the buffer.
#[derive(Clone, Copy, Debug, PartialEq, Eq)]
pub struct ReservedNak {
    pub header: PduHeader,
    pub count: usize,
    pub area: usize,
    pub stop: usize,
}

// Behind the scope lies room for the requests, up to the end of the data.
fn place(header: PduHeader, count: usize) -> ReservedNak
    ensures { result ≡ placed header count }
{
    ReservedNak {
        header,
        count,
        area: area_start(header),
        stop: header.data_end(),
    }
}

// Reserving's own test, 10: the length of the data field.
fn pairs_length(file: LargeFileFlag, crc: CrcFlag, pairs: usize) -> Result<u16, Refusal>
    ensures { answer_of result ≡ first_of (too_many file pairs ∷ []) (data_length file crc pairs) }
{
    write::judge_pairs(file, pairs)?;
    Ok(write::length_of(file, crc, pairs))
}

// Finishing's own tests, 10 and 9: the length of the data field.
fn finished_length(
    file: LargeFileFlag,
    crc: CrcFlag,
    pairs: usize,
    start: u64,
    end: u64,
) -> Result<u16, Refusal>
    ensures { answer_of result ≡ first_of (finish_tests file pairs start end) (data_length file crc pairs) }
{
    let length = pairs_length(file, crc, pairs)?;
    write::judge_scope(file, start, end)?;
    Ok(length)
}

// A NAK around the bytes of so many pairs, which stand in the buffer and stay as they are.
pub(crate) fn write_around(
    header: PduHeader,
    pairs: usize,
    start: u64,
    end: u64,
    buf: &mut [u8],
) -> Result<PduWritten, Refusal>
    ensures answered { answer_of result ≡ finishing (placed header pairs) start end (length buf.old) }
    ensures stored { buf.new ≡ finished_memory (placed header pairs) start end buf.old }
{
    let file = header.file;
    let crc = header.crc;
    let own = finished_length(file, crc, pairs, start, end);
    let header = write::towards_sender(header, file).with_data(own);
    let length = header.begin_write(own, buf)?;
    write::put_scope(buf, header, start, end);
    header.seal(buf);
    Ok(PduWritten { header, length })
}

impl ReservedNak {
    // Changes no byte: the caller fills the request area and lends the buffer again to `finish`.
    pub fn new(header: PduHeader, count: usize, buf: &[u8]) -> Result<ReservedNak, Refusal>
        ensures { answer_of result ≡ reserving header count (length buf.now) }
    {
        let file = header.file;
        let crc = header.crc;
        let own = pairs_length(file, crc, count);
        let header = write::towards_sender(header, file).with_data(own);
        header.judge_write(own, buf.len())?;
        Ok(place(header, count))
    }

    // Judges the record and the buffer anew, whatever was done to them since; the request bytes stay as the caller filled them.
    pub fn finish(self, start: u64, end: u64, buf: &mut [u8]) -> Result<PduWritten, Refusal>
        ensures answered { answer_of result ≡ finishing self start end (length buf.old) }
        ensures stored { buf.new ≡ finished_memory self start end buf.old }
    {
        let header = self.header;
        write_around(header, self.count, start, end, buf)
    }
}
