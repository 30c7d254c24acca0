// The checksum and the header: read, built, written, verified.
ghost use Rattle.std.specs.Prelude.{◌≡◌, length};
ghost use Rattle.fields.specs.Checksum.{checksum_of};
ghost use Rattle.fields.specs.Answer.{and_then, answer_of};
ghost use Rattle.fields.specs.Staged.{run};
ghost use Rattle.header.specs.Judging.{judging};
ghost use Rattle.header.specs.Reading.{reading_header};
ghost use Rattle.header.specs.Verifying.{verifying};
ghost use Rattle.header.specs.Writing.{writing_header, header_memory};
ghost use Rattle.cfdp.specs.Given.{header_from, left_by};
ghost use Rattle.cfdp.specs.Shown.{shown, header_numbers, one_number, read_header_numbers};

use crate::{Answer, header_from, show, show_header, show_refusal, with_header};
use fields::{Refusal, crc};
use header::PduHeader;

pub fn cfdp_checksum(bytes: &[u8]) -> u16
    ensures { result ≡ checksum_of bytes.now }
{
    crc::checksum(bytes)
}

pub fn cfdp_header_read(bytes: &[u8], answer: &mut Answer)
    ensures { answer.new ≡ shown read_header_numbers (run reading_header bytes.now) }
{
    let read = PduHeader::from_bytes(bytes);
    match read {
        Err(refusal) => show_refusal(refusal, answer),
        Ok(header) => {
            let length = header.header_len() as u64;
            show_header(header, length, 0, 0, 0, 0, answer)
        }
    }
}

pub fn cfdp_header_build(shape: &[u8; 10], data_length: u16, ids: &[u64; 3], answer: &mut Answer)
    ensures { answer.new ≡ shown header_numbers (and_then (header_from shape.now data_length ids.now) judging) }
{
    let joined = header_from(shape, data_length, ids);
    let built = joined.and_then(|header| header.judged());
    show(built, answer)
}

pub fn cfdp_header_write(
    shape: &[u8; 10],
    data_length: u16,
    ids: &[u64; 3],
    buf: &mut [u8],
    answer: &mut Answer,
)
    ensures answered { answer.new ≡ shown one_number (and_then (header_from shape.now data_length ids.now) (λ h. writing_header h (length buf.old))) }
    ensures stored { buf.new ≡ left_by (header_from shape.now data_length ids.now) (λ h. header_memory h buf.old) buf.old }
{
    let joined = header_from(shape, data_length, ids);
    let written = with_header(joined, buf, |header, buf| header.write_to_slice(buf));
    show(written, answer)
}

pub fn cfdp_header_verify(
    shape: &[u8; 10],
    data_length: u16,
    ids: &[u64; 3],
    bytes: &[u8],
    answer: &mut Answer,
)
    ensures { answer.new ≡ shown one_number (and_then (header_from shape.now data_length ids.now) (λ h. run (verifying h) bytes.now)) }
{
    let joined = header_from(shape, data_length, ids);
    let verified = joined.and_then(|header| header.verify_length_and_checksum(bytes));
    show(verified, answer)
}
