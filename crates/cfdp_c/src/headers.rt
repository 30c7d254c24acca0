// The checksum and the header: read, built, written, verified.
ghost use Rattle.std.specs.Prelude.{◌≡◌, length};
ghost use Rattle.fields.specs.Checksum.{checksum_of};
ghost use Rattle.fields.specs.Answer.{and_then};
ghost use Rattle.fields.specs.Staged.{run};
ghost use Rattle.header.specs.Judging.{judging};
ghost use Rattle.header.specs.Reading.{reading_header};
ghost use Rattle.header.specs.Verifying.{verifying};
ghost use Rattle.header.specs.Writing.{writing_header, header_memory};
ghost use Rattle.cfdp.specs.Given.{header_from, left_by};
ghost use Rattle.cfdp.specs.Shown.{shown, header_numbers, one_number, read_header_numbers};

use cfdp::Answer;

#[unsafe(no_mangle)]
pub extern "C" fn cfdp_checksum(bytes: &[u8]) -> u16
    ensures { result ≡ checksum_of bytes.now }
{
    cfdp::headers::cfdp_checksum(bytes)
}

#[unsafe(no_mangle)]
pub extern "C" fn cfdp_header_read(bytes: &[u8], answer: &mut Answer)
    ensures { answer.new ≡ shown read_header_numbers (run reading_header bytes.now) }
{
    cfdp::headers::cfdp_header_read(bytes, answer)
}

#[unsafe(no_mangle)]
pub extern "C" fn cfdp_header_build(
    shape: &[u8; 10],
    data_length: u16,
    ids: &[u64; 3],
    answer: &mut Answer,
)
    ensures { answer.new ≡ shown header_numbers (and_then (header_from shape.now data_length ids.now) judging) }
{
    cfdp::headers::cfdp_header_build(shape, data_length, ids, answer)
}

#[unsafe(no_mangle)]
pub extern "C" fn cfdp_header_write(
    shape: &[u8; 10],
    data_length: u16,
    ids: &[u64; 3],
    buf: &mut [u8],
    answer: &mut Answer,
)
    ensures answered { answer.new ≡ shown one_number (and_then (header_from shape.now data_length ids.now) (λ h. writing_header h (length buf.old))) }
    ensures stored { buf.new ≡ left_by (header_from shape.now data_length ids.now) (λ h. header_memory h buf.old) buf.old }
{
    cfdp::headers::cfdp_header_write(shape, data_length, ids, buf, answer)
}

#[unsafe(no_mangle)]
pub extern "C" fn cfdp_header_verify(
    shape: &[u8; 10],
    data_length: u16,
    ids: &[u64; 3],
    bytes: &[u8],
    answer: &mut Answer,
)
    ensures { answer.new ≡ shown one_number (and_then (header_from shape.now data_length ids.now) (λ h. run (verifying h) bytes.now)) }
{
    cfdp::headers::cfdp_header_verify(shape, data_length, ids, bytes, answer)
}
