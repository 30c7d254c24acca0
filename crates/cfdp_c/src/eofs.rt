// Reading and writing an EOF.
ghost use Rattle.std.specs.Prelude.{◌≡◌, length};
ghost use Rattle.fields.specs.Answer.{and_then};
ghost use Rattle.fields.specs.Staged.{run};
ghost use Rattle.eof.specs.Reading.{reading_eof};
ghost use Rattle.eof.specs.Writing.{writing_eof, eof_memory};
ghost use Rattle.cfdp.specs.Given.{given_header, left_by, fault_from, eof_from};
ghost use Rattle.cfdp.specs.Shown.{shown, eof_numbers, written_numbers};

use cfdp::Answer;

#[unsafe(no_mangle)]
pub extern "C" fn cfdp_eof_read(bytes: &[u8], answer: &mut Answer)
    ensures { answer.new ≡ shown eof_numbers (run reading_eof bytes.now) }
{
    cfdp::eofs::cfdp_eof_read(bytes, answer)
}

#[unsafe(no_mangle)]
pub extern "C" fn cfdp_eof_write(
    shape: &[u8; 10],
    ids: &[u64; 3],
    condition: u8,
    file_checksum: u32,
    file_size: u64,
    fault: bool,
    fault_width: u8,
    fault_value: u64,
    buf: &mut [u8],
    answer: &mut Answer,
)
    ensures answered { answer.new ≡ shown written_numbers (and_then (given_header shape.now ids.now) (λ h. writing_eof (eof_from h condition file_checksum file_size (fault_from fault fault_width fault_value)) (length buf.old))) }
    ensures stored { buf.new ≡ left_by (given_header shape.now ids.now) (λ h. eof_memory (eof_from h condition file_checksum file_size (fault_from fault fault_width fault_value)) buf.old) buf.old }
{
    cfdp::eofs::cfdp_eof_write(
        shape,
        ids,
        condition,
        file_checksum,
        file_size,
        fault,
        fault_width,
        fault_value,
        buf,
        answer,
    )
}
