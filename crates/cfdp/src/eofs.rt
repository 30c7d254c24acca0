// Reading and writing an EOF.
ghost use Rattle.std.specs.Prelude.{◌≡◌, [], ◌∷◌, length};
ghost use Rattle.fields.specs.Answer.{and_then};
ghost use Rattle.fields.specs.Staged.{run};
ghost use Rattle.eof.specs.Reading.{reading_eof};
ghost use Rattle.eof.specs.Writing.{writing_eof, eof_memory};
ghost use Rattle.cfdp.specs.Given.{given_header, left_by, fault_from, eof_from};
ghost use Rattle.cfdp.specs.Shown.{shown, fault_numbers, eof_numbers, written_numbers};

use crate::{Answer, Numbers, header_from, show, show_header, with_header};
use eof::Eof;
use eof::fault::EntityIdTlv;
use fields::EntityId;

// A fault location as numbers: 1 where there is one, its width and its value; else zeros.
fn fault_numbers(fault: Option<EntityIdTlv>) -> [u64; 3]
    ensures { result ≡ fault_numbers fault }
{
    match fault {
        None => [0; 3],
        Some(tlv) => [1, tlv.width as u64, tlv.id.0],
    }
}

// Kept: a flag with two numbers, since C lends a fault location so.
fn fault_from(there: bool, width: u8, value: u64) -> Option<EntityIdTlv>
    ensures { result ≡ fault_from there width value }
{
    if !there {
        return None;
    }
    Some(EntityIdTlv {
        width,
        id: EntityId(value),
    })
}

impl Numbers for Eof {
    ghost numbers = { eof_numbers };

    // The last two numbers lie behind those that stand behind a header.
    fn put(self, answer: &mut Answer) {
        let header = self.header;
        let stop = header.data_end() as u64;
        let condition = self.condition as u64;
        let checksum = self.file_checksum as u64;
        let [there, width, value] = fault_numbers(self.fault);
        show_header(header, condition, checksum, self.size, there, width, answer);
        answer[20] = value;
        answer[21] = stop;
    }
}

pub fn cfdp_eof_read(bytes: &[u8], answer: &mut Answer)
    ensures { answer.new ≡ shown eof_numbers (run reading_eof bytes.now) }
{
    show(Eof::from_bytes(bytes), answer)
}

pub fn cfdp_eof_write(
    shape: &[u8; 10],
    ids: &[u64; 3],
    condition: u8,
    file_checksum: u32,
    file_size: u64,
    fault: bool,
    fault_width: u8,
    fault_value: u64,
    buf: &mut [u8],
    answer: &mut Answer,
)
    ensures answered { answer.new ≡ shown written_numbers (and_then (given_header shape.now ids.now) (λ h. writing_eof (eof_from h condition file_checksum file_size (fault_from fault fault_width fault_value)) (length buf.old))) }
    ensures stored { buf.new ≡ left_by (given_header shape.now ids.now) (λ h. eof_memory (eof_from h condition file_checksum file_size (fault_from fault fault_width fault_value)) buf.old) buf.old }
{
    let joined = header_from(shape, 0, ids);
    let written = with_header(joined, buf, |header, buf| {
        let eof = Eof {
            header,
            condition,
            file_checksum,
            size: file_size,
            fault: fault_from(fault, fault_width, fault_value),
        };
        eof.write_to_slice(buf)
    });
    show(written, answer)
}
