// Reading and writing an ACK.
ghost use Rattle.std.specs.Prelude.{◌≡◌, length};
ghost use Rattle.fields.specs.Answer.{and_then};
ghost use Rattle.fields.specs.Staged.{run};
ghost use Rattle.ack.specs.Ack.{status_of};
ghost use Rattle.ack.specs.Reading.{reading_ack};
ghost use Rattle.ack.specs.Writing.{writing_ack, ack_memory};
ghost use Rattle.cfdp.specs.Given.{given_header, left_by, ack_from};
ghost use Rattle.cfdp.specs.Shown.{shown, ack_numbers, written_numbers};

use crate::{Answer, Numbers, header_from, show, show_header, with_header};
use ack::Ack;
use ack::status::TransactionStatus;

impl Numbers for Ack {
    ghost numbers = { ack_numbers };

    fn put(self, answer: &mut Answer) {
        let header = self.header;
        let status = self.status.bits() as u64;
        let stop = header.data_end() as u64;
        show_header(
            header,
            self.acked as u64,
            self.condition as u64,
            status,
            stop,
            0,
            answer,
        )
    }
}

pub fn cfdp_ack_read(bytes: &[u8], answer: &mut Answer)
    ensures { answer.new ≡ shown ack_numbers (run reading_ack bytes.now) }
{
    show(Ack::from_bytes(bytes), answer)
}

pub fn cfdp_ack_write(
    shape: &[u8; 10],
    ids: &[u64; 3],
    directive: u8,
    condition: u8,
    status: u8,
    buf: &mut [u8],
    answer: &mut Answer,
)
    ensures answered { answer.new ≡ shown written_numbers (and_then (given_header shape.now ids.now) (λ h. writing_ack (ack_from h directive condition (status_of status)) (length buf.old))) }
    ensures stored { buf.new ≡ left_by (given_header shape.now ids.now) (λ h. ack_memory (ack_from h directive condition (status_of status)) buf.old) buf.old }
{
    let joined = header_from(shape, 0, ids);
    let written = with_header(joined, buf, |header, buf| {
        let ack = Ack {
            header,
            acked: directive,
            condition,
            status: TransactionStatus::from_bits(status),
        };
        ack.write_to_slice(buf)
    });
    show(written, answer)
}
