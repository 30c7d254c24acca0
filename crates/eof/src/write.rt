// Writing an EOF.
ghost use Rattle.std.specs.Prelude.{◌≡◌, ◌+◌, ◌≤◌, length};
ghost use Rattle.std.proofs.lemmas.List.Edits.{sets};
ghost use Rattle.fields.specs.Answer.{first_of, all_of, answer_of};
ghost use Rattle.fields.proofs.Judging.{Passed};
ghost use Rattle.eof.specs.Writing.{eof_data, eof_size, eof_length, own_tests, writing_eof, eof_memory};

use crate::{EOF_CODE, Eof, SIZE_AT, fault};
use fields::{Refusal, be};
use header::condition::judge_condition;
use header::pdu::PduWritten;
use header::{CRC_LEN, Direction, Flag, size};

// The EOF's own tests, which stand behind the record's: 16, 29, and 3 and 14 for the fault location.
#[tactic(auto, using(fields::proofs::Handed::handed_on, crate::proofs::Data::for_judge_own))]
fn judge_own(eof: Eof) -> Result<(), Refusal>
    ensures { answer_of result ≡ all_of (own_tests eof) }
{
    judge_condition(eof.condition)?;
    size::judge_file_size(eof.header.file, eof.size)?;
    fault::judge_fault(eof.fault)
}

// What they say: d.
#[tactic(auto, using(fields::proofs::Handed::handed_on, crate::proofs::Data::no_length, crate::proofs::Data::has_length))]
fn data_length(eof: Eof) -> Result<u16, Refusal>
    ensures { answer_of result ≡ first_of (own_tests eof) (eof_length eof) }
{
    let header = eof.header;
    judge_own(eof)?;
    let content = SIZE_AT + size::size_width(header.file) + fault::fault_len(eof.fault);
    let length = content + CRC_LEN * (header.crc.bit() as usize);
    Ok(length as u16)
}

// The data, from `at` on.
#[tactic(auto, using(crate::proofs::Data::for_put_data), unfolding(crate::specs::Writing::eof_size))]
fn put_data(eof: Eof, at: usize, buf: &mut [u8])
    requires { (at + eof_size eof ≤ length buf.old) × Passed (own_tests eof) }
    ensures { buf.new ≡ sets buf.old at (eof_data eof) }
{
    let file = eof.header.file;
    let third = at + 2;
    let fourth = at + SIZE_AT;
    let last = fourth + size::size_width(file);
    let condition = eof.condition * 16;
    buf[at] = EOF_CODE;
    buf[at + 1] = condition;
    be::write_be(buf, third, 4, eof.file_checksum as u64);
    size::write_size(buf, fourth, file, eof.size);
    fault::put_fault(eof.fault, last, buf);
}

impl Eof {
    // The header as it was written, and the written length. A refused write changes no byte, an accepted one the PDU's bytes and no others.
    // Kept: these steps stand in eof, ack and metadata: a trait with tests, length and data, and the law that ties them, is longer.
    pub fn write_to_slice(self, buf: &mut [u8]) -> Result<PduWritten, Refusal>
        ensures answered { answer_of result ≡ writing_eof self (length buf.old) }
        ensures stored { buf.new ≡ eof_memory self buf.old }
    {
        let header = self.header.with_direction(Direction::TowardsReceiver);
        let own = data_length(self);
        let header = header.with_data(own);
        let length = header.begin_write(own, buf)?;
        put_data(self, header.header_len(), buf);
        header.seal(buf);
        Ok(PduWritten { header, length })
    }
}
