// Writing an ACK.
ghost use Rattle.std.specs.Prelude.{◌≡◌, ◌+◌, ◌≤◌, length};
ghost use Rattle.std.proofs.lemmas.List.Edits.{sets};
ghost use Rattle.fields.specs.Answer.{first_of, answer_of};
ghost use Rattle.fields.proofs.Judging.{Passed};
ghost use Rattle.ack.specs.Writing.{ack_data, ack_length, own_tests, writing_ack, ack_memory};

use crate::{ACK_CODE, ACK_SIZE, Ack, acked};
use fields::Refusal;
use header::pdu::PduWritten;
use header::{CRC_LEN, Flag};

// What the ACK's own tests say, which stand behind the record's: d.
#[tactic(auto, using(fields::proofs::Handed::handed_on, crate::proofs::Data::bad_codes, crate::proofs::Data::good_codes))]
fn data_length(ack: Ack) -> Result<u16, Refusal>
    ensures { answer_of result ≡ first_of (own_tests ack) (ack_length ack) }
{
    acked::judge_codes(ack.condition, ack.acked)?;
    let size = ACK_SIZE + CRC_LEN * (ack.header.crc.bit() as usize);
    Ok(size as u16)
}

// The data, from `at` on.
#[tactic(auto, using(crate::proofs::Data::are_bytes, crate::proofs::Data::data_stored))]
fn put_data(ack: Ack, at: usize, buf: &mut [u8])
    requires { (at + 3 ≤ length buf.old) × Passed (own_tests ack) }
    ensures { buf.new ≡ sets buf.old at (ack_data ack) }
{
    let directive = ack.acked * 16 + acked::subtype_of(ack.acked);
    let state = ack.condition * 16 + ack.status.bits();
    buf[at] = ACK_CODE;
    buf[at + 1] = directive;
    buf[at + 2] = state;
}

impl Ack {
    // The header as it was written, and the written length. A refused write changes no byte, an accepted one the PDU's bytes and no others.
    // Kept: these steps stand in eof, ack and metadata: a trait with tests, length and data, and the law that ties them, is longer.
    pub fn write_to_slice(self, buf: &mut [u8]) -> Result<PduWritten, Refusal>
        ensures answered { answer_of result ≡ writing_ack self (length buf.old) }
        ensures stored { buf.new ≡ ack_memory self buf.old }
    {
        let header = self.header.with_direction(acked::direction_for(self.acked));
        let own = data_length(self);
        let header = header.with_data(own);
        let length = header.begin_write(own, buf)?;
        put_data(self, header.header_len(), buf);
        header.seal(buf);
        Ok(PduWritten { header, length })
    }
}
