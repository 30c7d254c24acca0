// Writing a directive PDU around its data: the judgement in document 01's order, the beginning of the write, and its end.
ghost use Rattle.std.specs.Prelude.{◌≡◌, length};
ghost use Rattle.fields.specs.Answer.{answer_of};
ghost use Rattle.header.specs.Pdu.{judging_directive, with_data, beginning, begun_memory, sealed_memory};

use crate::write::{judge_room, put_header};
use crate::{PduHeader, verify};
use fields::Refusal;

// The header as it was written, its length filled in, and how many bytes were written.
#[derive(Clone, Copy, PartialEq, Eq, Debug)]
pub struct PduWritten {
    pub header: PduHeader,
    pub length: usize,
}

impl PduHeader {
    // Whether a directive PDU can have the record: 3, 4, 14, then 21.
    pub fn judged_directive(self) -> Result<(), Refusal>
        ensures { answer_of result ≡ judging_directive self }
    {
        self.judged()?;
        self.judge_type()
    }

    // The header with d filled in, where the PDU's own tests gave one.
    pub fn with_data(self, own: Result<u16, Refusal>) -> PduHeader
        ensures { result ≡ with_data (answer_of own) self }
    {
        match own {
            Err(_) => self,
            Ok(d) => self.with_datafield_len(d),
        }
    }

    // P, or why the directive PDU of a header with such data cannot be written into so many bytes: the record's tests, then what the PDU's
    // own tests said, then the room. It hands back a number and no record, since a record goes through memory and its reader waits for it.
    pub fn judge_write(self, own: Result<u16, Refusal>, room: usize) -> Result<usize, Refusal>
        ensures { answer_of result ≡ beginning self (answer_of own) room }
    {
        self.judged_directive()?;
        own?;
        let length = self.pdu_len();
        judge_room(room, length)?;
        Ok(length)
    }

    // That, and the header's store. A refused write changes no byte.
    pub fn begin_write(self, own: Result<u16, Refusal>, buf: &mut [u8]) -> Result<usize, Refusal>
        ensures answered { answer_of result ≡ beginning self (answer_of own) (length buf.old) }
        ensures stored { buf.new ≡ begun_memory self (answer_of own) buf.old }
    {
        let length = self.judge_write(own, buf.len())?;
        put_header(self, buf);
        Ok(length)
    }

    // The end of a write: the checksum, with the flag, behind the data. Where there is no room for it no byte changes.
    pub fn seal(self, buf: &mut [u8])
        ensures { buf.new ≡ sealed_memory self buf.old }
    {
        let crc = self.crc;
        verify::add_pdu_crc(buf, self.data_end(), crc);
    }
}
