// Verifying the length and the checksum of a PDU by its header, and storing the checksum behind what was written.
ghost use Rattle.std.specs.Prelude.{◌≡◌};
ghost use Rattle.fields.specs.Answer.{answer_of};
ghost use Rattle.fields.specs.Staged.{run};
ghost use Rattle.header.specs.Verifying.{verifying, crc_added};
ghost use Rattle.header.specs.Within.{verifying_read};

use crate::read::short;
use crate::{CRC_LEN, CrcFlag, PduHeader};
use fields::{Refusal, be, crc};

impl PduHeader {
    // E: where the data ends, of a header that was read: its record is not judged again.
    pub(crate) fn verify_read(self, buf: &[u8]) -> Result<usize, Refusal>
        ensures { answer_of result ≡ run (verifying_read self) buf.now }
    {
        let len = self.pdu_len();
        if buf.len() < len {
            return short(buf.len(), len);
        }
        let flag = self.crc;
        if let CrcFlag::NoCrc = flag {
            return Ok(len);
        }
        let pdu = &buf[..len];
        let stop = len - CRC_LEN;
        if crc::checksum(pdu) != 0 {
            return Err(Refusal::Checksum(be::read_be(pdu, stop, CRC_LEN) as u16));
        }
        Ok(stop)
    }

    // The same of any record, which is judged first.
    pub fn verify_length_and_checksum(self, buf: &[u8]) -> Result<usize, Refusal>
        ensures { answer_of result ≡ run (verifying self) buf.now }
    {
        self.judged()?;
        self.verify_read(buf)
    }
}

// Stores the checksum of the first n bytes behind them, with the flag. Where there is no room for it no byte changes.
pub fn add_pdu_crc(buf: &mut [u8], n: usize, flag: CrcFlag)
    ensures { buf.new ≡ crc_added flag n buf.old }
{
    if let CrcFlag::NoCrc = flag {
        return;
    }
    if buf.len() < n {
        return;
    }
    let sum = crc::checksum(&buf[..n]);
    be::write_be(buf, n, CRC_LEN, sum as u64);
}
