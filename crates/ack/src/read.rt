// Reading an ACK.
ghost use Rattle.std.specs.Prelude.{◌≡◌, ◌+◌, length};
ghost use Rattle.fields.specs.Answer.{first_of, answer_of};
ghost use Rattle.fields.specs.Staged.{run};
ghost use Rattle.header.specs.Header.{header_length, data_end};
ghost use Rattle.ack.specs.Ack.{ack_in};
ghost use Rattle.ack.specs.Reading.{read_tests, reading_ack};

use crate::status::TransactionStatus;
use crate::{ACK_CODE, ACK_SIZE, Ack, acked};
use fields::Refusal;
use header::directive::DirectivePdu;
use header::{PduHeader, directive};

// The ACK in its data, which ends at E (header and data are two parameters, as in `metadata_in`).
#[tactic(auto, using(fields::proofs::Handed::handed_on, crate::proofs::Data::for_ack_in))]
fn ack_in(header: PduHeader, content: &[u8]) -> Result<Ack, Refusal>
    requires { header_length header + length content.now ≡ data_end header }
    ensures { answer_of result ≡ first_of (read_tests header content.now) (ack_in header content.now) }
{
    directive::judge_data(header.data_end(), header.header_len() + ACK_SIZE)?;
    let last = content[2];
    let acked = content[1] / 16;
    let condition = last / 16;
    acked::judge_codes(condition, acked)?;
    let status = TransactionStatus::from_bits(last % 4);
    Ok(Ack {
        header,
        acked,
        condition,
        status,
    })
}

impl Ack {
    // Bytes behind the three are accepted and not shown, as in the Rust. What follows the PDU is not looked at.
    #[tactic(auto, using(fields::proofs::Handed::handed_on, crate::proofs::Data::refused_ack, crate::proofs::Data::read_ack))]
    pub fn from_bytes(buf: &[u8]) -> Result<Ack, Refusal>
        ensures { answer_of result ≡ run reading_ack buf.now }
    {
        // Kept: the same stands in eof, ack, metadata, nak: one for all would take a closure that reads the data, and promise longer.
        let pdu = DirectivePdu::from_bytes(ACK_CODE, buf)?;
        let at = pdu.header.header_len();
        ack_in(pdu.header, &buf[at..pdu.stop])
    }
}
