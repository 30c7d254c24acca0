// Reading an EOF.
ghost use Rattle.std.specs.Prelude.{◌≡◌, ◌+◌, length};
ghost use Rattle.fields.specs.Answer.{first_of, answer_of};
ghost use Rattle.fields.specs.Staged.{run};
ghost use Rattle.header.specs.Header.{header_length, data_end};
ghost use Rattle.eof.specs.Eof.{eof_in};
ghost use Rattle.eof.specs.Reading.{read_tests, reading_eof};

use crate::{EOF_CODE, Eof, SIZE_AT, fault};
use fields::{Refusal, be};
use header::condition::judge_condition;
use header::directive::DirectivePdu;
use header::{PduHeader, directive, size};

// The EOF in its data, which ends at E (header and data are two parameters, as in `metadata_in`). Each number is read from a part of
// just its bytes: so no test is left of a read.
#[tactic(auto, using(fields::proofs::Handed::handed_on, crate::proofs::Data::for_eof_in))]
fn eof_in(header: PduHeader, content: &[u8]) -> Result<Eof, Refusal>
    requires { header_length header + length content.now ≡ data_end header }
    ensures { answer_of result ≡ first_of (read_tests header content.now) (eof_in header content.now) }
{
    let file = header.file;
    let least = SIZE_AT + size::size_width(file);
    let needed = header.header_len() + least;
    directive::judge_data(header.data_end(), needed)?;
    let condition = content[1] / 16;
    judge_condition(condition)?;
    let fault = fault::fault_in(&content[least..])?;
    let file_checksum = be::read_be(&content[2..SIZE_AT], 0, 4) as u32;
    let size = size::read_size(&content[SIZE_AT..least], 0, file);
    Ok(Eof {
        header,
        condition,
        file_checksum,
        size,
        fault,
    })
}

impl Eof {
    // What follows the PDU is not looked at.
    #[tactic(auto, using(fields::proofs::Handed::handed_on, crate::proofs::Data::refused_eof, crate::proofs::Data::read_eof))]
    pub fn from_bytes(buf: &[u8]) -> Result<Eof, Refusal>
        ensures { answer_of result ≡ run reading_eof buf.now }
    {
        // Kept: the same stands in eof, ack, metadata, nak: one for all would take a closure that reads the data, and promise longer.
        let pdu = DirectivePdu::from_bytes(EOF_CODE, buf)?;
        let at = pdu.header.header_len();
        eof_in(pdu.header, &buf[at..pdu.stop])
    }
}
