// Reading a directive PDU through its code: what the reader of every directive begins with.
ghost use Rattle.std.specs.Prelude.{◌≡◌, [], ◌∷◌};
ghost use Rattle.fields.specs.Answer.{first_of, all_of, answer_of};
ghost use Rattle.fields.specs.Staged.{run};
ghost use Rattle.header.specs.Directive.{data_short, not_a_directive, reading_own};
ghost use Rattle.header.specs.Within.{behind_nine, verifying_directive, reading_up_to_code};

use crate::code::DirectiveKind;
use crate::read::{header_in, length_in, short};
use crate::{PduHeader, PduType};
use fields::Refusal;

// A directive code and a normal scope: the fewest bytes that the Rust asks for.
const LEAST_LEN: usize = 9;

// A directive PDU: its header, and E, where its data ends. The data begins behind the header, with the directive's code.
#[derive(Clone, Copy, PartialEq, Eq, Debug)]
pub struct DirectivePdu {
    pub header: PduHeader,
    pub stop: usize,
}

// 6: whether the data reaches as far as is needed.
pub fn judge_data(stop: usize, expected: usize) -> Result<(), Refusal>
    ensures { answer_of result ≡ all_of (data_short stop expected ∷ []) }
{
    if stop < expected {
        return Err(Refusal::DataFieldTooSmall { stop, expected });
    }
    Ok(())
}

impl PduHeader {
    // 21: file data has no directive.
    pub(crate) fn judge_type(self) -> Result<(), Refusal>
        ensures { answer_of result ≡ all_of (not_a_directive self ∷ []) }
    {
        let kind = self.kind;
        match kind {
            PduType::FileData => Err(Refusal::NotADirective),
            PduType::FileDirective => Ok(()),
        }
    }

    // E of a header that was read, whose data holds the directive's code. The checksum comes first: a damaged bit of the PDU type is a
    // checksum fault.
    fn verify_directive(self, buf: &[u8]) -> Result<usize, Refusal>
        ensures { answer_of result ≡ run (verifying_directive self) buf.now }
    {
        let stop = self.verify_read(buf)?;
        if buf.len() < LEAST_LEN {
            return short(buf.len(), LEAST_LEN);
        }
        self.judge_directive(stop)
    }

    // In a PDU of at least 9 bytes, whose data ends at `stop`.
    fn judge_directive(self, stop: usize) -> Result<usize, Refusal>
        ensures { answer_of result ≡ first_of (behind_nine self stop) stop }
    {
        judge_data(stop, LEAST_LEN)?;
        self.judge_type()?;
        judge_data(stop, self.header_len() + 1)?;
        Ok(stop)
    }
}

impl DirectivePdu {
    // Up to the code. The header is not read by `PduHeader::from_bytes`: from here its two functions become a part of the caller, and the
    // record is not handed through memory.
    fn up_to_code(buf: &[u8]) -> Result<DirectivePdu, Refusal>
        ensures { answer_of result ≡ run reading_up_to_code buf.now }
    {
        let len = length_in(buf)?;
        let header = header_in(&buf[..len]);
        let stop = header.verify_directive(buf)?;
        Ok(DirectivePdu { header, stop })
    }

    // A PDU of the directive `own`. What follows the PDU is not looked at.
    pub fn from_bytes(own: u8, buf: &[u8]) -> Result<DirectivePdu, Refusal>
        ensures { answer_of result ≡ run (reading_own own) buf.now }
    {
        let pdu = DirectivePdu::up_to_code(buf)?;
        let at = pdu.header.header_len();
        let code = buf[at];
        let kind = DirectiveKind::from_code(code, own);
        match kind {
            DirectiveKind::Unknown => { Err(Refusal::InvalidDirectiveType(code)) }
            DirectiveKind::Known => { Err(Refusal::WrongDirectiveType(code)) }
            DirectiveKind::Own => Ok(pdu),
        }
    }
}
