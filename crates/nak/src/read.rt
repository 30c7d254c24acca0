// Reading a NAK (the Rust's `NakPduReader`).
ghost use Rattle.std.specs.Prelude.{◌≡◌, ◌+◌, ◌≤◌, length};
ghost use Rattle.fields.specs.Answer.{answer_of};
ghost use Rattle.fields.specs.Staged.{run};
ghost use Rattle.header.specs.Header.{header_length, data_end};
ghost use Rattle.nak.specs.Nak.{area_start, nak_in};
ghost use Rattle.nak.specs.Reading.{reading_nak};

use crate::{NAK_CODE, Nak, SCOPE_AT, area_start, offset_at};
use fields::Refusal;
use header::PduHeader;
use header::directive::{DirectivePdu, judge_data};
use header::size::size_width;

// The NAK in its data, which ends at E and holds the scope (header and data are two parameters, as in `metadata_in`).
fn nak_in(header: PduHeader, content: &[u8]) -> Nak
    requires { (area_start header ≤ data_end header) × (header_length header + length content.now ≡ data_end header) }
    ensures { result ≡ nak_in header content.now }
{
    let area = area_start(header);
    let stop = header.data_end();
    let file = header.file;
    let width = size_width(file);
    let start_of_scope = offset_at(content, SCOPE_AT, file);
    let end_of_scope = offset_at(content, SCOPE_AT + width, file);
    let count = (stop - area) / (2 * width);
    Nak {
        header,
        start: start_of_scope,
        end: end_of_scope,
        area,
        stop,
        count,
    }
}

impl Nak {
    // The segment metadata flag is read and not judged, as in the Rust. What follows the PDU is not looked at.
    pub fn from_bytes(buf: &[u8]) -> Result<Nak, Refusal>
        ensures { answer_of result ≡ run reading_nak buf.now }
    {
        // Kept: the same stands in eof, ack, metadata, nak: one for all would take a closure that reads the data, and promise longer.
        let pdu = DirectivePdu::from_bytes(NAK_CODE, buf)?;
        let at = pdu.header.header_len();
        judge_data(pdu.stop, area_start(pdu.header))?;
        Ok(nak_in(pdu.header, &buf[at..pdu.stop]))
    }
}
