// Reading and writing a Metadata PDU, and walking its options.
ghost use Rattle.std.specs.Prelude.{◌≡◌, [], ◌∷◌, length};
ghost use Rattle.fields.specs.Answer.{and_then};
ghost use Rattle.fields.specs.Staged.{run};
ghost use Rattle.tlv.specs.Walking.{next_field};
ghost use Rattle.metadata.specs.Reading.{reading_metadata};
ghost use Rattle.metadata.specs.Writing.{writing_metadata, metadata_memory};
ghost use Rattle.cfdp.specs.Given.{given_header, left_by};
ghost use Rattle.cfdp.specs.Shown.{padded, answer_size, shown, written_numbers};
ghost use Rattle.cfdp.specs.MetadataNumbers.{metadata_numbers, option_shown, params_from};

use crate::{Answer, Numbers, header_from, show, show_few, show_header, show_refusal, with_header};
use fields::Refusal;
use metadata::write::closure_bit;
use metadata::{Metadata, MetadataParams, parts};
use tlv::Form;
use tlv::walk::{FieldCursor, NextField};

impl Numbers for Metadata {
    ghost numbers = { metadata_numbers };

    // The last four numbers lie behind those that stand behind a header.
    fn put(self, answer: &mut Answer) {
        let params = self.params;
        let source = self.source;
        let destination = self.destination;
        let options = self.options;
        show_header(
            params.header,
            closure_bit(params.closure) as u64,
            params.kind as u64,
            params.size,
            source.start as u64,
            source.stop as u64,
            answer,
        );
        answer[20] = destination.start as u64;
        answer[21] = destination.stop as u64;
        answer[22] = options.start as u64;
        answer[23] = options.stop as u64;
    }
}

pub fn cfdp_metadata_read(bytes: &[u8], answer: &mut Answer)
    ensures { answer.new ≡ shown metadata_numbers (run reading_metadata bytes.now) }
{
    show(Metadata::from_bytes(bytes), answer)
}

// An option, and where the next one begins.
fn show_option(found: NextField, answer: &mut Answer)
    ensures { answer.new ≡ padded answer_size (0 ∷ found.field.tag ∷ found.field.start ∷ found.field.stop ∷ found.next.at ∷ []) }
{
    let option = found.field;
    show_few(0, option.tag as u64, option.start as u64, answer);
    answer[3] = option.stop as u64;
    answer[4] = found.next.at as u64;
}

#[tactic(auto, using(crate::proofs::MetadataShown::end_shown))]
pub fn cfdp_metadata_option(area: &[u8], at: usize, answer: &mut Answer)
    ensures { answer.new ≡ option_shown (next_field Form.Tlv area.now at) }
{
    match parts::next_option(area, FieldCursor { at }) {
        Err(cut) => show_refusal(Refusal::from(cut), answer),
        Ok(None) => show_few(0, 0, 0, answer),
        Ok(Some(found)) => show_option(found, answer),
    }
}

pub fn cfdp_metadata_write(
    shape: &[u8; 10],
    ids: &[u64; 3],
    closure: bool,
    checksum_type: u8,
    file_size: u64,
    source: &[u8],
    destination: &[u8],
    options: &[u8],
    buf: &mut [u8],
    answer: &mut Answer,
)
    ensures answered { answer.new ≡ shown written_numbers (and_then (given_header shape.now ids.now) (λ h. writing_metadata (params_from h closure checksum_type file_size) source.now destination.now options.now (length buf.old))) }
    ensures stored { buf.new ≡ left_by (given_header shape.now ids.now) (λ h. metadata_memory (params_from h closure checksum_type file_size) source.now destination.now options.now buf.old) buf.old }
{
    let joined = header_from(shape, 0, ids);
    let written = with_header(joined, buf, |header, buf| {
        let params = MetadataParams {
            header,
            closure,
            kind: checksum_type,
            size: file_size,
        };
        params.write_to_slice(source, destination, options, buf)
    });
    show(written, answer)
}
