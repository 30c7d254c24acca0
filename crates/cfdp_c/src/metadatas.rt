// Reading and writing a Metadata PDU, and walking its options.
ghost use Rattle.std.specs.Prelude.{◌≡◌, length};
ghost use Rattle.fields.specs.Answer.{and_then};
ghost use Rattle.fields.specs.Staged.{run};
ghost use Rattle.tlv.specs.Walking.{next_field};
ghost use Rattle.metadata.specs.Reading.{reading_metadata};
ghost use Rattle.metadata.specs.Writing.{writing_metadata, metadata_memory};
ghost use Rattle.cfdp.specs.Given.{given_header, left_by};
ghost use Rattle.cfdp.specs.Shown.{shown, written_numbers};
ghost use Rattle.cfdp.specs.MetadataNumbers.{metadata_numbers, option_shown, params_from};

use cfdp::Answer;
use tlv::Form;

#[unsafe(no_mangle)]
pub extern "C" fn cfdp_metadata_read(bytes: &[u8], answer: &mut Answer)
    ensures { answer.new ≡ shown metadata_numbers (run reading_metadata bytes.now) }
{
    cfdp::metadatas::cfdp_metadata_read(bytes, answer)
}

#[unsafe(no_mangle)]
pub extern "C" fn cfdp_metadata_option(area: &[u8], at: usize, answer: &mut Answer)
    ensures { answer.new ≡ option_shown (next_field Form.Tlv area.now at) }
{
    cfdp::metadatas::cfdp_metadata_option(area, at, answer)
}

#[unsafe(no_mangle)]
pub extern "C" fn cfdp_metadata_write(
    shape: &[u8; 10],
    ids: &[u64; 3],
    closure: bool,
    checksum_type: u8,
    file_size: u64,
    source: &[u8],
    destination: &[u8],
    options: &[u8],
    buf: &mut [u8],
    answer: &mut Answer,
)
    ensures answered { answer.new ≡ shown written_numbers (and_then (given_header shape.now ids.now) (λ h. writing_metadata (params_from h closure checksum_type file_size) source.now destination.now options.now (length buf.old))) }
    ensures stored { buf.new ≡ left_by (given_header shape.now ids.now) (λ h. metadata_memory (params_from h closure checksum_type file_size) source.now destination.now options.now buf.old) buf.old }
{
    cfdp::metadatas::cfdp_metadata_write(
        shape,
        ids,
        closure,
        checksum_type,
        file_size,
        source,
        destination,
        options,
        buf,
        answer,
    )
}
