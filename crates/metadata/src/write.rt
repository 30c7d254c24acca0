// Writing a Metadata PDU; its names and options are lent as bytes.
ghost use Rattle.std.specs.Prelude.{◌≡◌, ◌+◌, ◌≤◌, ◌<◌, length};
ghost use Rattle.std.proofs.lemmas.List.Edits.{sets};
ghost use Rattle.fields.specs.Answer.{first_of, all_of, answer_of};
ghost use Rattle.fields.proofs.Judging.{Passed};
ghost use Rattle.metadata.specs.Writing.{closure_bit, fixed_data, lent_data, metadata_data, metadata_length, fixed_tests, lent_tests, own_tests, writing_metadata, metadata_memory};

use crate::{METADATA_CODE, MetadataParams, SIZE_AT, judge_type};
use fields::Refusal;
use header::pdu::PduWritten;
use header::{CRC_LEN, Direction, Flag, size};
use tlv::Form;
use tlv::walk::first_cut;
use tlv::write::{put_bytes, put_field};

// The most bytes of a name.
const MAX_NAME: usize = 255;

// The most bytes of a data field.
const MAX_DATA: usize = 65535;

// Closure requested, as a bit.
pub fn closure_bit(closure: bool) -> u8
    ensures { (result ≡ closure_bit closure) × (result ≤ 1) }
{
    closure as u8
}

// 30, then 29.
#[tactic(auto, using(fields::proofs::Handed::handed_on, crate::proofs::Data::bad_type, crate::proofs::Data::size_decides))]
fn judge_fixed(params: MetadataParams) -> Result<(), Refusal>
    ensures { answer_of result ≡ all_of (fixed_tests params) }
{
    judge_type(params.kind)?;
    size::judge_file_size(params.header.file, params.size)
}

// Names and options, as they are lent to a write.
#[derive(Clone, Copy)]
struct Lent<'a> {
    source: &'a [u8],
    destination: &'a [u8],
    options: &'a [u8],
}

impl Lent<'_> {
    // 31 for the source's name, then the destination's; 25, counted from the options' start.
    #[tactic(auto, using(fields::proofs::Handed::handed_on, crate::proofs::Data::for_judge))]
    fn judge(self) -> Result<(), Refusal>
        ensures { answer_of result ≡ all_of (lent_tests self.entry.source.now self.entry.destination.now self.entry.options.now) }
    {
        if MAX_NAME < self.source.len() {
            return Err(Refusal::NameTooLong);
        }
        if MAX_NAME < self.destination.len() {
            return Err(Refusal::NameTooLong);
        }
        first_cut(Form::Tlv, self.options, 0)?;
        Ok(())
    }

    // Stores them, from `at` on.
    #[tactic(auto, using(crate::proofs::Data::lent_size, crate::proofs::Data::lent_stored))]
    fn put(self, at: usize, buf: &mut [u8])
        requires { (at + length (lent_data self.source.now self.destination.now self.options.now) ≤ length buf.old) × Passed (lent_tests self.source.now self.destination.now self.options.now) }
        ensures { buf.new ≡ sets buf.old at (lent_data self.entry.source.now self.entry.destination.now self.entry.options.now) }
    {
        let middle = at + 1 + self.source.len();
        let last = middle + 1 + self.destination.len();
        put_field(Form::Lv, buf, at, 0, self.source);
        put_field(Form::Lv, buf, middle, 0, self.destination);
        put_bytes(buf, last, self.options);
    }
}

// What those tests say, and then 32: d.
#[tactic(auto, using(fields::proofs::Handed::handed_on, crate::proofs::Data::for_data_length))]
fn data_length(params: MetadataParams, lent: Lent) -> Result<u16, Refusal>
    ensures { answer_of result ≡ first_of (own_tests params lent.entry.source.now lent.entry.destination.now lent.entry.options.now) (metadata_length params lent.entry.source.now lent.entry.destination.now lent.entry.options.now) }
{
    judge_fixed(params)?;
    lent.judge()?;
    let header = params.header;
    let names = 1 + lent.source.len() + 1 + lent.destination.len();
    let around = SIZE_AT
        + size::size_width(header.file)
        + names
        + CRC_LEN * (header.crc.bit() as usize);
    if MAX_DATA - around < lent.options.len() {
        return Err(Refusal::DataFieldTooLarge);
    }
    let length = around + lent.options.len();
    Ok(length as u16)
}

// The data through the file size, from `at` on.
#[tactic(auto, using(crate::proofs::Data::fixed_good, crate::proofs::Data::fixed_size, crate::proofs::Data::fixed_stored))]
fn put_fixed(params: MetadataParams, at: usize, buf: &mut [u8])
    requires { (at + length (fixed_data params) ≤ length buf.old) × Passed (fixed_tests params) }
    ensures { buf.new ≡ sets buf.old at (fixed_data params) }
{
    let third = at + SIZE_AT;
    let byte = closure_bit(params.closure) * 64 + params.kind;
    buf[at] = METADATA_CODE;
    buf[at + 1] = byte;
    size::write_size(buf, third, params.header.file, params.size);
}

// The data, from `at` on.
#[tactic(auto, using(crate::proofs::Data::lent_room, crate::proofs::Data::lent_passed, crate::proofs::Data::data_stored))]
fn put_data(params: MetadataParams, lent: Lent, at: usize, buf: &mut [u8])
    requires { (at + length (metadata_data params lent.source.now lent.destination.now lent.options.now) ≤ length buf.old) × Passed (own_tests params lent.source.now lent.destination.now lent.options.now) }
    ensures { buf.new ≡ sets buf.old at (metadata_data params lent.entry.source.now lent.entry.destination.now lent.entry.options.now) }
{
    let names = at + SIZE_AT + size::size_width(params.header.file);
    put_fixed(params, at, buf);
    lent.put(names, buf);
}

impl MetadataParams {
    // The header as it was written, and the written length. A refused write changes no byte, an accepted one the PDU's bytes and no others.
    // Kept: these steps stand in eof, ack and metadata: a trait with tests, length and data, and the law that ties them, is longer.
    pub fn write_to_slice(
        self,
        source: &[u8],
        destination: &[u8],
        options: &[u8],
        buf: &mut [u8],
    ) -> Result<PduWritten, Refusal>
        ensures answered { answer_of result ≡ writing_metadata self source.now destination.now options.now (length buf.old) }
        ensures stored { buf.new ≡ metadata_memory self source.now destination.now options.now buf.old }
    {
        let header = self.header.with_direction(Direction::TowardsReceiver);
        let lent = Lent {
            source,
            destination,
            options,
        };
        let own = data_length(self, lent);
        let header = header.with_data(own);
        let length = header.begin_write(own, buf)?;
        put_data(self, lent, header.header_len(), buf);
        header.seal(buf);
        Ok(PduWritten { header, length })
    }
}
