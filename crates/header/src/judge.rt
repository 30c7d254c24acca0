// Judging a header record (refusals 3, 4 and 14), and building one from two identifiers that have a width each (13 before them).
ghost use Rattle.std.specs.Prelude.{◌≡◌, [], ◌∷◌};
ghost use Rattle.fields.specs.Answer.{all_of, answer_of};
ghost use Rattle.header.specs.Judging.{wrong_entity_width, width_tests, entity_tests, judging, joining, building, header_of};

use crate::{
    CrcFlag, Direction, LargeFileFlag, PduHeader, PduType, SegmentMetadataFlag,
    SegmentationControl, TransmissionMode,
};
use fields::{EntityId, Refusal, TransactionSeqNum, UnsignedByteField, field};

// What a header is built from: each of the two identifiers has a width of its own here.
#[derive(Clone, Copy, Debug, PartialEq, Eq)]
pub struct HeaderFields {
    pub kind: PduType,
    pub direction: Direction,
    pub mode: TransmissionMode,
    pub crc: CrcFlag,
    pub file: LargeFileFlag,
    pub length: u16,
    pub control: SegmentationControl,
    pub metadata: SegmentMetadataFlag,
    pub source: UnsignedByteField,
    pub sequence: TransactionSeqNum,
    pub destination: UnsignedByteField,
}

// 3.
fn judge_entity_width(width: u8) -> Result<(), Refusal>
    ensures { answer_of result ≡ all_of (wrong_entity_width width ∷ []) }
{
    if !field::is_width(width) {
        return Err(Refusal::InvalidEntityLen(width));
    }
    Ok(())
}

// 3, then 4.
pub(crate) fn judge_widths(entity: u8, sequence: u8) -> Result<(), Refusal>
    ensures { answer_of result ≡ all_of (width_tests entity sequence) }
{
    judge_entity_width(entity)?;
    if !field::is_width(sequence) {
        return Err(Refusal::InvalidTransactionSeqNumLen(sequence));
    }
    Ok(())
}

fn too_large(field: UnsignedByteField) -> Refusal
    ensures { result ≡ Refusal.ValueTooLargeForWidth field.value field.width }
{
    Refusal::ValueTooLargeForWidth {
        value: field.value,
        width: field.width,
    }
}

// 3, then 14: an identifier that has a width of its own.
pub fn judge_entity(width: u8, id: EntityId) -> Result<(), Refusal>
    ensures { answer_of result ≡ all_of (entity_tests width id) }
{
    judge_entity_width(width)?;
    let field = UnsignedByteField::new(width, id.0);
    if !field.fits() {
        return Err(too_large(field));
    }
    Ok(())
}

impl PduHeader {
    // The record itself, if every width and value of it is allowed.
    pub fn judged(self) -> Result<PduHeader, Refusal>
        ensures { answer_of result ≡ judging self }
    {
        let source = self.source_id();
        let sequence = self.sequence.0;
        let destination = self.dest_id();
        judge_widths(self.width, sequence.width)?;
        if !source.fits() {
            return Err(too_large(source));
        }
        if !sequence.fits() {
            return Err(too_large(sequence));
        }
        if !destination.fits() {
            return Err(too_large(destination));
        }
        Ok(self)
    }

    // The record of its parts, where the two identifiers have one width; nothing else of it is judged.
    pub fn from_fields(fields: HeaderFields) -> Result<PduHeader, Refusal>
        ensures { answer_of result ≡ joining fields.source fields.destination (header_of fields) }
    {
        let source = fields.source;
        let destination = fields.destination;
        if source.width != destination.width {
            return Err(Refusal::SourceDestIdLenMissmatch {
                source: source.width,
                destination: destination.width,
            });
        }
        Ok(PduHeader {
            kind: fields.kind,
            direction: fields.direction,
            mode: fields.mode,
            crc: fields.crc,
            file: fields.file,
            length: fields.length,
            control: fields.control,
            width: source.width,
            metadata: fields.metadata,
            source: EntityId(source.value),
            sequence: fields.sequence,
            destination: EntityId(destination.value),
        })
    }

    // The same, judged.
    pub fn new_generic(fields: HeaderFields) -> Result<PduHeader, Refusal>
        ensures { answer_of result ≡ building fields.source fields.destination (header_of fields) }
    {
        let header = PduHeader::from_fields(fields)?;
        header.judged()
    }
}
