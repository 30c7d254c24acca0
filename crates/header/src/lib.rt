// Layer 2 of the codec: the common PDU header (the Rust's `cfdp/pdu/mod.rs`): its record, read, judged, written, verified and compared; and what every directive PDU shares.
#![tactic(auto)]

ghost use Rattle.std.specs.Prelude.{◌≡◌, ◌≤◌};
ghost use Rattle.header.specs.Header.{header_length, pdu_length, data_end, source_id, dest_id, with_direction, with_file_flag, with_length};

use fields::{EntityId, Refusal, TransactionSeqNum, UnsignedByteField};

pub mod code;
pub mod compare;
pub mod condition;
pub mod directive;
pub mod flags;
pub mod judge;
pub mod pdu;
pub mod read;
pub mod size;
pub mod verify;
pub mod write;

pub use flags::{
    CrcFlag, Direction, Flag, LargeFileFlag, PduType, SegmentMetadataFlag, SegmentationControl,
    TransmissionMode,
};

// The bytes before the identifiers.
pub const FIXED_HEADER_LEN: usize = 4;

// The bytes of a checksum.
pub const CRC_LEN: usize = 2;

// All fields of a header. The Rust's names stand beside those that differ. Their order is that in memory, where a record shares its place
// with a refusal (`Result<PduHeader, Refusal>`): the numbers of one lie over those of the other, and the flags behind them, so that a record is handed
// on field by field and not in pieces that a read has to wait for.
#[derive(Clone, Copy, Debug)]
pub struct PduHeader {
    // pdu_type
    pub kind: PduType,
    pub direction: Direction,
    // pdu_datafield_len
    pub length: u16,
    // source_entity_id
    pub source: EntityId,
    // dest_entity_id
    pub destination: EntityId,
    // transaction_seq_num
    pub sequence: TransactionSeqNum,
    // trans_mode
    pub mode: TransmissionMode,
    // crc_flag
    pub crc: CrcFlag,
    // file_flag
    pub file: LargeFileFlag,
    // seg_ctrl
    pub control: SegmentationControl,
    // seg_metadata_flag
    pub metadata: SegmentMetadataFlag,
    // The bytes of each of the two entity identifiers.
    pub width: u8,
}

impl PduHeader {
    // h: the bytes of the header, at most 4 + 3 * 255.
    pub fn header_len(self) -> usize
        ensures { (result ≡ header_length self) × (4 ≤ result) × (result ≤ 769) }
    {
        let entity = self.width as usize;
        let sequence = self.sequence.0.width as usize;
        FIXED_HEADER_LEN + 2 * entity + sequence
    }

    // The source's identifier with its width.
    pub fn source_id(self) -> UnsignedByteField
        ensures { result ≡ source_id self }
    {
        UnsignedByteField::new(self.width, self.source.0)
    }

    // The destination's.
    pub fn dest_id(self) -> UnsignedByteField
        ensures { result ≡ dest_id self }
    {
        UnsignedByteField::new(self.width, self.destination.0)
    }

    // P: the bytes of the whole PDU, at most 65,535 more.
    pub fn pdu_len(self) -> usize
        ensures { (result ≡ pdu_length self) × (result ≤ 66304) }
    {
        self.header_len() + (self.length as usize)
    }

    // E: where the data of the PDU ends: a checksum is no data.
    pub fn data_end(self) -> usize
        ensures { result ≡ data_end self }
    {
        self.pdu_len() - CRC_LEN * (self.crc.bit() as usize)
    }

    pub fn with_direction(self, direction: Direction) -> Self
        ensures { result ≡ with_direction direction self }
    {
        PduHeader { direction, ..self }
    }

    pub fn with_file_flag(self, file: LargeFileFlag) -> Self
        ensures { result ≡ with_file_flag file self }
    {
        PduHeader { file, ..self }
    }

    pub fn with_datafield_len(self, length: u16) -> Self
        ensures { result ≡ with_length length self }
    {
        PduHeader { length, ..self }
    }
}
