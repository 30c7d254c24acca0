// Layer 3 of the codec: the Metadata PDU (the Rust's `cfdp/pdu/metadata.rs`), read, its options walked, and written.
#![tactic(auto)]

ghost use Rattle.std.specs.Prelude.{◌≡◌};
ghost use Rattle.fields.specs.Answer.{all_of, answer_of};
ghost use Rattle.metadata.specs.Metadata.{type_tests};

use fields::Refusal;
use header::PduHeader;

pub mod parts;
pub mod read;
pub mod write;

// The code of a Metadata PDU.
pub const METADATA_CODE: u8 = 7;

// The bytes before the file size: the code, and the byte with closure flag and checksum type.
pub const SIZE_AT: usize = 2;

// A part of the bytes that a PDU was read from: the bytes from `start` up to `stop`.
#[derive(Clone, Copy, PartialEq, Eq, Hash, Debug)]
pub struct Part {
    pub start: usize,
    pub stop: usize,
}

// All but names and options (the Rust's `MetadataGenericParams`, and the header).
#[derive(Clone, Copy, PartialEq, Eq, Debug)]
pub struct MetadataParams {
    pub header: PduHeader,
    // closure_requested
    pub closure: bool,
    // checksum_type
    pub kind: u8,
    // file_size
    pub size: u64,
}

// A Metadata PDU that was read. Names and options stand in the bytes that it was read from.
#[derive(Clone, Copy, PartialEq, Eq, Debug)]
pub struct Metadata {
    pub params: MetadataParams,
    // src_file_name
    pub source: Part,
    // dest_file_name
    pub destination: Part,
    // The area of the options, up to E.
    pub options: Part,
}

// 30: whether a checksum type is in the Rust's list.
// Kept: a type is any `u8`: a caller may give any, and 30 refuses the others.
#[tactic(auto, using(crate::proofs::Types::type_lacks, crate::proofs::Types::type_none, crate::proofs::Types::type_low))]
fn judge_type(kind: u8) -> Result<(), Refusal>
    ensures { answer_of result ≡ all_of (type_tests kind) }
{
    match kind {
        0..=3 | 15 => Ok(()),
        _ => Err(Refusal::InvalidChecksumType),
    }
}
