// Layer 3 of the codec: the EOF PDU (the Rust's `cfdp/pdu/eof.rs`), read and written.
#![tactic(auto)]

use fault::EntityIdTlv;
use fields::Refusal;
use header::PduHeader;

pub mod fault;
pub mod read;
pub mod write;

// The code of an EOF.
pub const EOF_CODE: u8 = 4;

// The bytes before the file size: the code, the condition code, the file's checksum.
pub const SIZE_AT: usize = 6;

// An EOF: one that was read, or is to be written. The Rust's names stand beside those that differ.
#[derive(Clone, Copy, PartialEq, Eq, Debug)]
pub struct Eof {
    pub header: PduHeader,
    // condition_code
    pub condition: u8,
    // The file's; `Checksum` is the refusal for that of a PDU.
    pub file_checksum: u32,
    // file_size
    pub size: u64,
    // fault_location
    pub fault: Option<EntityIdTlv>,
}
