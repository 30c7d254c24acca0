// Layer 3 of the codec: the ACK PDU (the Rust's `cfdp/pdu/ack.rs`), of an EOF or a Finished, read and written.
#![tactic(auto)]

use fields::Refusal;
use header::PduHeader;
use status::TransactionStatus;

pub mod acked;
pub mod read;
pub mod status;
pub mod write;

// The code of an ACK, and the bytes of its data.
pub const ACK_CODE: u8 = 6;

pub const ACK_SIZE: usize = 3;

// An ACK: one that was read, or is to be written. The Rust's names stand beside those that differ.
#[derive(Clone, Copy, PartialEq, Eq, Debug)]
pub struct Ack {
    pub header: PduHeader,
    // directive_code_of_acked_pdu
    pub acked: u8,
    // condition_code
    pub condition: u8,
    // transaction_status
    pub status: TransactionStatus,
}
