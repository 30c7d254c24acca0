// Layer 1 of the codec: the checksum, numbers as big-endian bytes, values with a width, and the table of refusals.
#![tactic(auto)]

pub mod be;
pub mod crc;
pub mod field;
pub mod refusal;

pub use field::{EntityId, TransactionSeqNum, UnsignedByteField};
pub use refusal::{Refusal, RefusalNumbers};
