// Layer 4 of the codec: ranges of bytes. Two lists of pairs of offsets beside each other, and the longest ranges for which either asks, only one of them, or the first alone.
#![tactic(auto)]

pub mod differ;
pub mod merge;
pub mod order;
pub mod owed;
pub mod side;
pub mod tape;
pub mod transaction;
