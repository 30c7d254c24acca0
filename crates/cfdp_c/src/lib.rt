// The library as an archive for C: each function that `include/cfdp.h` declares is the crate cfdp's of that name, under the same clauses.
#![tactic(auto)]

pub mod acks;
pub mod compare;
pub mod differ;
pub mod eofs;
pub mod headers;
pub mod metadatas;
pub mod owed;
pub mod plans;
pub mod read;
pub mod receive;
pub mod reserve;
pub mod write;
