// Layer 3 of the codec: the NAK PDU (the Rust's `cfdp/pdu/nak.rs`): read, its requests walked, written, reserved and finished, counted, compared.
#![tactic(auto)]

ghost use Rattle.std.specs.Prelude.{◌≡◌, ◌+◌, ◌≤◌, length};
ghost use Rattle.fields.specs.BigEndian.{number_at};
ghost use Rattle.header.specs.Size.{size_width};
ghost use Rattle.nak.specs.Nak.{area_start};

use fields::{Refusal, be};
use header::{LargeFileFlag, PduHeader, size};

pub mod compare;
pub mod count;
pub mod iter;
mod offset;
pub mod read;
pub mod requests;
pub mod reserve;
pub mod write;

// A NAK that was read: its header, its scope, and where its requests lie in the bytes that it was read from.
#[derive(Clone, Copy, Debug, PartialEq, Eq)]
pub struct Nak {
    pub header: PduHeader,
    // start_of_scope
    pub start: u64,
    // end_of_scope
    pub end: u64,
    // The request area: the bytes from `area` up to `stop`, which is E.
    pub area: usize,
    pub stop: usize,
    // num_segment_reqs: the whole pairs of the area.
    pub count: usize,
}

// The code of a NAK.
const NAK_CODE: u8 = 8;

// Where the scope stands in the data: behind the code.
const SCOPE_AT: usize = 1;

// h + 1 + F: where the request area starts.
fn area_start(header: PduHeader) -> usize
    ensures { (result ≡ area_start header) × (result ≤ 786) }
{
    let file = header.file;
    header.header_len() + SCOPE_AT + 2 * size::size_width(file)
}

// The number at a place whose bytes were seen to be there: it is not tested again, each width is a literal and each part has just so many
// bytes, so that no test and no loop is left of a read.
fn offset_at(s: &[u8], at: usize, file: LargeFileFlag) -> u64
    requires { at + size_width file ≤ length s.now }
    ensures { result ≡ number_at s.now at (size_width file) }
{
    match file {
        LargeFileFlag::Normal => be::read_be(&s[at..at + 4], 0, 4),
        LargeFileFlag::Large => be::read_be(&s[at..at + 8], 0, 8),
    }
}
