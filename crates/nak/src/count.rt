// How many requests a NAK has at most in a packet of a given size (the Rust's `calculate_max_segment_requests`).
ghost use Rattle.std.specs.Prelude.{◌≡◌, ◌≤◌};
ghost use Rattle.fields.specs.Answer.{answer_of};
ghost use Rattle.nak.specs.Counting.{least_packet, most_requests};

use crate::{area_start, write};
use fields::Refusal;
use header::size::size_width;
use header::{CRC_LEN, Flag, PduHeader};

// A NAK with no request.
fn least_packet(header: PduHeader) -> usize
    ensures { (result ≡ least_packet header) × (result ≤ 788) }
{
    let crc = header.crc;
    area_start(header) + CRC_LEN * (crc.bit() as usize)
}

pub fn calculate_max_segment_requests(size: usize, header: PduHeader) -> Result<usize, Refusal>
    ensures { answer_of result ≡ most_requests header size }
{
    header.judged_directive()?;
    let least = least_packet(header);
    if size < least {
        return Err(Refusal::TooSmallForPduHeader);
    }
    let file = header.file;
    let by_size = (size - least) / (2 * size_width(file));
    // The Rust stops here, and its count may be one that no writer takes.
    let most = write::most_pairs(file);
    Ok(by_size.min(most))
}
