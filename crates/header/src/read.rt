// Reading a header: bytes 0 and 3 are taken apart by shifts and masks, the numbers are big-endian.
ghost use Rattle.std.specs.Prelude.{◌≡◌, ◌+◌, ◌/◌, ◌%◌, ◌^◌, ◌≤◌, ◌<◌, Err, length};
ghost use Rattle.fields.specs.Answer.{answer_of};
ghost use Rattle.fields.specs.Staged.{run};
ghost use Rattle.header.specs.Reading.{is_set, header_length_in, header_in, reading_header};
ghost use Rattle.header.specs.Within.{Measured};

use crate::flags::CFDP_VERSION_2;
use crate::judge::judge_widths;
use crate::{FIXED_HEADER_LEN, Flag, PduHeader};
use fields::{EntityId, Refusal, TransactionSeqNum, UnsignedByteField, be};

// Byte 3, which holds the two widths.
const WIDTHS_AT: usize = 3;

// The flag in bit k; bit 0 is the lowest.
fn flag_at<F: Flag>(byte: u8, k: u8) -> F
    requires { k < 8 }
    ensures { result ≡ F.flag_if (is_set byte (2 ^ k)) }
{
    F::from_bit((byte >> k) & 1 == 1)
}

// The three bits from bit k up.
fn three_at(byte: u8, k: u8) -> u8
    requires { k < 8 }
    ensures { result ≡ byte / 2 ^ k % 8 }
{
    (byte >> k) & 7
}

// A width, which is stored less one.
fn width_at(byte: u8, k: u8) -> u8
    requires { k < 8 }
    ensures { (result ≡ byte / 2 ^ k % 8 + 1) × (result ≤ 8) }
{
    three_at(byte, k) + 1
}

// The header that stands in its bytes. Each number is read from a part of just its bytes: so no test is left of a read.
pub(crate) fn header_in(s: &[u8]) -> PduHeader
    requires { header_length_in s.now ≤ length s.now }
    ensures { result ≡ header_in s.now }
{
    let first = s[0];
    let fourth = s[WIDTHS_AT];
    let entity = width_at(fourth, 4);
    let sequence = width_at(fourth, 0);
    let e = entity as usize;
    let q = sequence as usize;
    let second = FIXED_HEADER_LEN + e;
    let third = second + q;
    let length = be::read_be(&s[1..3], 0, 2) as u16;
    let source_id = be::read_be(&s[FIXED_HEADER_LEN..second], 0, e);
    let number = be::read_be(&s[second..third], 0, q);
    let destination_id = be::read_be(&s[third..third + e], 0, e);
    PduHeader {
        kind: flag_at(first, 4),
        direction: flag_at(first, 3),
        mode: flag_at(first, 2),
        crc: flag_at(first, 1),
        file: flag_at(first, 0),
        length,
        control: flag_at(fourth, 7),
        width: entity,
        metadata: flag_at(fourth, 3),
        source: EntityId(source_id),
        sequence: TransactionSeqNum(UnsignedByteField::new(sequence, number)),
        destination: EntityId(destination_id),
    }
}

pub(crate) fn short(found: usize, expected: usize) -> Result<usize, Refusal>
    ensures { result ≡ Err (Refusal.FromSliceTooSmall found expected) }
{
    Err(Refusal::FromSliceTooSmall { found, expected })
}

// The bytes of the header at the front of the bytes, or why none is there.
pub(crate) fn length_in(buf: &[u8]) -> Result<usize, Refusal>
    ensures { Measured result buf.now }
{
    let n = buf.len();
    if n < FIXED_HEADER_LEN {
        return short(n, FIXED_HEADER_LEN);
    }
    let fixed = &buf[..FIXED_HEADER_LEN];
    let version = three_at(fixed[0], 5);
    if version != CFDP_VERSION_2 {
        return Err(Refusal::CfdpVersionMissmatch(version));
    }
    let entity = width_at(fixed[WIDTHS_AT], 4);
    let sequence = width_at(fixed[WIDTHS_AT], 0);
    judge_widths(entity, sequence)?;
    let len = FIXED_HEADER_LEN + 2 * (entity as usize) + (sequence as usize);
    if n < len {
        return short(n, len);
    }
    Ok(len)
}

impl PduHeader {
    // Only the header is asked for: the rest of the PDU may be missing, and its checksum is not looked at.
    pub fn from_bytes(buf: &[u8]) -> Result<PduHeader, Refusal>
        ensures { answer_of result ≡ run reading_header buf.now }
    {
        let len = length_in(buf)?;
        Ok(header_in(&buf[..len]))
    }
}
