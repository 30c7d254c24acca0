// Writing a header: bytes 0 and 3 are packed by shifts and masks, and each field is written behind the one before.
ghost use Rattle.std.specs.Prelude.{◌≡◌, ◌+◌, ◌*◌, ◌^◌, ◌≤◌, ◌<◌, [], ◌∷◌, ◌++◌, length, drop};
ghost use Rattle.fields.specs.Answer.{all_of, answer_of};
ghost use Rattle.fields.specs.BigEndian.{be_put};
ghost use Rattle.header.specs.Header.{header_length, first_byte, fourth_byte, header_bytes};
ghost use Rattle.header.specs.Judging.{Sound};
ghost use Rattle.header.specs.Writing.{no_room, writing_header, header_memory};

use crate::flags::CFDP_VERSION_2;
use crate::{FIXED_HEADER_LEN, Flag, PduHeader};
use fields::{Refusal, be};

// `high`, and below it `low` in k bits.
fn beside(high: u8, k: u8, low: u8) -> u8
    requires { (k < 8) × (high * 2 ^ k < 256) × (low < 2 ^ k) }
    ensures { result ≡ high * 2 ^ k + low }
{
    (high << k) | low
}

fn first_byte(h: PduHeader) -> u8
    ensures { result ≡ first_byte h }
{
    let two = beside(h.crc.bit(), 1, h.file.bit());
    let three = beside(h.mode.bit(), 2, two);
    let four = beside(h.direction.bit(), 3, three);
    let five = beside(h.kind.bit(), 4, four);
    beside(CFDP_VERSION_2, 5, five)
}

fn fourth_byte(h: PduHeader) -> u8
    requires { Sound h }
    ensures { result ≡ fourth_byte h }
{
    let entity = h.width - 1;
    let sequence = h.sequence.0.width - 1;
    let four = beside(h.metadata.bit(), 3, sequence);
    let seven = beside(entity, 4, four);
    beside(h.control.bit(), 7, seven)
}

// Stores an identifier as `write_be` does. The widths below 8 are literals, so that one store and no loop is left of each.
fn put_identifier(buf: &mut [u8], at: usize, width: usize, value: u64)
    ensures { buf.new ≡ be_put buf.old at width value }
{
    if width == 1 {
        be::write_be(buf, at, 1, value);
        return;
    }
    if width == 2 {
        be::write_be(buf, at, 2, value);
        return;
    }
    if width == 4 {
        be::write_be(buf, at, 4, value);
        return;
    }
    be::write_be(buf, at, width, value);
}

// The header's bytes, at the front of the buffer.
pub(crate) fn put_header(h: PduHeader, buf: &mut [u8])
    requires { Sound h × (header_length h ≤ length buf.old) }
    ensures { buf.new ≡ header_bytes h ++ drop (header_length h) buf.old }
{
    let entity = h.width as usize;
    let sequence = h.sequence.0.width as usize;
    let source_id = h.source.0;
    let number = h.sequence.0.value;
    let destination_id = h.destination.0;
    let length = h.length as u64;
    let first = first_byte(h) as u64;
    let fourth = fourth_byte(h) as u64;
    let second = FIXED_HEADER_LEN + entity;
    let third = second + sequence;
    be::write_be(buf, 0, 1, first);
    be::write_be(buf, 1, 2, length);
    be::write_be(buf, 3, 1, fourth);
    put_identifier(buf, FIXED_HEADER_LEN, entity, source_id);
    put_identifier(buf, second, sequence, number);
    put_identifier(buf, third, entity, destination_id);
}

// 11: whether a buffer of so many bytes has the room that is needed.
pub(crate) fn judge_room(found: usize, expected: usize) -> Result<(), Refusal>
    ensures { answer_of result ≡ all_of (no_room found expected ∷ []) }
{
    if found < expected {
        return Err(Refusal::ToSliceTooSmall { found, expected });
    }
    Ok(())
}

// The written length, or why a header cannot be written into so many bytes.
fn writable(h: PduHeader, room: usize) -> Result<usize, Refusal>
    ensures { answer_of result ≡ writing_header h room }
{
    h.judged()?;
    let len = h.header_len();
    judge_room(room, len)?;
    Ok(len)
}

impl PduHeader {
    // The written length. A refused write changes no byte, an accepted one changes the header's bytes and no others.
    pub fn write_to_slice(self, buf: &mut [u8]) -> Result<usize, Refusal>
        ensures answered { answer_of result ≡ writing_header self (length buf.old) }
        ensures stored { buf.new ≡ header_memory self buf.old }
    {
        let len = writable(self, buf.len())?;
        put_header(self, buf);
        Ok(len)
    }
}
