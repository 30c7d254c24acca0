// Reserving room for pairs that the caller fills in, and finishing the NAK around them.
ghost use Rattle.std.specs.Prelude.{◌≡◌, length};
ghost use Rattle.fields.specs.Answer.{and_then};
ghost use Rattle.nak.specs.Reserving.{reserving, finishing, finished_memory};
ghost use Rattle.cfdp.specs.Given.{given_header, reserved_from, left_by};
ghost use Rattle.cfdp.specs.Shown.{shown, reserved_numbers, written_numbers};

use cfdp::Answer;

#[unsafe(no_mangle)]
pub extern "C" fn cfdp_nak_reserve(
    shape: &[u8; 10],
    ids: &[u64; 3],
    pairs: usize,
    buf: &[u8],
    answer: &mut Answer,
)
    ensures { answer.new ≡ shown reserved_numbers (and_then (given_header shape.now ids.now) (λ h. reserving h pairs (length buf.now))) }
{
    cfdp::reserve::cfdp_nak_reserve(shape, ids, pairs, buf, answer)
}

// What `cfdp_nak_reserve` was given is given again: where the area lies is worked out anew.
#[unsafe(no_mangle)]
pub extern "C" fn cfdp_nak_finish(
    shape: &[u8; 10],
    ids: &[u64; 3],
    pairs: usize,
    start: u64,
    end: u64,
    buf: &mut [u8],
    answer: &mut Answer,
)
    ensures answered { answer.new ≡ shown written_numbers (and_then (given_header shape.now ids.now) (λ h. finishing (reserved_from h pairs) start end (length buf.old))) }
    ensures stored { buf.new ≡ left_by (given_header shape.now ids.now) (λ h. finished_memory (reserved_from h pairs) start end buf.old) buf.old }
{
    cfdp::reserve::cfdp_nak_finish(shape, ids, pairs, start, end, buf, answer)
}
