// Reserving room for pairs that the caller fills in, and finishing the NAK around them.
ghost use Rattle.std.specs.Prelude.{◌≡◌, length};
ghost use Rattle.fields.specs.Answer.{and_then, answer_of};
ghost use Rattle.nak.specs.Reserving.{reserving, finishing, finished_memory};
ghost use Rattle.cfdp.specs.Given.{given_header, reserved_from, left_by};
ghost use Rattle.cfdp.specs.Shown.{shown, reserved_numbers, written_numbers};

use crate::{Answer, Numbers, header_from, show, show_header, with_header};
use fields::Refusal;
use nak::reserve::ReservedNak;

impl Numbers for ReservedNak {
    ghost numbers = { reserved_numbers };

    fn put(self, answer: &mut Answer) {
        let header = self.header;
        let area = self.area as u64;
        let stop = self.stop as u64;
        let length = header.pdu_len() as u64;
        show_header(header, self.count as u64, area, stop, length, 0, answer)
    }
}

pub fn cfdp_nak_reserve(
    shape: &[u8; 10],
    ids: &[u64; 3],
    pairs: usize,
    buf: &[u8],
    answer: &mut Answer,
)
    ensures { answer.new ≡ shown reserved_numbers (and_then (given_header shape.now ids.now) (λ h. reserving h pairs (length buf.now))) }
{
    let joined = header_from(shape, 0, ids);
    let reserved = joined.and_then(|header| ReservedNak::new(header, pairs, buf));
    show(reserved, answer)
}

// What `cfdp_nak_reserve` was given is given again: where the area lies is worked out anew.
pub fn cfdp_nak_finish(
    shape: &[u8; 10],
    ids: &[u64; 3],
    pairs: usize,
    start: u64,
    end: u64,
    buf: &mut [u8],
    answer: &mut Answer,
)
    ensures answered { answer.new ≡ shown written_numbers (and_then (given_header shape.now ids.now) (λ h. finishing (reserved_from h pairs) start end (length buf.old))) }
    ensures stored { buf.new ≡ left_by (given_header shape.now ids.now) (λ h. finished_memory (reserved_from h pairs) start end buf.old) buf.old }
{
    let joined = header_from(shape, 0, ids);
    let finished = with_header(joined, buf, |header, buf| {
        let reserved = ReservedNak {
            header,
            count: pairs,
            area: 0,
            stop: 0,
        };
        reserved.finish(start, end, buf)
    });
    show(finished, answer)
}
