// The library for C and Rust: each exported function takes numbers and slices, calls the codec, and writes its answer as
// numbers. Every value of every parameter has its answer. `include/cfdp.h` declares them all.
#![tactic(auto)]

ghost use Rattle.std.specs.Prelude.{◌≡◌, ℕ, List, [], ◌∷◌, ◌++◌, Err, MatchResult};
ghost use Rattle.fields.specs.Answer.{answer_of};
ghost use Rattle.cfdp.specs.Given.{header_from};
ghost use Rattle.cfdp.specs.Shown.{padded, answer_size, shown, refusal_shown, header_numbers, one_number, verdict_number, written_numbers, nak_numbers};

use fields::{Refusal, TransactionSeqNum, UnsignedByteField};
use header::judge::HeaderFields;
use header::pdu::PduWritten;
use header::{
    CrcFlag, Direction, Flag, LargeFileFlag, PduHeader, PduType, SegmentMetadataFlag,
    SegmentationControl, TransmissionMode,
};
use nak::Nak;

pub mod acks;
pub mod compare;
pub mod differ;
pub mod eofs;
pub mod headers;
pub mod metadatas;
pub mod owed;
pub mod plans;
pub mod read;
pub mod receive;
pub mod reserve;
pub mod write;

// An answer: 0 and what was accepted, or the refusal's number and its values; zeros behind.
pub const ANSWER_LEN: usize = 24;

pub type Answer = [u64; ANSWER_LEN];

// A header from its numbers: 13 where the two identifiers' widths differ, and nothing else of it is judged here.
// Kept: shape and identifiers are apart, because C lends them so.
fn header_from(shape: &[u8; 10], length: u16, ids: &[u64; 3]) -> Result<PduHeader, Refusal>
    ensures { answer_of result ≡ header_from shape.now length ids.now }
{
    PduHeader::from_fields(HeaderFields {
        kind: PduType::from_bit(shape[0] != 0),
        direction: Direction::from_bit(shape[1] != 0),
        mode: TransmissionMode::from_bit(shape[2] != 0),
        crc: CrcFlag::from_bit(shape[3] != 0),
        file: LargeFileFlag::from_bit(shape[4] != 0),
        length,
        control: SegmentationControl::from_bit(shape[5] != 0),
        metadata: SegmentMetadataFlag::from_bit(shape[6] != 0),
        source: UnsignedByteField::new(shape[7], ids[0]),
        sequence: TransactionSeqNum(UnsignedByteField::new(shape[8], ids[1])),
        destination: UnsignedByteField::new(shape[9], ids[2]),
    })
}

// What is made of a header with the lent bytes; where there is no header no byte changes.
fn with_header<T, F: FnOnce(PduHeader, &mut [u8]) -> Result<T, Refusal>>(
    joined: Result<PduHeader, Refusal>,
    buf: &mut [u8],
    write: F,
) -> Result<T, Refusal>
    requires { F.IsAlwaysCallable write }
    ensures { MatchResult joined (λ h. (lent left : _) × F.post write h lent result left × (lent.now ≡ buf.old) × (left.now ≡ buf.new)) (λ e. (result ≡ Err e) × (buf.new ≡ buf.old)) }
{
    write(joined?, buf)
}

// Up to three numbers, and zeros behind them.
fn show_few(first: u64, second: u64, third: u64, answer: &mut Answer)
    ensures { answer.new ≡ padded answer_size (first ∷ second ∷ third ∷ []) }
{
    *answer = [0; ANSWER_LEN];
    answer[0] = first;
    answer[1] = second;
    answer[2] = third;
}

fn show_refusal(refusal: Refusal, answer: &mut Answer)
    ensures { answer.new ≡ refusal_shown refusal }
{
    let n = refusal.numbers();
    show_few(n.number as u64, n.first, n.second, answer)
}

// A header, and up to five numbers behind it.
fn show_header(header: PduHeader, a: u64, b: u64, c: u64, d: u64, e: u64, answer: &mut Answer)
    ensures { answer.new ≡ padded answer_size (0 ∷ (header_numbers header ++ (a ∷ b ∷ c ∷ d ∷ e ∷ []))) }
{
    let kind = header.kind;
    let direction = header.direction;
    let mode = header.mode;
    let crc = header.crc;
    let file = header.file;
    let control = header.control;
    let metadata = header.metadata;
    let width = header.width as u64;
    let sequence = header.sequence.0;
    *answer = [
        0,
        kind.bit() as u64,
        direction.bit() as u64,
        mode.bit() as u64,
        crc.bit() as u64,
        file.bit() as u64,
        control.bit() as u64,
        metadata.bit() as u64,
        header.length as u64,
        width,
        header.source.0,
        sequence.width as u64,
        sequence.value,
        width,
        header.destination.0,
        a,
        b,
        c,
        d,
        e,
        0,
        0,
        0,
        0,
    ];
}

// What is shown of a value that was accepted: its numbers.
trait Numbers {
    ghost numbers: { Self → List ℕ };

    fn put(self, answer: &mut Answer)
        ensures { answer.new ≡ padded answer_size (0 ∷ numbers self) };
}

// A value's numbers behind 0, or the refusal.
fn show<T: Numbers>(res: Result<T, Refusal>, answer: &mut Answer)
    ensures { answer.new ≡ shown T.numbers (answer_of res) }
{
    match res {
        Err(refusal) => show_refusal(refusal, answer),
        Ok(value) => value.put(answer),
    }
}

// A length or a count.
impl Numbers for usize {
    ghost numbers = { one_number };

    fn put(self, answer: &mut Answer) {
        show_few(0, self as u64, 0, answer)
    }
}

// Yes as 1, no as 0.
impl Numbers for bool {
    ghost numbers = { verdict_number };

    fn put(self, answer: &mut Answer) {
        show_few(0, self as u64, 0, answer)
    }
}

impl Numbers for PduHeader {
    ghost numbers = { header_numbers };

    fn put(self, answer: &mut Answer) {
        show_header(self, 0, 0, 0, 0, 0, answer)
    }
}

impl Numbers for PduWritten {
    ghost numbers = { written_numbers };

    fn put(self, answer: &mut Answer) {
        show_header(self.header, self.length as u64, 0, 0, 0, 0, answer)
    }
}

impl Numbers for Nak {
    ghost numbers = { nak_numbers };

    fn put(self, answer: &mut Answer) {
        let area = self.area as u64;
        let stop = self.stop as u64;
        let count = self.count as u64;
        show_header(self.header, self.start, self.end, area, stop, count, answer)
    }
}
