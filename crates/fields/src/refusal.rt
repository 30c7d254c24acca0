// The refusals of document 01, a variant for each number of its table and for those that document 02 adds, and their numbers for printing.
ghost use Rattle.std.specs.Prelude.{◌≡◌, ◌≤◌, length, get_or};
ghost use Rattle.fields.specs.Refusal.{numbers_of};

// Names are the Rust's, where the Rust has one; the names of 6, 10, 12, 18 to 28 and 30 to 32 are the port's own.
#[derive(Clone, Copy, PartialEq, Eq, Hash, Debug)]
pub enum Refusal {
    // 1: buffer short.
    FromSliceTooSmall { found: usize, expected: usize },
    // 2: version is not 1.
    CfdpVersionMissmatch(u8),
    // 3: entity width not 1, 2, 4, 8.
    InvalidEntityLen(u8),
    // 4: sequence width not 1, 2, 4, 8.
    InvalidTransactionSeqNumLen(u8),
    // 5: checksum not zero; the PDU's last 16 bits.
    Checksum(u16),
    // 6: declared data short; where the data ends, and where it would have to.
    DataFieldTooSmall { stop: usize, expected: usize },
    // 7: unknown directive.
    InvalidDirectiveType(u8),
    // 8: known directive, not the one that is read.
    WrongDirectiveType(u8),
    // 9: scope above 2^32 - 1 in a normal NAK.
    InvalidStartOrEndOfScope { start: u64, end: u64 },
    // 10: more pairs than fit.
    TooManySegmentRequests { found: usize, most: usize },
    // 11: output buffer short.
    ToSliceTooSmall { found: usize, expected: usize },
    // 12: odd count of lent numbers.
    OddCount(usize),
    // 13: source and destination widths differ.
    SourceDestIdLenMissmatch { source: u8, destination: u8 },
    // 14: value does not fit its width.
    ValueTooLargeForWidth { value: u64, width: u8 },
    // 15: packet size below h + 1 + F, plus 2 with CRC.
    TooSmallForPduHeader,
    // 16: reserved condition code.
    InvalidConditionCode,
    // 17: acknowledged directive not allowed.
    InvalidAckedDirectiveCode,
    // 18: first pair out of order, in the comparison of two NAKs; which NAK, and which of its pairs, each from 1.
    PairOutOfOrder { file: u8, pair: usize },
    // 18 of a log: a pair or a resent range out of order; the offset of its entry.
    EntryOutOfOrder(usize),
    // 19: transactions differ, in source or sequence number.
    TransactionsDiffer,
    // 20: no room for what is to be stored in lent numbers.
    NoRoom,
    // 21: not a directive: a PDU of type 1, file data.
    NotADirective,
    // 22: PDU above the 2,048 bytes of a receiver's window.
    PduTooLarge,
    // 23: received ranges or scope out of order.
    RangesOutOfOrder,
    // 24: a byte is missing and no request fits the packet.
    NoRequestFits,
    // 25: a name or an option runs past its end; the offset of its first byte.
    FieldCut(usize),
    // 26: an entry of a log is cut, has an unknown tag, or is a resent range not of 16 bytes; its offset.
    InvalidEntry(usize),
    // 27: more than 256 ranges owed.
    TooManyRanges,
    // 28: the bytes after the file size of an EOF are not one entity identifier field of an allowed width.
    InvalidFaultLocation,
    // 29: file size above 2^32 - 1 without the large file flag.
    FileSizeTooLarge,
    // 30: checksum type that the Rust's list lacks.
    InvalidChecksumType,
    // 31: name above 255 bytes.
    NameTooLong,
    // 32: data field above 65,535 bytes.
    DataFieldTooLarge,
}

// Kept: a count beside its values, since the definitions `numbers_of` and `listed` speak of these fields.
// A refusal as document 01 prints it: its number, how many values it returns, and these; a value that it does not
// return is 0.
#[derive(Clone, Copy, PartialEq, Eq, Hash, Debug)]
pub struct RefusalNumbers {
    pub number: u8,
    pub count: u8,
    pub first: u64,
    pub second: u64,
}

// A row of the table: a number, and its values, of which there are at most two.
fn row(number: u8, values: &[u64]) -> RefusalNumbers
    requires { length values.now ≤ 2 }
    ensures { result ≡ record { number = number; count = length values.now; first = get_or values.now 0 0; second = get_or values.now 1 0 } }
{
    RefusalNumbers {
        number,
        count: values.len() as u8,
        first: values.first().copied().unwrap_or(0),
        second: values.get(1).copied().unwrap_or(0),
    }
}

impl Refusal {
    pub fn numbers(self) -> RefusalNumbers
        ensures { result ≡ numbers_of self }
    {
        match self {
            Self::FromSliceTooSmall { found, expected } => row(1, &[found as u64, expected as u64]),
            Self::CfdpVersionMissmatch(version) => row(2, &[version as u64]),
            Self::InvalidEntityLen(width) => row(3, &[width as u64]),
            Self::InvalidTransactionSeqNumLen(width) => row(4, &[width as u64]),
            Self::Checksum(last) => row(5, &[last as u64]),
            Self::DataFieldTooSmall { stop, expected } => row(6, &[stop as u64, expected as u64]),
            Self::InvalidDirectiveType(code) => row(7, &[code as u64]),
            Self::WrongDirectiveType(code) => row(8, &[code as u64]),
            Self::InvalidStartOrEndOfScope { start, end } => row(9, &[start, end]),
            Self::TooManySegmentRequests { found, most } => row(10, &[found as u64, most as u64]),
            Self::ToSliceTooSmall { found, expected } => row(11, &[found as u64, expected as u64]),
            Self::OddCount(count) => row(12, &[count as u64]),
            Self::SourceDestIdLenMissmatch {
                source,
                destination,
            } => row(13, &[source as u64, destination as u64]),
            Self::ValueTooLargeForWidth { value, width } => row(14, &[value, width as u64]),
            Self::TooSmallForPduHeader => row(15, &[]),
            Self::InvalidConditionCode => row(16, &[]),
            Self::InvalidAckedDirectiveCode => row(17, &[]),
            Self::PairOutOfOrder { file, pair } => row(18, &[file as u64, pair as u64]),
            Self::EntryOutOfOrder(at) => row(18, &[at as u64]),
            Self::TransactionsDiffer => row(19, &[]),
            Self::NoRoom => row(20, &[]),
            Self::NotADirective => row(21, &[]),
            Self::PduTooLarge => row(22, &[]),
            Self::RangesOutOfOrder => row(23, &[]),
            Self::NoRequestFits => row(24, &[]),
            Self::FieldCut(at) => row(25, &[at as u64]),
            Self::InvalidEntry(at) => row(26, &[at as u64]),
            Self::TooManyRanges => row(27, &[]),
            Self::InvalidFaultLocation => row(28, &[]),
            Self::FileSizeTooLarge => row(29, &[]),
            Self::InvalidChecksumType => row(30, &[]),
            Self::NameTooLong => row(31, &[]),
            Self::DataFieldTooLarge => row(32, &[]),
        }
    }
}
