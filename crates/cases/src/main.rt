// Runs every published checksum vector that we know, document 01's cases, and cases of the rules of documents 01 and 02; each is printed
// with where it comes from and what it gives.
#![tactic(auto)]

use ack::Ack;
use ack::status::TransactionStatus;
use eof::Eof;
use eof::fault::EntityIdTlv;
use fields::{EntityId, Refusal, TransactionSeqNum, UnsignedByteField, be};
use header::pdu::PduWritten;
use header::{
    CrcFlag, Direction, LargeFileFlag, PduHeader, PduType, SegmentMetadataFlag,
    SegmentationControl, TransmissionMode,
};
use nak::reserve::ReservedNak;
use nak::{compare, count, write};
use std::fmt::{Display, Formatter};
use std::{fmt, io};

mod pdus;

// N's pair, 100 and 200, as the caller of a reserved NAK stores it.
const PAIR: u64 = 0x64000000C8;

const N: [u8; 24] = [
    0x28, 0x00, 0x11, 0x00, 0x01, 0x02, 0x03, 0x08, 0x00, 0x00, 0x00, 0x00, 0x00, 0x00, 0x03, 0xE8,
    0x00, 0x00, 0x00, 0x64, 0x00, 0x00, 0x00, 0xC8,
];

// N with length 00 15 and four zero bytes more.
const LONGER: [u8; 28] = [
    0x28, 0x00, 0x15, 0x00, 0x01, 0x02, 0x03, 0x08, 0x00, 0x00, 0x00, 0x00, 0x00, 0x00, 0x03, 0xE8,
    0x00, 0x00, 0x00, 0x64, 0x00, 0x00, 0x00, 0xC8, 0x00, 0x00, 0x00, 0x00,
];

// Bytes, each in two hexadecimal digits and a blank.
#[derive(Drop)]
struct Hex<'a>(&'a [u8]);

impl Display for Hex<'_> {
    fn fmt<W: fmt::Write>(&self, f: &mut Formatter<W>) -> fmt::Result {
        for byte in self.0 {
            write!(f, "{byte:02X} ")?;
        }
        Ok(())
    }
}

fn vector(rt: &impl Print, source: &str, s: &[u8]) -> io::Result<()> {
    println!(rt; "{source}: {}-> {:04X}", Hex(s), fields::crc::checksum(s))
}

// Prints an example's bytes, and what one of the listings prints of them.
fn reading<F: FnOnce(&[u8]) -> bool>(
    rt: &impl Print,
    example: &str,
    bytes: &[u8],
    list: F,
) -> io::Result<()>
    requires { F.IsAlwaysCallable list }
{
    println!(rt; "{example}: {}->", Hex(bytes))?;
    list(bytes);
    Ok(())
}

fn checksums(rt: &impl Print) -> io::Result<()> {
    let catalogue = "RevEng catalogue, CRC-16/IBM-3740";
    vector(rt, catalogue, b"")?;
    vector(rt, catalogue, b"123456789")?;
    let annex = "ECSS-E-ST-70-41C, annex B";
    vector(rt, annex, &[0x00, 0x00])?;
    vector(rt, annex, &[0x00, 0x00, 0x00])?;
    vector(rt, annex, &[0xAB, 0xCD, 0xEF, 0x01])?;
    vector(rt, annex, &[0x14, 0x56, 0xF8, 0x9A, 0x00, 0x01])?;
    // The published ones are short: eight bytes that go at a time, seven such and seven single bytes, and 64, which go by the table.
    let python = "Python's binascii.crc_hqx from 0xFFFF";
    vector(
        rt,
        python,
        &[0xFE, 0xDC, 0xBA, 0x98, 0x76, 0x54, 0x32, 0x10],
    )?;
    vector(
        rt,
        python,
        b"0123456789ABCDEF0123456789ABCDEF0123456789ABCDEF0123456789ABCDE",
    )?;
    vector(
        rt,
        python,
        b"0123456789ABCDEF0123456789ABCDEF0123456789ABCDEF0123456789ABCDEF",
    )
}

fn readings(rt: &impl Print) -> io::Result<()> {
    reading(rt, "document 01, reading", &LONGER, listing::list)?;
    reading(rt, "document 01, reading", &N[..20], listing::list)
}

// A header of widths 1, with the identifiers and the number of N.
fn header(file: LargeFileFlag) -> PduHeader {
    PduHeader {
        kind: PduType::FileDirective,
        direction: Direction::TowardsReceiver,
        mode: TransmissionMode::Acknowledged,
        crc: CrcFlag::NoCrc,
        file,
        length: 0,
        control: SegmentationControl::NoRecordBoundaryPreservation,
        width: 1,
        metadata: SegmentMetadataFlag::NotPresent,
        source: EntityId(1),
        sequence: TransactionSeqNum(UnsignedByteField { width: 1, value: 2 }),
        destination: EntityId(3),
    }
}

fn summed(file: LargeFileFlag) -> PduHeader {
    PduHeader {
        crc: CrcFlag::WithCrc,
        ..header(file)
    }
}

// What is printed of what was asked for, or the refusal.
fn print_answer<T: Drop, F: FnOnce(T) -> io::Result<()>>(
    res: Result<T, Refusal>,
    print: F,
) -> io::Result<()>
    requires { F.IsAlwaysCallable print }
{
    match res {
        Err(refusal) => {
            listing::print_refusal(refusal);
            Ok(())
        }
        Ok(value) => print(value),
    }
}

fn written(
    rt: &impl Print,
    example: &str,
    case: &str,
    res: Result<PduWritten, Refusal>,
) -> io::Result<()> {
    print!(rt; "{example}: {case} -> ")?;
    print_answer(res, |written| {
        let header = written.header;
        println!(rt; "written {}, length {}", written.length, header.length)
    })
}

fn writing(rt: &impl Print, case: &str, res: Result<PduWritten, Refusal>) -> io::Result<()> {
    written(rt, "document 01, writing", case, res)
}

// The bytes that a call left.
fn left(rt: &impl Print, buf: &[u8]) -> io::Result<()> {
    println!(rt; "{}left", Hex(buf))
}

fn normal_lists(rt: &impl Print) -> io::Result<()> {
    let numbers = [7u32; 16600];
    let mut buf = [0u8; 65543];
    let h = header(LargeFileFlag::Normal);
    writing(
        rt,
        "8,190 normal pairs",
        write::write_numbers(h, 0, 1000, &numbers[..16380], &mut buf),
    )?;
    writing(
        rt,
        "8,191 normal pairs",
        write::write_numbers(h, 0, 1000, &numbers[..16382], &mut buf),
    )?;
    writing(
        rt,
        "8,300 normal pairs",
        write::write_numbers(h, 0, 1000, &numbers, &mut buf),
    )?;
    writing(
        rt,
        "three numbers",
        write::write_numbers(h, 0, 1000, &numbers[..3], &mut buf),
    )?;
    writing(
        rt,
        "scope end 4,294,967,295",
        write::write_numbers(h, 0, 4294967295, &numbers[..2], &mut buf),
    )?;
    writing(
        rt,
        "scope end 4,294,967,296",
        write::write_numbers(h, 0, 4294967296, &numbers[..2], &mut buf),
    )
}

fn large_lists(rt: &impl Print) -> io::Result<()> {
    let numbers = [7u64; 8190];
    let mut buf = [0u8; 65535];
    let h = header(LargeFileFlag::Normal);
    writing(
        rt,
        "4,094 large pairs",
        write::write_numbers(h, 0, 1000, &numbers[..8188], &mut buf),
    )?;
    writing(
        rt,
        "4,095 large pairs",
        write::write_numbers(h, 0, 1000, &numbers, &mut buf),
    )
}

// What is written is N, byte for byte, and reads back.
fn writes_n(rt: &impl Print) -> io::Result<()> {
    let numbers = [100u32, 200u32];
    let mut buf = [0u8; 26];
    let h = header(LargeFileFlag::Large);
    writing(
        rt,
        "N",
        write::write_numbers(h, 0, 1000, &numbers, &mut buf),
    )?;
    reading(rt, "document 01, reading", &buf, listing::list)
}

// A buffer one byte short is refused, and keeps every byte.
fn one_byte_short(rt: &impl Print) -> io::Result<()> {
    let numbers = [100u32, 200u32];
    let mut buf = [0xEEu8; 23];
    let h = header(LargeFileFlag::Normal);
    writing(
        rt,
        "N into 23 bytes",
        write::write_numbers(h, 0, 1000, &numbers, &mut buf),
    )?;
    left(rt, &buf)
}

// N again: its room reserved, the pair filled in, the rest written around it.
fn finishes_n(rt: &impl Print) -> io::Result<()> {
    let mut buf = [0u8; 26];
    let h = header(LargeFileFlag::Normal);
    let result = ReservedNak::new(h, 1, &buf);
    match result {
        Err(refusal) => {
            listing::print_refusal(refusal);
        }
        Ok(reserved) => {
            be::write_be(&mut buf, reserved.area, 8, PAIR);
            writing(
                rt,
                "N, reserved and finished",
                reserved.finish(0, 1000, &mut buf),
            )?;
            left(rt, &buf)?;
        }
    }
    Ok(())
}

fn comparing(rt: &impl Print, case: &str, res: Result<bool, Refusal>) -> io::Result<()> {
    print!(rt; "document 01, comparing N: {case} -> ")?;
    print_answer(
        res,
        |same| println!(rt; "{}", if same { "yes" } else { "no" }),
    )
}

fn compares_n(rt: &impl Print) -> io::Result<()> {
    let numbers = [100u32, 200u32, 300u32, 400u32];
    let h = header(LargeFileFlag::Normal);
    comparing(
        rt,
        "with itself",
        compare::compare_numbers(&N, h, 0, 1000, &numbers[..2]),
    )?;
    comparing(
        rt,
        "with another pair behind",
        compare::compare_numbers(&N, h, 0, 1000, &numbers),
    )?;
    comparing(
        rt,
        "with no list",
        compare::compare_no_segment_requests(&N, h, 0, 1000),
    )?;
    comparing(
        rt,
        "with three numbers",
        compare::compare_numbers(&N, h, 0, 1000, &numbers[..3]),
    )
}

fn most(rt: &impl Print, case: &str, size: usize, h: PduHeader) -> io::Result<()> {
    print!(rt; "document 02, most requests, {case}, of {size} -> ")?;
    print_answer(
        count::calculate_max_segment_requests(size, h),
        |most| println!(rt; "{most}"),
    )
}

// Behind the sizes of a case the longest PDU, 65,535 + h; the size that misled the planner; the largest that there is.
fn most_of_each(rt: &impl Print, case: &str, h: PduHeader, sizes: [usize; 8]) -> io::Result<()> {
    let far = [65542, 100000, usize::MAX];
    for size in sizes.iter().chain(far.iter()) {
        most(rt, case, *size, h)?;
    }
    Ok(())
}

// h is 7. Beside the least packet and one pair more, and beside the packet of as many pairs as a NAK has and one pair more.
fn most_requests(rt: &impl Print) -> io::Result<()> {
    let sizes = [15, 16, 23, 24, 65535, 65536, 65543, 65544];
    most_of_each(rt, "normal", header(LargeFileFlag::Normal), sizes)?;
    let sizes = [17, 18, 25, 26, 65537, 65538, 65545, 65546];
    most_of_each(rt, "normal with CRC", summed(LargeFileFlag::Normal), sizes)?;
    let sizes = [23, 24, 39, 40, 65527, 65528, 65543, 65544];
    most_of_each(rt, "large", header(LargeFileFlag::Large), sizes)?;
    let sizes = [25, 26, 41, 42, 65529, 65530, 65545, 65546];
    most_of_each(rt, "large with CRC", summed(LargeFileFlag::Large), sizes)
}

// N with the bit of the PDU type set: 21. With a checksum that bit shows as damage: 5.
fn reads_file_data(rt: &impl Print) -> io::Result<()> {
    let mut n = N;
    n[0] = 0x38;
    reading(rt, "document 02, reading", &n, listing::list)?;
    let numbers = [100u32, 200u32];
    let mut buf = [0u8; 26];
    let h = summed(LargeFileFlag::Normal);
    let _ = write::write_numbers(h, 0, 1000, &numbers, &mut buf);
    buf[0] = 0x3A;
    reading(rt, "document 02, reading", &buf, listing::list)
}

// 21 stands before 12 in writing, before 10 in finishing, before 15 in counting.
fn writes_file_data(rt: &impl Print) -> io::Result<()> {
    let numbers = [100u32, 200u32, 300u32];
    let mut buf = [0xEEu8; 3];
    let h = PduHeader {
        kind: PduType::FileData,
        ..header(LargeFileFlag::Normal)
    };
    written(
        rt,
        "document 02, writing",
        "file data, three numbers",
        write::write_numbers(h, 0, 1000, &numbers, &mut buf),
    )?;
    let reserved = ReservedNak {
        header: h,
        count: 8191,
        area: 16,
        stop: 24,
    };
    written(
        rt,
        "document 02, finishing",
        "file data, 8,191 pairs",
        reserved.finish(0, 1000, &mut buf),
    )?;
    left(rt, &buf)?;
    most(rt, "file data", 3, h)
}

fn eof_of(condition: u8, size: u64, fault: Option<EntityIdTlv>) -> Eof {
    Eof {
        header: header(LargeFileFlag::Normal),
        condition,
        file_checksum: 0x01020304,
        size,
        fault,
    }
}

fn located(width: u8, id: u64) -> Option<EntityIdTlv> {
    Some(EntityIdTlv {
        width,
        id: EntityId(id),
    })
}

// Written by the tables of section 5.2.2, read back, and with one byte changed: a reserved condition code, a fault location that E cuts.
fn eofs(rt: &impl Print) -> io::Result<()> {
    let mut buf = [0xEEu8; 20];
    let eof = eof_of(4, 1000, located(1, 5));
    written(
        rt,
        "5.2.2, writing",
        "filestore rejection at entity 5",
        eof.write_to_slice(&mut buf),
    )?;
    reading(rt, "5.2.2, reading", &buf, listing::eofs::list)?;
    buf[8] = 0xC0;
    reading(rt, "document 02, reading", &buf, listing::eofs::list)?;
    buf[8] = 0x40;
    buf[2] = 0x0C;
    reading(rt, "document 02, reading", &buf, listing::eofs::list)
}

fn refused_eofs(rt: &impl Print) -> io::Result<()> {
    let mut buf = [0xEEu8; 3];
    let size = eof_of(0, 4294967296, None);
    let width = eof_of(0, 4294967295, located(3, 5));
    let value = eof_of(0, 0, located(1, 256));
    written(
        rt,
        "document 02, writing",
        "a file of 4,294,967,296 bytes",
        size.write_to_slice(&mut buf),
    )?;
    written(
        rt,
        "document 02, writing",
        "a fault location of 3 bytes",
        width.write_to_slice(&mut buf),
    )?;
    written(
        rt,
        "document 02, writing",
        "entity 256 in one byte",
        value.write_to_slice(&mut buf),
    )?;
    left(rt, &buf)
}

fn ack_of(acked: u8, condition: u8, status: TransactionStatus) -> Ack {
    Ack {
        header: header(LargeFileFlag::Normal),
        acked,
        condition,
        status,
    }
}

// Written by the tables of section 5.2.4 and read back: of an EOF towards the sender, of a Finished towards the receiver.
fn acks(rt: &impl Print) -> io::Result<()> {
    let mut buf = [0xEEu8; 10];
    let eof = ack_of(4, 0, TransactionStatus::Active);
    written(
        rt,
        "5.2.4, writing",
        "of an EOF",
        eof.write_to_slice(&mut buf),
    )?;
    reading(rt, "5.2.4, reading", &buf, listing::acks::list)?;
    let finished = ack_of(5, 15, TransactionStatus::Terminated);
    written(
        rt,
        "5.2.4, writing",
        "of a Finished, cancelled",
        finished.write_to_slice(&mut buf),
    )?;
    reading(rt, "5.2.4, reading", &buf, listing::acks::list)?;
    buf[8] = 0x60;
    reading(rt, "document 02, reading", &buf, listing::acks::list)
}

fn print_all(rt: &impl Print) -> io::Result<()> {
    checksums(rt)?;
    readings(rt)?;
    normal_lists(rt)?;
    one_byte_short(rt)?;
    large_lists(rt)?;
    writes_n(rt)?;
    finishes_n(rt)?;
    compares_n(rt)?;
    most_requests(rt)?;
    reads_file_data(rt)?;
    writes_file_data(rt)?;
    eofs(rt)?;
    refused_eofs(rt)?;
    acks(rt)?;
    pdus::metadatas(rt)?;
    pdus::changed_metadatas(rt)?;
    pdus::refused_metadatas(rt)?;
    pdus::pdus(rt)
}

fn main(rt: HostRuntime) {
    // Where standard output takes nothing there is nobody to tell.
    let _ = print_all(&rt);
}
