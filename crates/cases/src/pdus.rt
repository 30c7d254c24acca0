// Metadata PDUs, written and read; and what `pdulist` prints of each of the four PDUs, and of each refusal that a reader gives.
use crate::{N, header, left, reading, written};
use header::LargeFileFlag;
use metadata::MetadataParams;
use std::io;

// An EOF, filestore rejection at entity 5.
const EOF: [u8; 20] = [
    0x20, 0x00, 0x0D, 0x00, 0x01, 0x02, 0x03, 0x04, 0x40, 0x00, 0x00, 0x00, 0x07, 0x00, 0x00, 0x00,
    0x09, 0x06, 0x01, 0x05,
];

// An ACK of an EOF.
const ACK: [u8; 10] = [0x28, 0x00, 0x03, 0x00, 0x01, 0x02, 0x03, 0x06, 0x40, 0x01];

// A Metadata PDU, from a.bin to b.bin, with a message to the user.
const METADATA: [u8; 29] = [
    0x20, 0x00, 0x16, 0x00, 0x01, 0x02, 0x03, 0x07, 0x03, 0x00, 0x00, 0x00, 0x09, 0x05, 0x61, 0x2E,
    0x62, 0x69, 0x6E, 0x05, 0x62, 0x2E, 0x62, 0x69, 0x6E, 0x02, 0x02, 0x61, 0x62,
];

fn params(kind: u8, size: u64) -> MetadataParams {
    MetadataParams {
        header: header(LargeFileFlag::Normal),
        closure: false,
        kind,
        size,
    }
}

// Written by the tables of section 5.2.5, and read back.
pub fn metadatas(rt: &impl Print) -> io::Result<()> {
    let mut buf = [0xEEu8; 29];
    let file = params(3, 9);
    written(
        rt,
        "5.2.5, writing",
        "from a.bin to b.bin",
        file.write_to_slice(b"a.bin", b"b.bin", &[2, 2, b'a', b'b'], &mut buf),
    )?;
    reading(rt, "5.2.5, reading", &buf, listing::metadatas::list)
}

fn changed(rt: &impl Print, bytes: &[u8]) -> io::Result<()> {
    reading(rt, "document 02, reading", bytes, listing::metadatas::list)
}

// The same with one byte changed: a type that the list lacks, a name and an option beyond E.
pub fn changed_metadatas(rt: &impl Print) -> io::Result<()> {
    let mut bytes = METADATA;
    bytes[8] = 0x0E;
    changed(rt, &bytes)?;
    bytes[8] = 0x43;
    bytes[19] = 10;
    changed(rt, &bytes)?;
    bytes[19] = 5;
    bytes[26] = 3;
    changed(rt, &bytes)
}

pub fn refused_metadatas(rt: &impl Print) -> io::Result<()> {
    let mut buf = [0xEEu8; 3];
    let long = [b'a'; 256];
    let lacking = params(4, 4294967296);
    let large = params(3, 4294967296);
    let good = params(3, 9);
    written(
        rt,
        "document 02, writing",
        "checksum type 4",
        lacking.write_to_slice(&long, b"", &[2], &mut buf),
    )?;
    written(
        rt,
        "document 02, writing",
        "4,294,967,296 bytes",
        large.write_to_slice(&long, b"", &[2], &mut buf),
    )?;
    written(
        rt,
        "document 02, writing",
        "a name of 256 bytes",
        good.write_to_slice(&long, b"", &[2], &mut buf),
    )?;
    written(
        rt,
        "document 02, writing",
        "a cut option",
        good.write_to_slice(b"", b"", &[6, 1, 5, 2], &mut buf),
    )?;
    written(
        rt,
        "document 02, writing",
        "no name",
        good.write_to_slice(b"", b"", b"", &mut buf),
    )?;
    left(rt, &buf)
}

fn listed(rt: &impl Print, bytes: &[u8]) -> io::Result<()> {
    reading(rt, "pdulist", bytes, listing::pdus::list)
}

// What every reader tests: 1, 2, 3, 4, 5, 6, 21, 7, and 8 for a directive that has no reader here.
fn refused_first(rt: &impl Print) -> io::Result<()> {
    let mut bytes = ACK;
    listed(rt, &bytes[..9])?;
    bytes[0] = 0x08;
    listed(rt, &bytes)?;
    bytes[0] = 0x28;
    bytes[3] = 0x20;
    listed(rt, &bytes)?;
    bytes[3] = 0x02;
    listed(rt, &bytes)?;
    bytes[3] = 0x00;
    bytes[0] = 0x2A;
    listed(rt, &bytes)?;
    bytes[0] = 0x28;
    bytes[2] = 0x01;
    listed(rt, &bytes)?;
    bytes[2] = 0x03;
    bytes[0] = 0x38;
    listed(rt, &bytes)?;
    bytes[0] = 0x28;
    bytes[7] = 0x0A;
    listed(rt, &bytes)?;
    bytes[7] = 0x05;
    listed(rt, &bytes)?;
    bytes[7] = 0x09;
    listed(rt, &bytes)?;
    bytes[7] = 0x0C;
    listed(rt, &bytes)
}

// What each tests of its own data: 6, 16, 17, 28, 30, 25.
fn refused_data(rt: &impl Print) -> io::Result<()> {
    let mut nak = N;
    nak[2] = 0x08;
    listed(rt, &nak)?;
    let mut eof = EOF;
    eof[2] = 0x09;
    listed(rt, &eof)?;
    eof[2] = 0x0C;
    listed(rt, &eof)?;
    let mut ack = ACK;
    ack[8] = 0x60;
    listed(rt, &ack)?;
    ack[9] = 0xC1;
    listed(rt, &ack)?;
    let mut metadata = METADATA;
    metadata[8] = 0x04;
    listed(rt, &metadata)?;
    metadata[8] = 0x00;
    metadata[13] = 0x10;
    listed(rt, &metadata)
}

// The four PDUs; bytes of a name that no terminal should get.
pub fn pdus(rt: &impl Print) -> io::Result<()> {
    listed(rt, &N)?;
    listed(rt, &EOF)?;
    listed(rt, &ACK)?;
    listed(rt, &METADATA)?;
    let mut metadata = METADATA;
    metadata[14] = 0x1B;
    metadata[15] = 0x20;
    metadata[16] = 0x5C;
    metadata[17] = 0x7E;
    metadata[18] = 0x7F;
    metadata[20] = 0x00;
    metadata[21] = 0x1F;
    metadata[22] = 0xC3;
    metadata[23] = 0xBC;
    metadata[24] = 0x0A;
    listed(rt, &metadata)?;
    refused_first(rt)?;
    refused_data(rt)
}
