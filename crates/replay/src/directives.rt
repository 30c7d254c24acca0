// The records of EOFs and ACKs: reads what goes in, calls the library, compares.
use crate::{expected, list};
use cfdp::{acks, eofs};

pub fn eof_read() -> bool {
    expected::reads(eofs::cfdp_eof_read)
}

pub fn eof_write() -> bool {
    let header = list::Header::next();
    let condition = list::byte();
    let checksum = list::four();
    let size = list::eight();
    let fault = list::byte() != 0;
    let width = list::byte();
    let value = list::eight();
    expected::writes(|buf, answer| {
        eofs::cfdp_eof_write(
            &header.shape,
            &header.ids,
            condition,
            checksum,
            size,
            fault,
            width,
            value,
            buf,
            answer,
        )
    })
}

pub fn ack_read() -> bool {
    expected::reads(acks::cfdp_ack_read)
}

pub fn ack_write() -> bool {
    let header = list::Header::next();
    let directive = list::byte();
    let condition = list::byte();
    let status = list::byte();
    expected::writes(|buf, answer| {
        acks::cfdp_ack_write(
            &header.shape,
            &header.ids,
            directive,
            condition,
            status,
            buf,
            answer,
        )
    })
}
