// The records of the checksum and of headers: reads what goes in, calls the library, compares.
use crate::list::MOST_BYTES;
use crate::{expected, list};
use cfdp::{ANSWER_LEN, headers};

pub fn checksum() -> bool {
    expected::reads(|bytes, answer| {
        *answer = [0; ANSWER_LEN];
        answer[1] = headers::cfdp_checksum(bytes) as u64;
    })
}

pub fn header_read() -> bool {
    expected::reads(headers::cfdp_header_read)
}

pub fn header_build() -> bool {
    let header = list::Header::next();
    expected::answers(|answer| {
        headers::cfdp_header_build(&header.shape, header.length, &header.ids, answer)
    })
}

pub fn header_verify() -> bool {
    let header = list::Header::next();
    let mut bytes = [0; MOST_BYTES];
    let bytes = list::bytes(&mut bytes);
    expected::answers(|answer| {
        headers::cfdp_header_verify(&header.shape, header.length, &header.ids, bytes, answer)
    })
}

pub fn header_write() -> bool {
    let header = list::Header::next();
    expected::writes(|buf, answer| {
        headers::cfdp_header_write(&header.shape, header.length, &header.ids, buf, answer)
    })
}
