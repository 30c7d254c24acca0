// The words of a line: what it is about, and its numbers.
use crate::fault::Fault;
use arrayvec::ArrayVec;

// The most numbers of a line: those of a header.
pub const MOST_NUMBERS: usize = 14;

// What a line is about, by its first word.
#[derive(Clone, Copy)]
pub enum Kind {
    Header,
    Packet,
    Scope,
    Received,
    Nak,
    Request,
    End,
}

impl TryFrom<&[u8]> for Kind {
    type Error = Fault;

    fn try_from(word: &[u8]) -> Result<Kind, Fault> {
        match word {
            b"header" => Ok(Kind::Header),
            b"packet" => Ok(Kind::Packet),
            b"scope" => Ok(Kind::Scope),
            b"received" => Ok(Kind::Received),
            b"nak" => Ok(Kind::Nak),
            b"request" => Ok(Kind::Request),
            b"end" => Ok(Kind::End),
            _ => Err(Fault::NoSuchWord),
        }
    }
}

// What words stand between. The library's white space has the form feed too.
fn is_blank(byte: &u8) -> bool {
    matches!(byte, b' ' | b'\t' | b'\r')
}

// A decimal number of 64 bits. In front of the library's may stand a plus sign.
fn number(word: &[u8]) -> Result<u64, Fault> {
    if word.starts_with(b"+") {
        return Err(Fault::NotANumber);
    }
    let text = str::from_utf8(word).map_err(|_| Fault::NotANumber)?;
    text.parse().map_err(|_| Fault::NotANumber)
}

// A line from its first word on; none of a blank one.
pub(crate) fn from_word(line: &[u8]) -> Option<&[u8]> {
    let start = line.iter().position(|byte| !is_blank(byte))?;
    Some(&line[start..])
}

// Such a line's first word.
pub(crate) fn first_word(line: &[u8]) -> &[u8] {
    line.split(is_blank).next().unwrap_or(line)
}

// The numbers that the words behind the first are. Of more words than a line has numbers, those behind them are not looked at.
pub(crate) fn numbers(line: &[u8]) -> Result<ArrayVec<u64, MOST_NUMBERS>, Fault> {
    let mut numbers = ArrayVec::new();
    let words = line.split(is_blank).filter(|word| !word.is_empty());
    for word in words.skip(1) {
        if numbers.is_full() {
            return Err(Fault::OtherCount);
        }
        numbers.push(number(word)?);
    }
    Ok(numbers)
}
