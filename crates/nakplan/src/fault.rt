// What is wrong with a line, in words.
use std::fmt;

#[derive(Clone, Copy)]
pub enum Fault {
    TooLong,
    NoSuchWord,
    NotANumber,
    OtherCount,
    NotAHeader,
    SaidBefore,
    NoNakBefore,
    OtherEnd,
    BehindEnd,
    TooManyRanges,
    TooManyRequests,
    TooManyNaks,
    NoHeader,
    NoPacket,
    NoScope,
}

impl fmt::Display for Fault {
    fn fmt<W: fmt::Write>(&self, f: &mut fmt::Formatter<W>) -> fmt::Result {
        f.write_str(match self {
            Fault::TooLong => "has more than 511 bytes",
            Fault::NoSuchWord => "begins with a word that is not known",
            Fault::NotANumber => "has a word that is no number of 64 bits",
            Fault::OtherCount => "has too few or too many numbers",
            Fault::NotAHeader => "has a flag above 1, a length above 65535 or a width above 255",
            Fault::SaidBefore => "says what was said before",
            Fault::NoNakBefore => "has a request with no nak before it",
            Fault::OtherEnd => "has other counts than there are naks and requests",
            Fault::BehindEnd => "stands behind the end",
            Fault::TooManyRanges => "has one received range more than 8190",
            Fault::TooManyRequests => "has one request more than 8190",
            Fault::TooManyNaks => "has one nak more than 1024",
            Fault::NoHeader => "is the end, and there was no header",
            Fault::NoPacket => "is the end, and there was no packet",
            Fault::NoScope => "is the end, and there was no scope",
        })
    }
}

// A line's number, from 1, and what is wrong with it. What is not there at the end is missed in the line behind the last.
#[derive(Clone, Copy)]
pub struct Wrong {
    pub line: u64,
    pub fault: Fault,
}

impl fmt::Display for Wrong {
    fn fmt<W: fmt::Write>(&self, f: &mut fmt::Formatter<W>) -> fmt::Result {
        write!(f, "line {} {}", self.line, self.fault)
    }
}
