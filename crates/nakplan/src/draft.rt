// A task as far as it was read, line by line: header, packet, scope and received ranges, each plan's NAKs with their requests behind them,
// and its end.
use crate::fault::{Fault, Wrong};
use crate::input::{Input, LINE_LEN};
use crate::line;
use crate::line::Kind;
use crate::task::{Plan, Ranges, Task};
use arrayvec::ArrayVec;
use fields::{Refusal, TransactionSeqNum, UnsignedByteField};
use header::judge::HeaderFields;
use header::{
    CrcFlag, Direction, Flag, LargeFileFlag, PduHeader, PduType, SegmentMetadataFlag,
    SegmentationControl, TransmissionMode,
};

#[derive(Drop)]
pub struct Draft {
    header: Option<Result<PduHeader, Refusal>>,
    packet: Option<u64>,
    scope: Option<(u64, u64)>,
    pub received: Ranges,
    pub plan: Plan,
    ended: bool,
}

// What is said once.
fn say<T: Drop>(place: &mut Option<T>, value: T) -> Result<(), Fault> {
    match place.replace(value) {
        None => Ok(()),
        Some(_) => Err(Fault::SaidBefore),
    }
}

fn bit(number: u64) -> Result<bool, Fault> {
    match number {
        0 => Ok(false),
        1 => Ok(true),
        _ => Err(Fault::NotAHeader),
    }
}

// A field of a header from its width and value.
fn field(width: u64, value: u64) -> Result<UnsignedByteField, Fault> {
    let width = u8::try_from(width).map_err(|_| Fault::NotAHeader)?;
    Ok(UnsignedByteField::new(width, value))
}

// The header of its numbers, or 13, which is told when all was read.
fn header_of(numbers: &[u64; 14]) -> Result<Result<PduHeader, Refusal>, Fault> {
    Ok(PduHeader::from_fields(HeaderFields {
        kind: PduType::from_bit(bit(numbers[0])?),
        direction: Direction::from_bit(bit(numbers[1])?),
        mode: TransmissionMode::from_bit(bit(numbers[2])?),
        crc: CrcFlag::from_bit(bit(numbers[3])?),
        file: LargeFileFlag::from_bit(bit(numbers[4])?),
        length: u16::try_from(numbers[7]).map_err(|_| Fault::NotAHeader)?,
        control: SegmentationControl::from_bit(bit(numbers[5])?),
        metadata: SegmentMetadataFlag::from_bit(bit(numbers[6])?),
        source: field(numbers[8], numbers[9])?,
        sequence: TransactionSeqNum(field(numbers[10], numbers[11])?),
        destination: field(numbers[12], numbers[13])?,
    }))
}

impl Draft {
    pub(crate) fn new() -> Draft {
        Draft {
            header: None,
            packet: None,
            scope: None,
            received: ArrayVec::new(),
            plan: Plan::new(),
            ended: false,
        }
    }

    // That there was a header is said before what is wrong with this one.
    fn take_header(&mut self, numbers: &[u64]) -> Result<(), Fault> {
        let numbers = numbers.try_into().map_err(|_| Fault::OtherCount)?;
        if self.header.is_some() {
            return Err(Fault::SaidBefore);
        }
        self.header = Some(header_of(numbers)?);
        Ok(())
    }

    // A request belongs to the NAK before it. There are never so many that the count stops.
    fn take_request(&mut self, start: u64, end: u64) -> Result<(), Fault> {
        let naks = self.plan.naks.as_mut_slice();
        let nak = naks.last_mut().ok_or(Fault::NoNakBefore)?;
        nak[2] = nak[2].saturating_add(1);
        let pushed = self.plan.requests.try_push([start, end]);
        pushed.map_err(|_| Fault::TooManyRequests)
    }

    fn take_end(&mut self, naks: u64, requests: u64) -> Result<(), Fault> {
        let dealt = self.plan.naks.as_slice().len() as u64;
        let asked = self.plan.requests.as_slice().len() as u64;
        if naks != dealt || requests != asked {
            return Err(Fault::OtherEnd);
        }
        self.ended = true;
        Ok(())
    }

    fn take_numbers(&mut self, kind: Kind, numbers: &[u64]) -> Result<(), Fault> {
        match (kind, numbers) {
            (Kind::Header, _) => self.take_header(numbers),
            (Kind::Packet, [size]) => say(&mut self.packet, *size),
            (Kind::Scope, [start, end]) => say(&mut self.scope, (*start, *end)),
            (Kind::Received, [start, end]) => {
                let pushed = self.received.try_push([*start, *end]);
                pushed.map_err(|_| Fault::TooManyRanges)
            }
            (Kind::Nak, [start, end]) => {
                let pushed = self.plan.naks.try_push([*start, *end, 0]);
                pushed.map_err(|_| Fault::TooManyNaks)
            }
            (Kind::Request, [start, end]) => self.take_request(*start, *end),
            (Kind::End, [naks, requests]) => self.take_end(*naks, *requests),
            _ => Err(Fault::OtherCount),
        }
    }

    // Blank lines are passed over.
    fn take(&mut self, line: &[u8]) -> Result<(), Fault> {
        let Some(line) = line::from_word(line) else {
            return Ok(());
        };
        let kind = Kind::try_from(line::first_word(line))?;
        if self.ended {
            return Err(Fault::BehindEnd);
        }
        let numbers = line::numbers(line)?;
        self.take_numbers(kind, numbers.as_slice())
    }

    // The task, where nothing is missing. Without a NAK and an end a plan is to be made.
    fn task(&self) -> Result<Task, Fault> {
        let header = self.header.ok_or(Fault::NoHeader)?;
        let size = self.packet.ok_or(Fault::NoPacket)? as usize;
        let (start, end) = self.scope.ok_or(Fault::NoScope)?;
        Ok(Task {
            header,
            size,
            start,
            end,
            given: self.ended || !self.plan.naks.as_slice().is_empty(),
        })
    }

    // Reads to the end of the input, or to the first line that is wrong. A proved loop has to end: it has as many turns as no input has
    // lines.
    pub(crate) fn read(&mut self, input: &mut Input) -> Result<Task, Wrong> {
        let mut bytes = [0; LINE_LEN];
        let mut line = 0;
        for number in 1..=u64::MAX {
            line = number;
            let wrong = |fault| Wrong { line, fault };
            match input.next_line(&mut bytes).map_err(wrong)? {
                None => break,
                Some(text) => self.take(text).map_err(wrong)?,
            }
        }
        self.task().map_err(|fault| Wrong { line, fault })
    }
}
