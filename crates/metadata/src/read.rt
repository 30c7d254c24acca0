// Reading a Metadata PDU.
ghost use Rattle.std.specs.Prelude.{◌≡◌, [], ◌∷◌, ◌+◌, ◌/◌, ◌%◌, ◌≤◌, ◌<◌, ◌^◌, eqb, length, Ok, Err, MatchResult};
ghost use Rattle.std.specs.Result.{ForErr};
ghost use Rattle.fields.specs.Answer.{first_of, answer_of};
ghost use Rattle.fields.specs.Staged.{run};
ghost use Rattle.fields.specs.declared.refusal.Refusal.TheVariants.{FieldCut};
ghost use Rattle.header.specs.Header.{header_length, data_end};
ghost use Rattle.metadata.specs.Metadata.{moved_by, names_in, metadata_in};
ghost use Rattle.metadata.specs.Reading.{name_tests, read_tests, reading_metadata};

use crate::{METADATA_CODE, Metadata, MetadataParams, Part, SIZE_AT, judge_type};
use fields::Refusal;
use header::directive::DirectivePdu;
use header::{PduHeader, directive, size};
use tlv::read::field_in;
use tlv::walk::first_cut;
use tlv::{Cut, Field, Form};

// Where the names lie, and where the options begin.
#[derive(Clone, Copy, PartialEq, Eq, Hash, Debug)]
pub struct Names {
    pub source: Part,
    pub destination: Part,
    pub options: usize,
}

// What was read of the data; or that it is cut, with the place in the PDU: the data begin at `from`.
fn told<T: Drop>(from: usize, read: Result<T, Cut>) -> Result<T, Refusal>
    requires { ForErr read (λ cut. from + cut.at < 2 ^ 64) }
    ensures { MatchResult read (λ x. result ≡ Ok x) (λ cut. result ≡ Err (FieldCut (from + cut.at))) }
{
    read.map_err(|cut| Refusal::FieldCut(from + cut.at))
}

fn moved(from: usize, field: Field) -> Part
    requires { (field.start ≤ field.stop) × (from + field.stop < 2 ^ 64) }
    ensures { result ≡ moved_by from field }
{
    Part {
        start: from + field.start,
        stop: from + field.stop,
    }
}

// Names and options in the data of a PDU, whose names begin at `at`. The data itself begins at `from`, and so do the places that are told.
#[tactic(auto, using(fields::proofs::Handed::handed_on, crate::proofs::Names::for_names_in))]
fn names_in(from: usize, content: &[u8], at: usize) -> Result<Names, Refusal>
    requires { (at ≤ length content.now) × (from + length content.now < 2 ^ 64) }
    ensures { answer_of result ≡ first_of (name_tests from content.now at) (names_in from content.now at) }
{
    let source = told(from, field_in(Form::Lv, content, at))?;
    let destination = told(from, field_in(Form::Lv, content, source.stop))?;
    told(from, first_cut(Form::Tlv, content, destination.stop))?;
    Ok(Names {
        source: moved(from, source),
        destination: moved(from, destination),
        options: from + destination.stop,
    })
}

// Whether closure is requested: bit 6.
fn closure_in(byte: u8) -> bool
    ensures { result ≡ eqb (byte / 64 % 2) 1 }
{
    byte / 64 % 2 == 1
}

// The PDU in its data, which ends at E.
// Kept: header and data are two parameters: a struct that ties them would exclude what the edit beyond_e hands over.
#[tactic(auto, using(fields::proofs::Handed::handed_on, crate::proofs::Data::for_metadata_in))]
fn metadata_in(header: PduHeader, content: &[u8]) -> Result<Metadata, Refusal>
    requires { header_length header + length content.now ≡ data_end header }
    ensures { answer_of result ≡ first_of (read_tests header content.now) (metadata_in header content.now) }
{
    let file = header.file;
    let from = header.header_len();
    let stop = header.data_end();
    let names_at = SIZE_AT + size::size_width(file);
    directive::judge_data(stop, from + names_at)?;
    let byte = content[1];
    judge_type(byte % 16)?;
    let names = names_in(from, content, names_at)?;
    let size = size::read_size(&content[SIZE_AT..names_at], 0, file);
    let params = MetadataParams {
        header,
        closure: closure_in(byte),
        kind: byte % 16,
        size,
    };
    Ok(Metadata {
        params,
        source: names.source,
        destination: names.destination,
        options: Part {
            start: names.options,
            stop,
        },
    })
}

impl Metadata {
    // What follows the PDU is not looked at.
    #[tactic(auto, using(fields::proofs::Handed::handed_on, crate::proofs::Data::refused_metadata, crate::proofs::Data::read_metadata))]
    pub fn from_bytes(buf: &[u8]) -> Result<Metadata, Refusal>
        ensures { answer_of result ≡ run reading_metadata buf.now }
    {
        // Kept: the same stands in eof, ack, metadata, nak: one for all would take a closure that reads the data, and promise longer.
        let pdu = DirectivePdu::from_bytes(METADATA_CODE, buf)?;
        let at = pdu.header.header_len();
        metadata_in(pdu.header, &buf[at..pdu.stop])
    }
}
