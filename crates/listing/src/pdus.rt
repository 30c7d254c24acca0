// Prints a NAK, an EOF, an ACK or a Metadata PDU, or why it is refused. It is read as a NAK first: up to the directive's code all readers
// test the same, and of another directive refusal 8 says which. Those that have a reader here are read by it; 8 stays for the others.
ghost use Rattle.std.specs.Prelude.{◌≡◌, false};
ghost use Rattle.fields.specs.Refusal.{numbers_of};
ghost use Rattle.listing.specs.Pdus.{is_listed, is_listed_as};

use crate::{acks, eofs, metadatas, print_nak, print_refusal};
use ack::ACK_CODE;
use eof::EOF_CODE;
use fields::Refusal;
use metadata::METADATA_CODE;
use nak::Nak;

fn list_refusal(refusal: Refusal) -> bool
    ensures { result ≡ false }
{
    print_refusal(refusal);
    false
}

// Of a PDU that is refused as a NAK.
#[tactic(auto, unfolding(crate::specs::Pdus::is_listed_as))]
fn list_other(refusal: Refusal, buf: &[u8]) -> bool
    ensures { result ≡ is_listed_as (numbers_of refusal).number (numbers_of refusal).first buf.now }
{
    let Refusal::WrongDirectiveType(code) = refusal else {
        return list_refusal(refusal);
    };
    match code {
        EOF_CODE => eofs::list(buf),
        ACK_CODE => acks::list(buf),
        METADATA_CODE => metadatas::list(buf),
        _ => list_refusal(refusal),
    }
}

// Reads a directive PDU and prints it; whether it was accepted.
pub fn list(buf: &[u8]) -> bool
    ensures { result ≡ is_listed buf.now }
{
    let read = Nak::from_bytes(buf);
    match read {
        Err(refusal) => list_other(refusal, buf),
        Ok(nak) => {
            print_nak(nak, buf);
            true
        }
    }
}
