// The fault location of an EOF: nothing, or one entity identifier field, type, length and value (the Rust's `EntityIdTlv`).
ghost use Rattle.std.specs.Prelude.{◌≡◌, ◌+◌, ◌≤◌, length};
ghost use Rattle.std.proofs.lemmas.List.Edits.{sets};
ghost use Rattle.fields.specs.Answer.{all_of, answer_of};
ghost use Rattle.fields.proofs.Judging.{Passed};
ghost use Rattle.eof.specs.Fault.{field_width, locating, fault_length, fault_bytes, fault_tests};

use fields::{EntityId, Refusal, be, field};
use header::judge;
use tlv::{Form, read, write};

// The type of an entity identifier field.
const ENTITY_ID: u8 = 6;

// The bytes before its value: type and length.
const HEAD_LEN: usize = 2;

// A fault location: an entity identifier, with the width that its field has.
#[derive(Clone, Copy, PartialEq, Eq, Debug)]
pub struct EntityIdTlv {
    pub width: u8,
    pub id: EntityId,
}

// The bytes of the value of the one entity identifier field that the bytes are; 0, which is no width, where they are something else.
// Kept: a number, since the definition `field_width` says this 0, and the test behind it refuses it with every other that is no width.
#[tactic(auto, using(crate::proofs::Faults::no_width, crate::proofs::Faults::only_width, crate::proofs::Faults::only_forwards))]
fn field_width(rest: &[u8]) -> u8
    ensures { result ≡ field_width rest.now }
{
    let Some(only) = read::only_field(Form::Tlv, ENTITY_ID, rest, 0) else {
        return 0;
    };
    (only.stop - only.start) as u8
}

// 28: the fault location that all of the bytes are.
#[tactic(auto, using(crate::proofs::Faults::fault_nowhere, crate::proofs::Faults::fault_other, crate::proofs::Faults::fault_found))]
pub fn fault_in(rest: &[u8]) -> Result<Option<EntityIdTlv>, Refusal>
    ensures { answer_of result ≡ locating rest.now }
{
    if rest.len() == 0 {
        return Ok(None);
    }
    let width = field_width(rest);
    if !field::is_width(width) {
        return Err(Refusal::InvalidFaultLocation);
    }
    let id = be::read_be(rest, HEAD_LEN, width as usize);
    Ok(Some(EntityIdTlv {
        width,
        id: EntityId(id),
    }))
}

// 3, then 14: whether the width and the identifier of a fault location are allowed.
#[tactic(auto, using(crate::proofs::Faults::tests_at))]
pub fn judge_fault(fault: Option<EntityIdTlv>) -> Result<(), Refusal>
    ensures { answer_of result ≡ all_of (fault_tests fault) }
{
    match fault {
        None => Ok(()),
        Some(tlv) => judge::judge_entity(tlv.width, tlv.id),
    }
}

// The bytes of a fault location, at most 2 + 255.
#[tactic(auto, using(crate::proofs::Faults::length_at))]
pub fn fault_len(fault: Option<EntityIdTlv>) -> usize
    ensures { (result ≡ fault_length fault) × (result ≤ 257) }
{
    match fault {
        None => 0,
        Some(tlv) => HEAD_LEN + (tlv.width as usize),
    }
}

// Stores them, from `at` on.
pub(crate) fn put_fault(fault: Option<EntityIdTlv>, at: usize, buf: &mut [u8])
    requires { (at + fault_length fault ≤ length buf.old) × Passed (fault_tests fault) }
    ensures { buf.new ≡ sets buf.old at (fault_bytes fault) }
{
    if let Some(tlv) = fault {
        write::put_number(Form::Tlv, buf, at, ENTITY_ID, tlv.width as usize, tlv.id.0);
    }
}
