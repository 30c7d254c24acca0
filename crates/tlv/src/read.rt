// One field at a place: where its value starts and stops, or that it is cut.
ghost use Rattle.std.specs.Prelude.{◌≡◌, ◌+◌, ◌≤◌, ◌<◌, length};
ghost use Rattle.tlv.specs.Form.{head_bytes};
ghost use Rattle.tlv.specs.Reading.{tag_at, length_at, field_in, only_field, value_of};
ghost use Rattle.tlv.specs.Within.{behind};

use crate::{Cut, Field, Form};
use fields::be;

// Kept: form, area and place apart, here and in walk: the public clauses name each.

#[tactic(auto, using(crate::proofs::Reading::length_read))]
fn length_at(form: Form, area: &[u8], at: usize) -> usize
    requires { at + head_bytes form ≤ length area.now }
    ensures { (result ≡ length_at form area.now at) × (result < 65536) }
{
    let place = at + form.tag_len();
    be::read_be(area, place, form.length_len()) as usize
}

#[tactic(auto, using(crate::proofs::Reading::tag_read))]
fn tag_at(form: Form, area: &[u8], at: usize) -> u8
    requires { at + head_bytes form ≤ length area.now }
    ensures { result ≡ tag_at form area.now at }
{
    be::read_be(area, at, form.tag_len()) as u8
}

// The place behind the field at `at`, where a whole one stands.
#[tactic(auto, using(crate::proofs::Reading::stops, crate::proofs::Reading::behind_cut))]
pub(crate) fn behind_field(form: Form, area: &[u8], at: usize) -> Option<usize>
    ensures { result ≡ behind form area.now at }
{
    let head = form.head_len();
    if area.len() < head {
        return None;
    }
    if area.len() - head < at {
        return None;
    }
    let start = at + head;
    let size = length_at(form, area, at);
    if area.len() - start < size {
        return None;
    }
    Some(start + size)
}

// The field at a place of an area. At the end of the area, and beyond, it is cut.
#[tactic(auto, using(crate::proofs::Reading::here))]
pub fn field_in(form: Form, area: &[u8], at: usize) -> Result<Field, Cut>
    ensures { result ≡ field_in form area.now at }
{
    let Some(stop) = behind_field(form, area, at) else {
        return Err(Cut { at });
    };
    let start = at + form.head_len();
    let tag = tag_at(form, area, at);
    Ok(Field { tag, start, stop })
}

// The field of a given type that takes all bytes from a place to the area's end, unless they are something else.
pub fn only_field(form: Form, tag: u8, area: &[u8], at: usize) -> Option<Field>
    ensures { result ≡ only_field form tag area.now at }
{
    let field = field_in(form, area, at).ok()?;
    if field.tag == tag && field.stop == area.len() {
        return Some(field);
    }
    None
}

impl Field {
    // The value, as a part of the bytes that the field was read from. A value that does not lie in them is empty.
    pub fn value(self, area: &[u8]) -> &[u8]
        ensures { result.now ≡ value_of self area.now }
    {
        area.get(self.start..self.stop).unwrap_or(&[])
    }
}
