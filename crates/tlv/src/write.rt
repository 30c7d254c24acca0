// Writing: bytes, and a field, copied to a place of a lent buffer.
ghost use Rattle.std.specs.Prelude.{◌≡◌, ◌+◌, ◌≤◌, ◌<◌, ◌^◌, leb, length};
ghost use Rattle.std.proofs.lemmas.List.Edits.{sets};
ghost use Rattle.tlv.specs.Form.{length_bytes, head_bytes, field_bytes};
ghost use Rattle.tlv.specs.Writing.{bytes_put, field_put, number_put};

use crate::Form;
use fields::be;
use fields::be::MAX_WIDTH;

// Kept: `store` of receiver is the same. One that is public would have to test the room, or to ask for it, and here it is known.
// Kept: bytes by index. `copy_from_slice` is a call of `memmove`, which the library for C would then ask for.
fn copy(buf: &mut [u8], at: usize, bytes: &[u8])
    requires { at + length bytes.now ≤ length buf.old }
    ensures { buf.new ≡ sets buf.old at bytes.now }
{
    for i in 0..bytes.len() {
        buf[at + i] = bytes[i];
    }
}

// Whether so many bytes from a place on lie in a slice of `len` bytes.
// Kept: `lies_in` of fields asks besides that they are at most 8, which a name is not.
fn has_room(len: usize, at: usize, size: usize) -> bool
    ensures { result ≡ leb (at + size) len }
{
    if len < size {
        return false;
    }
    at <= len - size
}

// Stores `bytes` from `at` on. Where they do not all lie in `buf`, no byte changes.
#[tactic(auto, unfolding(crate::specs::Writing::bytes_put))]
pub fn put_bytes(buf: &mut [u8], at: usize, bytes: &[u8])
    ensures { buf.new ≡ bytes_put buf.old at bytes.now }
{
    if !has_room(buf.len(), at, bytes.len()) {
        return;
    }
    copy(buf, at, bytes);
}

fn store_field(form: Form, buf: &mut [u8], at: usize, tag: u8, value: &[u8])
    requires { (length value.now < 256 ^ length_bytes form) × (at + (head_bytes form + length value.now) ≤ length buf.old) }
    ensures { buf.new ≡ sets buf.old at (field_bytes form tag value.now) }
{
    let tag_len = form.tag_len();
    let length_len = form.length_len();
    let second = at + tag_len;
    let third = second + length_len;
    be::write_be(buf, at, tag_len, tag as u64);
    be::write_be(buf, second, length_len, value.len() as u64);
    copy(buf, third, value);
}

// Stores a field from `at` on: its type, if the form has one, the length of its value, the value. Where these do not all lie in `buf`, or the
// value is longer than the form can say, no byte changes.
#[tactic(auto, using(fields::proofs::Width::fits_lt), unfolding(crate::specs::Writing::field_put))]
pub fn put_field(form: Form, buf: &mut [u8], at: usize, tag: u8, value: &[u8])
    ensures { buf.new ≡ field_put form buf.old at tag value.now }
{
    let size = value.len();
    if !be::fits(size as u64, form.length_len()) {
        return;
    }
    if !has_room(buf.len(), at, form.head_len() + size) {
        return;
    }
    store_field(form, buf, at, tag, value);
}

// Stores a field whose value is a number of `width` bytes, as an entity identifier is. Where it does not all lie in `buf`, or the number has
// more than 8 bytes or does not fit them, no byte changes.
pub fn put_number(form: Form, buf: &mut [u8], at: usize, tag: u8, width: usize, value: u64)
    ensures { buf.new ≡ number_put form buf.old at tag width value }
{
    if MAX_WIDTH < width {
        return;
    }
    if !be::fits(value, width) {
        return;
    }
    let mut bytes = [0; MAX_WIDTH];
    be::write_be(&mut bytes, 0, width, value);
    put_field(form, buf, at, tag, &bytes[..width]);
}
