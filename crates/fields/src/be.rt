// Numbers as bytes of a slice, the most significant first, at every width from 0 to 8.
ghost use Rattle.std.specs.Prelude.{◌≡◌, ◌+◌, ◌^◌, ◌≤◌, ◌<◌, length};
ghost use Rattle.fields.specs.BigEndian.{lies_in, number_at, be_at, overwritten, be_put};
ghost use Rattle.fields.specs.Width.{fits_width};

// The most bytes that a number has.
pub const MAX_WIDTH: usize = 8;

// Whether the `width` bytes from `at` all lie in a slice of `len` bytes, and are no more than 8.
#[tactic(auto, unfolding(crate::specs::BigEndian::lies_in))]
pub fn lies_in(len: usize, at: usize, width: usize) -> bool
    ensures { result ≡ lies_in len at width }
{
    if MAX_WIDTH < width {
        return false;
    }
    if len < width {
        return false;
    }
    at <= len - width
}

fn number_at(s: &[u8], at: usize, width: usize) -> u64
    requires { (width ≤ 8) × (at + width ≤ length s.now) }
    ensures { (result ≡ number_at s.now at width) × (result < 256 ^ width) }
{
    let mut value: u64 = 0;
    // Places count from 0, as below: at a literal width the compiler then makes one load of it.
    for i in 0..width {
        value = value * 256 + s[at + i] as u64;
    }
    value
}

// The number that the `width` bytes from `at` are. Bytes that do not all lie in `s`, or more than 8 of them, are no
// number and read as 0. What is read has no more bytes than were asked for.
#[tactic(auto, using(crate::proofs::BigEndian::lies, crate::proofs::BigEndian::power_some), unfolding(crate::specs::BigEndian::be_at))]
pub fn read_be(s: &[u8], at: usize, width: usize) -> u64
    ensures { (result ≡ be_at s.now at width) × (result < 256 ^ width) }
{
    if !lies_in(s.len(), at, width) {
        return 0;
    }
    number_at(s, at, width)
}

fn put_number(buf: &mut [u8], at: usize, width: usize, value: u64)
    requires { at + width ≤ length buf.old }
    ensures { buf.new ≡ overwritten buf.old at width value }
{
    let mut v = value;
    // Places count from 0, so that the compiler sees how many there are: at a literal width this is then one store.
    for i in (0..width).rev() {
        buf[at + i] = (v % 256) as u8;
        v /= 256;
    }
}

// Stores `value` in the `width` bytes from `at`. Where these do not all lie in `buf`, or are more than 8, or cannot hold
// the value, no byte changes.
#[tactic(auto, using(crate::proofs::BigEndian::lies), unfolding(crate::specs::BigEndian::be_put))]
pub fn write_be(buf: &mut [u8], at: usize, width: usize, value: u64)
    ensures { buf.new ≡ be_put buf.old at width value }
{
    if !lies_in(buf.len(), at, width) {
        return;
    }
    if !fits(value, width) {
        return;
    }
    put_number(buf, at, width, value);
}

// Whether `value` has at most `width` bytes.
#[tactic(auto, using(crate::proofs::Width::fits_wide, crate::proofs::Width::fits_shift))]
pub fn fits(value: u64, width: usize) -> bool
    ensures { result ≡ fits_width width value }
{
    if MAX_WIDTH <= width {
        return true;
    }
    value >> (8 * width as u64) == 0
}
