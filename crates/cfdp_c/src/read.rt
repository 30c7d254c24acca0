// Reading a NAK, and the pairs of its request area.
ghost use Rattle.std.specs.Prelude.{◌≡◌, length};
ghost use Rattle.fields.specs.Staged.{run};
ghost use Rattle.nak.specs.Reading.{reading_nak};
ghost use Rattle.cfdp.specs.Shown.{shown, nak_numbers};
ghost use Rattle.cfdp.specs.Pairs.{is_pair, pair_at, copied, copied_into};

use cfdp::Answer;

#[unsafe(no_mangle)]
pub extern "C" fn cfdp_nak_read(bytes: &[u8], answer: &mut Answer)
    ensures { answer.new ≡ shown nak_numbers (run reading_nak bytes.now) }
{
    cfdp::read::cfdp_nak_read(bytes, answer)
}

#[unsafe(no_mangle)]
pub extern "C" fn cfdp_nak_pair(area: &[u8], large: bool, index: usize, pair: &mut [u64; 2]) -> bool
    ensures answered { result ≡ is_pair large area.now index }
    ensures stored { pair.new ≡ pair_at large area.now index }
{
    cfdp::read::cfdp_nak_pair(area, large, index, pair)
}

#[unsafe(no_mangle)]
pub extern "C" fn cfdp_nak_pairs(area: &[u8], large: bool, numbers: &mut [u64]) -> usize
    ensures answered { result ≡ length (copied large area.now (length numbers.old)) }
    ensures stored { numbers.new ≡ copied_into large area.now numbers.old }
{
    cfdp::read::cfdp_nak_pairs(area, large, numbers)
}
