// Comparing two NAKs of one transaction: the bytes that only one of them asks for.
ghost use Rattle.std.specs.Prelude.{◌≡◌, length};
ghost use Rattle.ranges.specs.Differing.{differing, differ_memory};
ghost use Rattle.cfdp.specs.Shown.{shown};
ghost use Rattle.cfdp.specs.Differing.{differ_numbers};

use cfdp::Answer;

#[unsafe(no_mangle)]
pub extern "C" fn cfdp_differ(first: &[u8], second: &[u8], ranges: &mut [u64], answer: &mut Answer)
    ensures answered { answer.new ≡ shown differ_numbers (differing first.now second.now (length ranges.old)) }
    ensures stored { ranges.new ≡ differ_memory first.now second.now ranges.old }
{
    cfdp::differ::cfdp_differ(first, second, ranges, answer)
}
