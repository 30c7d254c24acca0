// Comparing two NAKs of one transaction: the bytes that only one of them asks for.
ghost use Rattle.std.specs.Prelude.{◌≡◌, length};
ghost use Rattle.ranges.specs.Differing.{differing, differ_memory};
ghost use Rattle.cfdp.specs.Shown.{shown};
ghost use Rattle.cfdp.specs.Differing.{differ_numbers};

use crate::{Answer, Numbers, show, show_few};
use ranges::differ;
use ranges::differ::Differences;

impl Numbers for Differences {
    ghost numbers = { differ_numbers };

    fn put(self, answer: &mut Answer) {
        show_few(0, self.first as u64, self.second as u64, answer);
        answer[3] = self.ranges as u64;
    }
}

pub fn cfdp_differ(first: &[u8], second: &[u8], ranges: &mut [u64], answer: &mut Answer)
    ensures answered { answer.new ≡ shown differ_numbers (differing first.now second.now (length ranges.old)) }
    ensures stored { ranges.new ≡ differ_memory first.now second.now ranges.old }
{
    let found = differ::differ(first, second, ranges);
    show(found, answer)
}
