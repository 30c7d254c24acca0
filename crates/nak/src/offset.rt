// The numbers of a list of segment requests: 32 bits each in a normal NAK, 64 in a large one. What is generic over them is proved once for both.
ghost use Rattle.std.specs.Prelude.{◌≡◌, ℕ, List, ◌+◌, ◌*◌, ◌/◌, ◌%◌, ◌^◌, length, get_or, map};
ghost use Rattle.std.proofs.Common.{sym};
ghost use Rattle.std.proofs.lemmas.List.{map-id};
ghost use Rattle.header.specs.declared.flags.LargeFileFlag.{LargeFileFlag};
ghost use Rattle.header.specs.Size.{size_width};
ghost use Rattle.nak.specs.Writing.{pair_put};

use fields::be;
use header::LargeFileFlag;

pub trait Offset: Copy {
    // The file flag of a NAK that has such numbers.
    ghost file: { LargeFileFlag };

    ghost number: { Self → ℕ };

    // The same of a list, with no step for each of them where they are numbers already.
    ghost numbers: { List Self → List ℕ };

    ghost each: { (ns : List Self) → numbers ns ≡ map number ns };

    fn file_flag() -> LargeFileFlag
        ensures { result ≡ file };

    fn number(self) -> u64
        ensures { result ≡ number self };

    // A pair in its place, which has just its bytes; else nothing changes.
    fn put_pair(buf: &mut [u8], pair: &[Self])
        ensures { buf.new ≡ pair_put (size_width file) (numbers pair.now) buf.old };
}

impl Offset for u32 {
    ghost file = { LargeFileFlag.Normal };

    ghost number = { λ n. n };

    ghost numbers = { λ ns. ns };

    ghost each = { λ ns. sym (map-id ns) };

    fn file_flag() -> LargeFileFlag {
        LargeFileFlag::Normal
    }

    fn number(self) -> u64 {
        self as u64
    }

    // Both at a time, in two steps that are each a function: then the compiler makes one load, one exchange and one store of a pair; put
    // together at once, or stored one after the other, it is taken apart into bytes again.
    fn put_pair(buf: &mut [u8], pair: &[u32]) {
        if buf.len() != 8 {
            return;
        }
        if pair.len() != 2 {
            return;
        }
        be::write_be(buf, 0, 8, exchanged(two_of(pair)));
    }
}

impl Offset for u64 {
    ghost file = { LargeFileFlag.Large };

    ghost number = { λ n. n };

    ghost numbers = { λ ns. ns };

    ghost each = { λ ns. sym (map-id ns) };

    fn file_flag() -> LargeFileFlag {
        LargeFileFlag::Large
    }

    fn number(self) -> u64 {
        self
    }

    fn put_pair(buf: &mut [u8], pair: &[u64]) {
        if buf.len() != 16 {
            return;
        }
        if pair.len() != 2 {
            return;
        }
        be::write_be(buf, 0, 8, pair[0]);
        be::write_be(buf, 8, 8, pair[1]);
    }
}

// The first number, and above it the second: so they stand in the memory of a little-endian machine.
fn two_of(pair: &[u32]) -> u64
    requires { length pair.now ≡ 2 }
    ensures { result ≡ get_or pair.now 1 0 * 256 ^ 4 + get_or pair.now 0 0 }
{
    let low = pair[0] as u64;
    let high = pair[1] as u64;
    high * 4294967296 + low
}

// The two halves, each in the other's place.
fn exchanged(two: u64) -> u64
    ensures { result ≡ two % 256 ^ 4 * 256 ^ 4 + two / 256 ^ 4 }
{
    two % 4294967296 * 4294967296 + two / 4294967296
}
