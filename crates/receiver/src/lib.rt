// A receiver of NAKs from a link that hands over fragments of a stream (document 02, C-07).
#![tactic(auto)]

ghost use Rattle.std.specs.Prelude.{◌≡◌, ◌+◌, ◌≤◌, min, length, take};
ghost use Rattle.std.proofs.lemmas.List.Edits.{sets};
ghost use Rattle.fields.specs.Answer.{told};
ghost use Rattle.fields.specs.Refusal.{paper};
ghost use Rattle.fields.specs.Staged.{run};
ghost use Rattle.receiver.specs.Receiving.{window_length, receiving, fresh, state_of, call_of, taken_of, call};
ghost use Rattle.receiver.specs.Within.{status_answer, capped, short_readings};

use fields::Refusal;
use nak::Nak;

// The bytes of the window.
pub const WINDOW_LEN: usize = 2048;

// The state: a window, and how many bytes of the next PDU are in it. What is waited for, and what is refused, those bytes say; so every
// value of both is a state that a call answers.
// Kept: a window with a count beside it. It is document 02's state, and a type that ties the two would hold fewer states.
#[derive(Clone, Copy, Debug, PartialEq, Eq)]
pub struct Receiver {
    pub window: [u8; WINDOW_LEN],
    pub filled: usize,
}

// How many bytes a call took, what it gives, and how many bytes of the next PDU are then in the window. It gives a NAK, nothing while more is
// wanted, or a refusal. A NAK's bytes stand in the window until the next call, and its requests are walked there.
#[derive(Clone, Copy, Debug, PartialEq, Eq)]
pub struct Received {
    pub taken: usize,
    pub outcome: Result<Option<Nak>, Refusal>,
    pub filled: usize,
}

// The same by value: with the state that is left.
// Kept: it differs from `Received` in one field: they are document 02's two forms of a call, and both are public.
#[derive(Clone, Copy, Debug, PartialEq, Eq)]
pub struct Taken {
    pub taken: usize,
    pub outcome: Result<Option<Nak>, Refusal>,
    pub receiver: Receiver,
}

// What a call gives, and how many of its readings were short.
#[derive(Clone, Copy)]
struct Counted {
    received: Received,
    shorts: usize,
}

// What the bytes in the window say.
// Kept: what is short is neither accepted nor refused, as in `Answer` of the definitions; a Result of the other two is no plainer.
#[derive(Clone, Copy)]
enum Status {
    Wants { found: usize, need: usize },
    Whole(Nak),
    Bad(Refusal),
}

// Of what the reader refuses, 1, that bytes are lacking, is waited for, and nothing else; it is 22 where they are more than the window's.
fn refused(refusal: Refusal) -> Status
    ensures { status_answer result ≡ capped (told (paper refusal)) }
{
    let Refusal::FromSliceTooSmall {
        found,
        expected: need,
    } = refusal
    else {
        return Status::Bad(refusal);
    };
    if WINDOW_LEN < need {
        return Status::Bad(Refusal::PduTooLarge);
    }
    Status::Wants { found, need }
}

// What the bytes in the window say. They are never more than the window's.
fn status_of(window: &[u8], filled: usize) -> Status
    requires { length window.now ≡ window_length }
    ensures { status_answer result ≡ run receiving (take filled window.now) }
{
    let end = filled.min(window.len());
    let read = Nak::from_bytes(&window[..end]);
    match read {
        Ok(nak) => Status::Whole(nak),
        Err(refusal) => refused(refusal),
    }
}

// Bytes into the window, at a place that has room for them.
// Kept: `copy` of tlv is the same. One that is public would have to test the room, or to ask for it, and here it is known.
// Bytes by index, as there: `copy_from_slice` is a call of `memmove`, which the library for C would then ask for.
fn store(window: &mut [u8], at: usize, bytes: &[u8])
    requires { at + length bytes.now ≤ length window.old }
    ensures { window.new ≡ sets window.old at bytes.now }
{
    for i in 0..bytes.len() {
        window[at + i] = bytes[i];
    }
}

// The end of a call.
fn ended(
    taken: usize,
    outcome: Result<Option<Nak>, Refusal>,
    filled: usize,
    shorts: usize,
) -> Counted
    ensures { result ≡ record { received = record { taken = taken; outcome = outcome; filled = filled }; shorts = shorts } }
{
    let received = Received {
        taken,
        outcome,
        filled,
    };
    Counted { received, shorts }
}

// A call, a named length at a time. Demand 3 allows it: below the length that a short reading names, every reading would be short with the
// same need, so the bytes up to it are stored at once. A turn is a reading, and those that are short are counted: they are at most four, one
// for each length that a PDU names.
fn receive_in(window: &mut [u8], filled: usize, fragment: &[u8]) -> Counted
    requires { length window.old ≡ window_length }
    ensures called { call_of result.received window.new ≡ call (state_of window.old filled) fragment.now }
    ensures counted { result.shorts ≡ short_readings (state_of window.old filled) fragment.now }
{
    let mut at = filled;
    let mut taken = 0;
    let mut shorts = 0;
    // Kept: no index is counted here. Each turn goes to the length that the reading names.
    loop {
        let said = status_of(window, at);
        match said {
            Status::Whole(nak) => return ended(taken, Ok(Some(nak)), 0, shorts),
            Status::Bad(refusal) => return ended(taken, Err(refusal), at, shorts),
            Status::Wants { found: _, need } => {
                shorts += 1;
                let wanted = need - at;
                let left = fragment.len() - taken;
                if left < wanted {
                    let there = at + left;
                    store(window, at, &fragment[taken..]);
                    return ended(fragment.len(), Ok(None), there, shorts);
                }
                let next = taken + wanted;
                store(window, at, &fragment[taken..next]);
                taken = next;
                at = need;
            }
        }
    }
}

// A call over a window that the caller keeps, of which `filled` bytes are there: nothing is copied but the fragment's bytes.
pub fn receive(window: &mut [u8; 2048], filled: usize, fragment: &[u8]) -> Received
    ensures { call_of result window.new ≡ call (state_of window.old filled) fragment.now }
{
    let call = receive_in(window, filled, fragment);
    call.received
}

impl Receiver {
    // The fresh state.
    pub fn new() -> Receiver
        ensures { result ≡ fresh }
    {
        Receiver {
            window: [0; 2048],
            filled: 0,
        }
    }

    // The fresh state again, whatever was received or refused.
    pub fn reset(self) -> Receiver
        ensures { result ≡ fresh }
    {
        Receiver::new()
    }

    // A call with a fragment.
    pub fn take(self, fragment: &[u8]) -> Taken
        ensures { taken_of result ≡ call self fragment.now }
    {
        let mut window = self.window;
        let r = receive(&mut window, self.filled, fragment);
        let outcome = r.outcome;
        Taken {
            taken: r.taken,
            outcome,
            receiver: Receiver {
                window,
                filled: r.filled,
            },
        }
    }
}
