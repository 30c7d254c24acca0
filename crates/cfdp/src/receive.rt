// Receiving NAKs from fragments of a stream, in a window that the caller keeps.
ghost use Rattle.std.specs.Prelude.{◌≡◌, Ok};
ghost use Rattle.receiver.specs.Receiving.{outcome_of};
ghost use Rattle.cfdp.specs.Received.{outcome_shown, called};

use crate::{Answer, Numbers, show_few, show_refusal};
use fields::Refusal;
use nak::Nak;

// A NAK, or 1 for more wanted.
fn show_given(given: Option<Nak>, answer: &mut Answer)
    ensures { answer.new ≡ outcome_shown (outcome_of (Ok given)) }
{
    match given {
        None => show_few(1, 0, 0, answer),
        Some(nak) => nak.put(answer),
    }
}

// What a call gives, as numbers: 1 for more wanted, since no receiver refuses with it.
fn show_outcome(outcome: Result<Option<Nak>, Refusal>, answer: &mut Answer)
    ensures { answer.new ≡ outcome_shown (outcome_of outcome) }
{
    match outcome {
        Err(refusal) => show_refusal(refusal, answer),
        Ok(given) => show_given(given, answer),
    }
}

pub fn cfdp_receive(
    window: &mut [u8; 2048],
    filled: &mut usize,
    fragment: &[u8],
    answer: &mut Answer,
) -> usize
    ensures took { result ≡ (called window.old filled.old fragment.now).taken }
    ensures kept { window.new ≡ (called window.old filled.old fragment.now).leaves.window }
    ensures counted { filled.new ≡ (called window.old filled.old fragment.now).leaves.filled }
    ensures answered { answer.new ≡ outcome_shown (called window.old filled.old fragment.now).gives }
{
    let got = receiver::receive(window, *filled, fragment);
    *filled = got.filled;
    let outcome = got.outcome;
    show_outcome(outcome, answer);
    got.taken
}
