// Receiving NAKs from fragments of a stream, in a window that the caller keeps.
ghost use Rattle.std.specs.Prelude.{◌≡◌};
ghost use Rattle.cfdp.specs.Received.{outcome_shown, called};

use cfdp::Answer;

#[unsafe(no_mangle)]
pub extern "C" fn cfdp_receive(
    window: &mut [u8; 2048],
    filled: &mut usize,
    fragment: &[u8],
    answer: &mut Answer,
) -> usize
    ensures took { result ≡ (called window.old filled.old fragment.now).taken }
    ensures kept { window.new ≡ (called window.old filled.old fragment.now).leaves.window }
    ensures counted { filled.new ≡ (called window.old filled.old fragment.now).leaves.filled }
    ensures answered { answer.new ≡ outcome_shown (called window.old filled.old fragment.now).gives }
{
    cfdp::receive::cfdp_receive(window, filled, fragment, answer)
}
