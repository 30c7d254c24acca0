// Plans NAKs for the task on standard input, or checks the plan that is given with it. What it prints is tested and not proved.
#![tactic(auto)]

mod draft;
mod fault;
mod input;
mod line;
mod task;

use draft::Draft;
use input::Input;

// What was read, and what it gives, stays in one place: it has room for the longest lists that a task may have, and nothing is allocated.
fn main(rt: HostRuntime) {
    let mut input = Input::new();
    let mut draft = Draft::new();
    // What standard output does not take is passed over.
    let _ = match draft.read(&mut input) {
        Err(wrong) => println!(rt; "{wrong}"),
        Ok(task) => match task.answer(&draft.received, &mut draft.plan) {
            Ok(answer) => println!(rt; "{answer}"),
            Err(refusal) => {
                listing::print_refusal(refusal);
                Ok(())
            }
        },
    };
}
