//! The device steps that the words of a `recover` line ask for.
ghost use Rattle.std.specs.Prelude.{◌≡◌, IfOk};
ghost use Rattle.journal_replay.specs.Driving.{all_choices};
ghost use Rattle.call_sessions.specs.power_cuts.recovery.Attempts.{choices_of};
ghost use Rattle.call_sessions.specs.power_cuts.recovery.code.WordSteps.{repeated_of};

use blk_base::NoMemory;
use journal_replay::{Choice, Repeated};
use line_grammar::events::{Steer, SteerLine};
use std::alloc::Global;

/// The device steps of a line, in order: an entry for each word, however many steps it asks for.
pub(crate) fn steps_of_line(alloc: Global, line: &SteerLine) -> Result<Vec<Repeated>, NoMemory>
    ensures { IfOk result (λ v. all_choices v.items ≡ choices_of line.now) }
{
    let mut steps = Vec::new(alloc);
    for steer in line.as_slice() {
        steps.push(repeated(*steer))?;
    }
    Ok(steps)
}

// The steps of one word.
fn repeated(steer: Steer) -> Repeated
    ensures { result ≡ repeated_of steer }
{
    match steer {
        Steer::Transfer(pick) => Repeated {
            choice: Choice::Transfer(pick),
            times: 1,
        },
        Steer::Persist(pick) => Repeated {
            choice: Choice::Persist(pick),
            times: 1,
        },
        Steer::Default(count) => Repeated {
            choice: Choice::Default,
            times: count,
        },
    }
}
