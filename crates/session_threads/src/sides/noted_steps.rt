//! Which steps of a thread are stored as events.
ghost use Rattle.std.specs.Prelude.{◌≡◌, ◌≢◌, ◌⊎◌, ◌-◌, ◌≤◌, true, false};
ghost use Rattle.host_answers.specs.declared.step.Step.TheVariants as answers;
ghost use Rattle.host_core.specs.Answers.{found_queue_full};
ghost use Rattle.session_core.specs.run.parts.Still.{wait_of};
ghost use Rattle.session_threads.specs.sides.Noting.{WasStill};

use flush_actor::Wait;
use host_answers::{Cause, Step};
use host_core::Host;

/// What is compared of a host to find out whether a step that waits changed it.
#[derive(Clone, Copy, PartialEq, Eq)]
pub struct HostMarks {
    pub wanted: bool,
    pub wait: Wait,
}

/// Whether the running transaction is to be closed, and what this thread waits for.
pub fn marks_of(host: &Host, thread: u32) -> HostMarks
    requires { 1 ≤ thread }
    ensures wanted { result.wanted ≡ host.now.host.journal.running.wanted }
    ensures wait { result.wait ≡ wait_of host.now.host (thread - 1) }
{
    HostMarks {
        wanted: host.is_wanted(),
        wait: host.wait(thread),
    }
}

pub fn are_same(a: &HostMarks, b: &HostMarks) -> bool
    ensures { result ≡ true → a.now ≡ b.now }
{
    a == b
}

/// Whether a step of a thread is to be stored; `same` says that it left what is compared.
pub fn is_noted(step: &Step, same: bool) -> bool
    ensures yes { result ≡ true → step.now ≢ answers.NoMemory }
    ensures no { result ≡ false → WasStill step.now same }
{
    match step {
        Step::NoMemory => false,
        Step::Waiting(_) | Step::Ended => !same,
        _ => true,
    }
}

/// Whether it found the submission queue full.
pub fn is_full(step: &Step) -> bool
    ensures { result ≡ found_queue_full step.now }
{
    matches!(step, Step::Waiting(Cause::QueueFull))
}
