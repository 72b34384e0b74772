//! The request path without a scheduler.
ghost use Rattle.std.specs.Prelude.{◌≡◌, false, Some, slice_get};
ghost use Rattle.order_model.specs.declared.request.Request.{Request};
ghost use Rattle.order_model.specs.Device.{IsReceivable};
ghost use Rattle.order_model.specs.Machine.{machine_of};
ghost use Rattle.order_model.specs.Single.{command_for};
ghost use Rattle.stack_core.specs.Handing.{handed, given_alone};

use order_model::{Command, OrderedDev};
use script_grammar::RequestList;
use std::marker::Model;

/// The request path on which each request is a command of its own. Its value is how many went.
#[derive(Drop)]
pub struct DirectPath {
    next: usize,
    // Each request is carried in it.
    command: Command,
}

impl Model for DirectPath {
    ghost use Rattle.std.specs.Prelude.{ℕ};

    ghost Value = { ℕ };

    ghost view = { λ d. d.next };
}

impl DirectPath {
    /// None went.
    pub fn new() -> DirectPath
        ensures { result ≡ 0 }
    {
        DirectPath {
            next: 0,
            command: Command::blank(),
        }
    }

    /// How many requests went.
    pub fn submitted(&self) -> usize
        ensures { result ≡ self.now }
    {
        self.next
    }

    /// The next request goes to the device as a command of its own, where there is one and there is room. Otherwise it
    /// answers false.
    pub fn hand_to<D: OrderedDev>(&mut self, dev: &mut D, requests: &RequestList) -> bool
        requires { (r : Request) → slice_get requests.now self.old ≡ Some r → IsReceivable (D.seen (D.state dev.old)) (command_for r) }
        ensures step { record { before = self.new; dev = D.state dev.new } ≡
            handed (machine_of D.OrderedDev) (record { before = self.old; dev = D.state dev.old }) (given_alone self.old (slice_get requests.now self.old)) }
        ensures idle { result ≡ false → (self.new ≡ self.old) × (D.state dev.new ≡ D.state dev.old) }
    {
        if !dev.room() {
            return false;
        }
        let Some(request) = requests.get(self.next) else {
            return false;
        };
        let flagged = request.barrier;
        self.command.carry(request, flagged);
        dev.take_in(&self.command);
        self.next += 1;
        true
    }
}
