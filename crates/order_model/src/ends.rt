//! The two ends of a queue, as traits.
ghost use Rattle.std.specs.Prelude.{◌≡◌, List, [], ◌∷◌, ◌++◌, OnOk, IfErr, OnErr, IfSome, IfNone};

/// The end of a queue at which items are put.
///
/// What it says holds of a queue of one thread and of one that threads share: whoever holds the end
/// knows what it sent, and of the other end nothing.
pub trait Outlet<T> {
    /// What was sent through this end, in order.
    ghost sent: { Self → List T };

    /// The queue was full at a moment between the two states.
    ghost was_full: { Self → Self → Type 0 };

    ghost Rest: { Type 0 };

    /// What no put changes.
    ghost rest: { Self → Self.Rest };

    /// Puts the item behind those in the queue, or hands it back where the queue was full.
    fn put(&mut self, item: T) -> Result<(), T>
        ensures sent { OnOk result (sent self.new ≡ sent self.old ++ item ∷ []) }
        ensures kept { OnErr result (sent self.new ≡ sent self.old) }
        ensures back { IfErr result (λ x. x ≡ item) }
        ensures full { OnErr result (was_full self.old self.new) }
        ensures rest { rest self.new ≡ rest self.old };
}

/// The end of a queue at which items are taken. Whoever holds it knows what it took.
pub trait Inlet<T> {
    /// What was taken at this end, in order.
    ghost taken: { Self → List T };

    /// The queue was empty at a moment between the two states.
    ghost was_empty: { Self → Self → Type 0 };

    ghost Rest: { Type 0 };

    /// What no take changes.
    ghost rest: { Self → Self.Rest };

    /// Takes the item that has been in the queue the longest. None where the queue was empty.
    fn take(&mut self) -> Option<T>
        ensures taken { IfSome result (λ x. taken self.new ≡ taken self.old ++ x ∷ []) }
        ensures kept { IfNone result (taken self.new ≡ taken self.old) }
        ensures empty { IfNone result (was_empty self.old self.new) }
        ensures rest { rest self.new ≡ rest self.old };
}
