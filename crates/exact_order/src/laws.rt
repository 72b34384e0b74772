//! The laws, each a public function that does nothing when it is called.
ghost use Rattle.std.specs.Prelude.{◌≡◌, ℕ, ◌≤◌, ◌↔◌, List, [], ◌∷◌, length, Option, Some, None};
ghost use Rattle.blk_base.specs.Block.{filled};
ghost use Rattle.blk_base.specs.Image.{zeros};
ghost use Rattle.order_model.specs.Device.{origin_ids};
ghost use Rattle.order_model.specs.OrderClosed.{IsOrderClosed};
ghost use Rattle.schedulers.specs.declared.reassign.scheduler.TheConstants.{CAPACITY};
ghost use Rattle.script_grammar.specs.declared.script.Script.{Script};
ghost use Rattle.script_grammar.specs.declared.words.Class.{Class};
ghost use Rattle.script_grammar.specs.declared.words.Class.TheVariants.{Free, Ordered};
ghost use Rattle.script_grammar.specs.Grammar.{blocks_of};
ghost use Rattle.script_grammar.specs.WellFormed.{IsWellFormed};
ghost use Rattle.stack_core.specs.declared.report.Report.{Report};
ghost use Rattle.stack_core.specs.Report.{IsCoreReport};
ghost use Rattle.exact_order.specs.Left.{end_under, AreEvents, IsLeft, IsPlain};
ghost use Rattle.exact_order.specs.Events.{events_to};
ghost use Rattle.exact_order.specs.Example.{before_barrier, around_flush};

/// A law, which does nothing when it is called: where no more requests are asked for than the scheduler holds, some events and a
/// power cut behind them leave just the media that are order-closed, however long the queues are and however deep the device is.
/// Where more are asked for, still no other medium is left. But a scheduler that is full of puts which are not to be kept must let
/// one of them go before it accepts a barrier; so not each of these media is.
pub fn left_media_are_the_closed_ones()
    ensures each { (s : Script) → IsPlain s → length s.puts ≤ CAPACITY → (image : List (List ℕ)) (origins : List (Option ℕ)) →
        IsLeft s image origins ↔ IsOrderClosed (zeros (blocks_of s)) s.puts image origins }
    ensures no_other { (s : Script) → IsPlain s → (image : List (List ℕ)) (origins : List (Option ℕ)) →
        IsLeft s image origins → IsOrderClosed (zeros (blocks_of s)) s.puts image origins }
{}

/// A law, which does nothing when it is called: which events leave an order-closed medium is worked out from its origins.
pub fn events_leave_closed_media()
    ensures said { (s : Script) (image : List (List ℕ)) (origins : List (Option ℕ)) →
        IsPlain s → length s.puts ≤ CAPACITY → IsOrderClosed (zeros (blocks_of s)) s.puts image origins →
        AreEvents s (events_to s.puts origins) }
    ensures image { (s : Script) (image : List (List ℕ)) (origins : List (Option ℕ)) →
        IsPlain s → length s.puts ≤ CAPACITY → IsOrderClosed (zeros (blocks_of s)) s.puts image origins →
        (end_under s (events_to s.puts origins)).dev.surface ≡ image }
    ensures origins { (s : Script) (image : List (List ℕ)) (origins : List (Option ℕ)) →
        IsPlain s → length s.puts ≤ CAPACITY → IsOrderClosed (zeros (blocks_of s)) s.puts image origins →
        origin_ids (end_under s (events_to s.puts origins)).dev.took (end_under s (events_to s.puts origins)).dev.origins ≡ origins }
{}

/// A law, which does nothing when it is called: what is left is what a run of a script shows that can be written down.
pub fn left_media_are_reported()
    ensures left { (s : Script) (r : Report) →
        IsWellFormed s → IsCoreReport s r → IsLeft s r.cut.image r.cut.origins }
    ensures written { (s : Script) (image : List (List ℕ)) (origins : List (Option ℕ)) (l : IsLeft s image origins) →
        IsWellFormed s → IsWellFormed (record s { events = l.events }) }
    ensures shown { (s : Script) (image : List (List ℕ)) (origins : List (Option ℕ)) (l : IsLeft s image origins) (r : Report) →
        IsCoreReport (record s { events = l.events }) r → (r.cut.image ≡ image) × (r.cut.origins ≡ origins) }
{}

/// A law, which does nothing when it is called: members of both sides. Before a barrier and a later put that are kept, a put that
/// asks for no order may be lost, and one that keeps order may not. Before a flush behind which a put is kept, none may.
pub fn order_says_what_may_be_lost()
    ensures plain { (class : Class) → IsPlain (before_barrier class) }
    ensures plain_flush { IsPlain around_flush }
    ensures overtaken { IsLeft (before_barrier Free) (filled 0 ∷ filled 34 ∷ filled 51 ∷ []) (None ∷ Some 1 ∷ Some 2 ∷ []) }
    ensures fenced { (image : List (List ℕ)) → IsLeft (before_barrier Ordered) image (None ∷ Some 1 ∷ Some 2 ∷ []) → ⊥ }
    ensures flushed { (image : List (List ℕ)) → IsLeft around_flush image (None ∷ None ∷ Some 2 ∷ []) → ⊥ }
{}
