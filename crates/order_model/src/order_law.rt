//! The law from the commands that carry requests to the medium.
ghost use Rattle.std.specs.Prelude.{◌≡◌, ℕ, List, [], length, map};
ghost use Rattle.order_model.specs.declared.request.Request.{Request};
ghost use Rattle.order_model.specs.OrderClosed.{IsOrderClosed, IsKept, IsPut, KeepsFlushed};
ghost use Rattle.order_model.specs.Device.{IsQuiet, IsSurface, Seen, completed, origin_ids};
ghost use Rattle.order_model.specs.Merging.{ungrouped, merged, IsGroup};
ghost use Rattle.blk_base.specs.Members.{In};
ghost use Rattle.order_model.specs.declared.command.Command.{Command};
ghost use Rattle.order_model.specs.Carrying.{SchedSeen, Carries, AreAtIds, Fits, FlushesAreBarriers, sent_alone};

use crate::OrderedDev;

/// Where the commands that were sent out carry the requests that the host submitted, what a power cut
/// leaves on the device behind them is order-closed for these requests, and where a flush completed all
/// before it is kept.
///
/// A law alone: it is that of every scheduler, and of every device that keeps the order of epochs.
pub fn keeps_order_to_the_medium<D: OrderedDev>(dev: &D)
    ensures closed { (submitted : List Request) (s : SchedSeen) → AreAtIds submitted → Carries s → Fits submitted s (D.seen (D.state dev.now)) → IsOrderClosed (D.seen (D.state dev.now)).base submitted (D.seen (D.state dev.now)).surface (origin_ids (D.seen (D.state dev.now)).took (D.seen (D.state dev.now)).origins) }
    ensures flushed { (submitted : List Request) (s : SchedSeen) → AreAtIds submitted → Carries s → Fits submitted s (D.seen (D.state dev.now)) → KeepsFlushed submitted (origin_ids (D.seen (D.state dev.now)).took (D.seen (D.state dev.now)).origins) (completed (D.seen (D.state dev.now))) }
{
    dev.blocks();
}

/// Where all that was submitted was accepted, none of it waits, the device took all that was sent out, and it is quiet, every
/// put is kept.
///
/// A law alone: the call does nothing.
pub fn quiet_devices_keep_all()
    ensures { (requests : List Request) (s : SchedSeen) (d : Seen) → AreAtIds requests → Carries s → IsSurface d → Fits requests s d →
        length s.accepted ≡ length requests → s.waiting ≡ [] → length d.took ≡ length s.sent_out → IsQuiet d →
        (i : ℕ) → IsPut requests i → IsKept requests (origin_ids d.took d.origins) i }
{}

/// Requests that are sent in order, each as a command of its own, are carried by these commands.
///
/// A law alone: the call does nothing.
pub fn carries_requests_sent_alone()
    ensures { (requests : List Request) → AreAtIds requests → FlushesAreBarriers requests → Carries (sent_alone requests) }
{}

/// Commands that are merged in groups carry what those carry of which they were merged.
///
/// A law alone: the call does nothing.
pub fn carries_requests_merged()
    ensures { (s : SchedSeen) (groups : List (List Command)) → ((g : List Command) → In g groups → IsGroup g) → s.sent_out ≡ ungrouped groups → Carries s → Carries (record s { sent_out = map merged groups }) }
{}
