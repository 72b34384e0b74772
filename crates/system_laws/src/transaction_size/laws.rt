//! Laws of the sizes of transactions. Each does nothing when it is called.
ghost use Rattle.minix_layout.specs.declared.limits.TheConstants.{LEAST_JOURNAL, MOST_JOURNAL};
ghost use Rattle.std.specs.Prelude.{◌≡◌, ◌≤◌, ◌<◌, ◌+◌, ℕ, Bool, false, List, [], length};
ghost use Rattle.minix_layout.specs.declared.division.Geometry.{Geometry};
ghost use Rattle.minix_layout.specs.Geometry.{IsSound};
ghost use Rattle.tree_model.specs.declared.call.Call.{Call};
ghost use Rattle.line_grammar.specs.calls.WellFormed.{IsWellFormed};
ghost use Rattle.volume_steps.specs.Now.{VolumeNow};
ghost use Rattle.volume_steps.specs.Calls.{called};
ghost use Rattle.volume_steps.specs.Called.{FindsRoom};
ghost use Rattle.journal_ring.specs.LogRing.{ring_free, all_home};
ghost use Rattle.journal_ring.specs.running.Closing.{writers};
ghost use Rattle.journal_ring.specs.running.Open.{quota};
ghost use Rattle.journal_ring.specs.running.Running.{log_needs};
ghost use Rattle.mount_make.specs.Made.{new_journal};
ghost use Rattle.host_machine.specs.runs.Runs.{Event};
ghost use Rattle.minix_host.specs.Calls.{would_change};
ghost use Rattle.call_sessions.specs.power_cuts.calls.CallImages.{made_session};
ghost use Rattle.system_laws.specs.transaction_size.Sizes.{HasFew, HaveLines};

use call_sessions::calls_of_scripts_write_bytes;
use minix_host::new_volumes_are_in_use;

/// A law, which does nothing when it is called: a call that a line can say touches blocks of the map of zones and at most
/// twelve others, however often each of them is told, and revokes at most 520 blocks. One that would change nothing touches
/// and revokes none.
pub fn calls_add_little_to_a_transaction()
    ensures blocks { (v : VolumeNow) (n tx : ℕ) (c : Call) → FindsRoom v n c → IsWellFormed c →
        HasFew (called v n tx c).change.touched.blocks (v.geometry.zmap + 12) }
    ensures revokes { (v : VolumeNow) (n tx : ℕ) (c : Call) → FindsRoom v n c → IsWellFormed c →
        length (called v n tx c).change.touched.revoked ≤ 520 }
    ensures no_blocks { (v : VolumeNow) (n tx : ℕ) (c : Call) → FindsRoom v n c → would_change v c ≡ false →
        (called v n tx c).change.touched.blocks ≡ [] }
    ensures no_revokes { (v : VolumeNow) (n tx : ℕ) (c : Call) → FindsRoom v n c → would_change v c ≡ false →
        (called v n tx c).change.touched.revoked ≡ [] }
{}

/// A law, which only calls laws: whatever callers and actors do in a session on an image that was made, where the line of a
/// script can say each call, the running transaction needs no more log blocks than its share, a quarter of the log. So it has
/// room in the log at the latest when that was emptied, and no commit waits for room in vain.
pub fn transactions_keep_their_share()
    ensures share { (g : Geometry) (journal : ℕ) (wide : Bool) (limit : ℕ) (programs : List (List Call)) (events : List Event) →
        IsSound g → LEAST_JOURNAL ≤ journal → journal ≤ MOST_JOURNAL → limit + journal < 4294967296 → HaveLines programs →
        log_needs (writers (new_journal journal wide)) (made_session g journal wide limit programs events).journal.running ≤ quota (new_journal journal wide) }
    ensures room { (g : Geometry) (journal : ℕ) (wide : Bool) (limit : ℕ) (programs : List (List Call)) (events : List Event) →
        IsSound g → LEAST_JOURNAL ≤ journal → journal ≤ MOST_JOURNAL → limit + journal < 4294967296 → HaveLines programs →
        log_needs (writers (new_journal journal wide)) (made_session g journal wide limit programs events).journal.running ≤
        ring_free (all_home (made_session g journal wide limit programs events).journal.ring) }
{
    new_volumes_are_in_use();
    calls_of_scripts_write_bytes();
}
