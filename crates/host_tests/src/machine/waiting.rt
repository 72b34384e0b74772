//! Why a call that changes something waits.
ghost use Rattle.std.specs.Prelude.{◌≡◌, ◌≢◌, ◌⊎◌, ◌<◌, ◌≤◌, ◌+◌, ◌-◌, ℕ, Bool, true, false, List, length};
ghost use Rattle.commit_actor.specs.Journal.{Closing};
ghost use Rattle.host_machine.specs.Causes as causes;
ghost use Rattle.host_machine.specs.Host.{advance};
ghost use Rattle.host_machine.specs.Model.{Model};
ghost use Rattle.host_machine.specs.Outcomes as outcomes;
ghost use Rattle.host_machine.specs.State.{SessionFull, Host, Setup};
ghost use Rattle.host_tests.specs.machine.Asking.{HasRoom, HasNoRoom, IsPlain, ended, wanted};
ghost use Rattle.host_tests.specs.machine.Shares.{FitsQuota, PassesQuota, FindsZones, LacksZones, freed_before, log_blocks};

/// A law, which does nothing when it is called: a call that changes neither the tree nor a page waits for nothing, and
/// needs no request. One that does waits while the transaction is closed, and leaves the host as it was. It does not wait
/// while the log blocks of the transaction before are on their way.
pub fn closing_hinders_what_changes<T, V, C, R>()
    ensures still { (m : Model T V C R) (u : Setup) (full : Bool) (s : Host V C R) (t : ℕ) (c : C) (rest : List C) →
        IsPlain m s t c rest → m.hinders s.volume c ≡ false →
        (advance m u full s t).step ≡ outcomes.Done (m.apply s.volume (length s.history + 1) s.journal.running.number c).reply }
    ensures closing { (m : Model T V C R) (u : Setup) (full : Bool) (s : Host V C R) (t : ℕ) (c : C) (rest : List C) →
        IsPlain m s t c rest → m.hinders s.volume c ≡ true → HasRoom s → s.journal.phase ≡ Closing →
        advance m u full s t ≡ record { host = s; step = outcomes.Waiting causes.Closing } }
    ensures goes { (m : Model T V C R) (u : Setup) (full : Bool) (s : Host V C R) (t : ℕ) (c : C) (rest : List C) →
        IsPlain m s t c rest → m.hinders s.volume c ≡ true → s.journal.phase ≢ Closing → FitsQuota u s.journal.running → FindsZones m s c →
        (advance m u full s t).step ≡ outcomes.Done (m.apply s.volume (length s.history + 1) s.journal.running.number c).reply }
{}

/// A law, which does nothing when it is called: where the greatest call does not fit into the transaction's share of the
/// log any more, a call that changes something waits, is told how many log blocks the transaction has, and the
/// transaction is to be closed.
pub fn full_transactions_are_closed<T, V, C, R>()
    ensures full { (m : Model T V C R) (u : Setup) (full : Bool) (s : Host V C R) (t : ℕ) (c : C) (rest : List C) →
        IsPlain m s t c rest → m.hinders s.volume c ≡ true → HasRoom s → s.journal.phase ≢ Closing → PassesQuota u s.journal.running →
        advance m u full s t ≡ record {
          host = wanted s;
          step = outcomes.Waiting (causes.TxFull (log_blocks u (length s.journal.running.touched) (length s.journal.running.revoked)));
        } }
{}

/// A law, which does nothing when it is called: a call that needs more zones than are free waits, and is told how many it
/// lacks. The transaction is to be closed exactly where the zones that wait for closed transactions are too few.
pub fn quarantined_zones_are_waited_for<T, V, C, R>()
    ensures enough { (m : Model T V C R) (u : Setup) (full : Bool) (s : Host V C R) (t : ℕ) (c : C) (rest : List C) →
        IsPlain m s t c rest → m.hinders s.volume c ≡ true → HasRoom s → s.journal.phase ≢ Closing → FitsQuota u s.journal.running → LacksZones m s c →
        m.needs s.volume c ≤ length (m.zones s.volume).free + freed_before s.journal.running.number (m.zones s.volume).waiting →
        advance m u full s t ≡ record { host = s; step = outcomes.Waiting (causes.Quarantine (m.needs s.volume c - length (m.zones s.volume).free)) } }
    ensures too_few { (m : Model T V C R) (u : Setup) (full : Bool) (s : Host V C R) (t : ℕ) (c : C) (rest : List C) →
        IsPlain m s t c rest → m.hinders s.volume c ≡ true → HasRoom s → s.journal.phase ≢ Closing → FitsQuota u s.journal.running → LacksZones m s c →
        length (m.zones s.volume).free + freed_before s.journal.running.number (m.zones s.volume).waiting < m.needs s.volume c →
        advance m u full s t ≡ record { host = wanted s; step = outcomes.Waiting (causes.Quarantine (m.needs s.volume c - length (m.zones s.volume).free)) } }
{}

/// A law, which does nothing when it is called: where all requests of the session are submitted, a call that would have to
/// wait ends as session full in place of that, and nothing becomes wanted.
pub fn hindered_calls_end_at_the_limit<T, V, C, R>()
    ensures limit { (m : Model T V C R) (u : Setup) (full : Bool) (s : Host V C R) (t : ℕ) (c : C) (rest : List C) →
        IsPlain m s t c rest → m.hinders s.volume c ≡ true → HasNoRoom s →
        (s.journal.phase ≡ Closing) ⊎ (PassesQuota u s.journal.running ⊎ LacksZones m s c) →
        advance m u full s t ≡ record { host = ended s t c rest SessionFull; step = outcomes.SessionFull } }
{}
