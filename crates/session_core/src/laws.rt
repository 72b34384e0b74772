//! The laws, each a public function that does nothing when it is called.
ghost use Rattle.std.specs.Prelude.{◌≡◌, ℕ};
ghost use Rattle.tree_model.specs.declared.call.Call.{Call};
ghost use Rattle.tree_model.specs.declared.call.Reply.{Reply};
ghost use Rattle.flush_actor.specs.Kinds.{is_begun, is_data, is_durable, is_whole};
ghost use Rattle.minix_host.specs.Calls.{kind_of};
ghost use Rattle.session_grammar.specs.declared.session_script.SessionScript.{SessionScript};
ghost use Rattle.session_core.specs.CallNames.{is_barrier_or_sync, is_sync_call, covers_data_alone, covers_all_files};
ghost use Rattle.session_core.specs.CallEnds.{Down, EndsAt, EndsByTree, Ending, HasGoneOff, IsAtLimit, IsFirstFailed, RanFreely, ReadOnly, SessionFull};
ghost use Rattle.session_core.specs.Core.{EndState, opening_of};
ghost use Rattle.session_core.specs.Headline.{medium_of, HasLaterKept, ShowsLater, HeadlineOn};
ghost use Rattle.session_core.specs.declared.report.SessionReport.{SessionReport};

/// A law, which does nothing when it is called: what the headline says of a call by the kind that the host gives it is
/// said of barrier and sync calls by their names: `fsync`, `fdatasync` and `sync` are durable, the others are barriers;
/// `fdatasync` and `fdatabarrier` cover data alone, and `sync` all files.
pub fn calls_promise_by_their_names()
    ensures begun { (c : Call) → is_begun (kind_of c) ≡ is_barrier_or_sync c }
    ensures durable { (c : Call) → is_durable (kind_of c) ≡ is_sync_call c }
    ensures data_alone { (c : Call) → is_data (kind_of c) ≡ covers_data_alone c }
    ensures all { (c : Call) → is_whole (kind_of c) ≡ covers_all_files c }
{}

/// A law, which does nothing when it is called: where the tree that was recovered shows what only entries after entry e can
/// have done, as bytes of a block that it had after no entry up to e, or paths and metadata of no tree up to e, something
/// that was done after e survived. So what the sentence on barrier calls asks for can be read off the tree.
pub fn what_is_shown_later_survived()
    ensures { (s : SessionScript) (end : EndState) (r : SessionReport) (is : HeadlineOn s end r) (e : ℕ) →
        ShowsLater s end r.found is.prefix.tree e → HasLaterKept s end (medium_of r) e }
{}

/// A law, which does nothing when it is called: a call of a session that keeps its promises ends as `down` only where the
/// script has a line `cut` and the device made as many steps as that says; as `read-only` only where it has a line `fail`
/// and the transfer of that number was made, with the first request that the device told as failed; and as `session full`
/// only where all requests that there may be were submitted. So where the script has neither line, and not all were, each
/// call ends as the tree of calls says.
pub fn calls_end_as_their_script_says()
    ensures down { (s : SessionScript) (end : EndState) (r : SessionReport) → HeadlineOn s end r → (i t : ℕ) (c : Call) →
        EndsAt end.host.history i t c Down → HasGoneOff s end.dev }
    ensures read_only { (s : SessionScript) (end : EndState) (r : SessionReport) → HeadlineOn s end r → (i t id : ℕ) (c : Call) →
        EndsAt end.host.history i t c (ReadOnly id) → IsFirstFailed s end.dev id }
    ensures session_full { (s : SessionScript) (end : EndState) (r : SessionReport) → HeadlineOn s end r → (i t : ℕ) (c : Call) →
        EndsAt end.host.history i t c SessionFull → IsAtLimit s end }
    ensures by_tree { (s : SessionScript) (end : EndState) (r : SessionReport) → HeadlineOn s end r → RanFreely s end → (i t : ℕ) (c : Call) (e : Ending Reply) →
        EndsAt end.host.history i t c e → EndsByTree (opening_of s) end.host i t c e }
{}
