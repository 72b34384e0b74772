//! What was submitted.
ghost use Rattle.std.specs.Prelude.{◌≡◌, ℕ, ◌+◌, ◌<◌, ◌^◌, None, [], ◌∷◌, ◌++◌, IfOk, length, slice_get};
ghost use Rattle.flush_actor.specs.conflicts.Commits.{is_committed, with_commits};
ghost use Rattle.flush_actor.specs.Part.{is_flush_note, flush_above, last_put};
ghost use Rattle.flush_actor.specs.Steps.{commits_before};
ghost use Rattle.flush_actor.specs.code.Summary.{flush_with, put_with, commits_with, is_above};

use crate::conflicts::Commits;
use blk_base::NoMemory;
use order_model::{Note, Request, Trail};
use std::alloc::Global;
use std::marker::Model;

/// The requests that were submitted, with their notes. Of the requests themselves it keeps nothing: contracts alone see
/// them. No call but `make` takes memory, and none goes through all notes.
#[derive(Drop)]
pub struct Submission {
    limit: u64,
    requests: Trail<Request>,
    notes: Vec<Note>,
    flush: Option<u64>,
    put: Option<u64>,
    commits: Commits,
}

impl Model for Submission {
    ghost use Rattle.flush_actor.specs.Actor.{Submission};
    ghost use Rattle.flush_actor.specs.code.Fields.{IsSubmission};
    ghost use Rattle.std.specs.Prelude.{vec_capacity};

    ghost Value = { Submission };

    ghost view = { λ s. record { limit = s.limit; requests = s.requests.items; notes = s.notes.items } };

    ghost invariant = { λ s. IsSubmission s.limit s.requests.items s.notes.items (vec_capacity s.notes) s.flush s.put s.commits };
}

impl Submission {
    pub fn make(alloc: Global, limit: u64) -> Result<Submission, NoMemory>
        requires { limit < 2 ^ 32 }
        ensures { IfOk result (λ s. s ≡ record { limit = limit; requests = []; notes = [] }) }
    {
        Ok(Submission {
            limit,
            requests: Trail::new(),
            notes: Vec::with_capacity(alloc, limit as usize)?,
            flush: None,
            put: None,
            commits: Commits::make(alloc, limit as u32)?,
        })
    }

    pub fn len(&self) -> u64
        ensures { result ≡ length self.now.requests }
    {
        self.notes.len() as u64
    }

    pub fn limit(&self) -> u64
        ensures { result ≡ self.now.limit }
    {
        self.limit
    }

    pub fn notes(&self) -> &[Note]
        ensures { result.now ≡ self.now.notes }
    {
        &self.notes
    }

    pub fn note(&self, id: u64) -> Option<Note>
        ensures { result ≡ slice_get self.now.notes id }
    {
        self.notes.get(id as usize).copied()
    }

    // The requests with one more.
    pub fn with(&self, request: &Request) -> Trail<Request>
        ensures { result.items ≡ self.now.requests ++ request.now ∷ [] }
    {
        self.requests.and(request)
    }

    // One request more was submitted.
    pub fn push(&mut self, requests: Trail<Request>, note: Note)
        requires room { length self.old.requests < self.old.limit }
        requires one { length requests.items ≡ length self.old.requests + 1 }
        ensures { self.new ≡ record { limit = self.old.limit; requests = requests.items; notes = self.old.notes ++ note ∷ [] } }
    {
        let id = self.notes.len() as u64;
        self.flush = flush_with(self.flush, note, id);
        self.put = put_with(self.put, note, id);
        note_commit(&mut self.commits, note, id);
        self.notes.push_reserved(note);
        self.requests = requests;
    }

    // Whether a flush with a greater id was submitted.
    pub fn has_flush_above(&self, id: u64) -> bool
        ensures { result ≡ flush_above id 0 self.now.notes }
    {
        is_above(id, self.flush)
    }

    pub fn last_put(&self) -> Option<u64>
        ensures { result ≡ last_put 0 self.now.notes None }
    {
        self.put
    }

    // Which transactions have their commit block, and where.
    pub fn commits(&self) -> &Commits
        ensures { (k id : ℕ) → is_committed id k result.now.commits ≡ commits_before k id 0 self.now.notes }
    {
        &self.commits
    }
}

// Whether the number is above `id`.
pub fn is_above(id: u64, number: Option<u64>) -> bool
    ensures { result ≡ is_above id number }
{
    match number {
        Some(n) => id < n,
        None => false,
    }
}

fn is_flush(note: Note) -> bool
    ensures { result ≡ is_flush_note note }
{
    matches!(note, Note::Flush)
}

// The last flush, after request `id` with this note.
fn flush_with(last: Option<u64>, note: Note, id: u64) -> Option<u64>
    ensures { result ≡ flush_with last note id }
{
    if is_flush(note) { Some(id) } else { last }
}

// The last put, after request `id` with this note.
fn put_with(last: Option<u64>, note: Note, id: u64) -> Option<u64>
    ensures { result ≡ put_with last note id }
{
    if is_flush(note) { last } else { Some(id) }
}

// Notes request `id` if it is a commit block.
fn note_commit(commits: &mut Commits, note: Note, id: u64)
    requires { length commits.old.commits < commits.old.room }
    ensures { commits.new ≡ with_commits commits.old (commits_with commits.old.commits note id) }
{
    if let Note::Commit { tx } = note {
        commits.note(tx, id);
    }
}
