//! The words of a process, and those of a run, which needs threads; and the texts of the faults.
use crate::told::{ended, words_of};
use barrierfs_top::{InputTask, Task, TopFault, given_words};
use mount_make::ImageFault;
use script_grammar::ScriptKind;
use std::alloc::Global;
use std::env::FillError;
use std::process::Abort;
use std::rt::Env;

// The words of a process, its name first.
#[derive(Drop)]
struct Given {
    words: [&'static [u8]; 2],
}

impl Env for Given {
    fn arg(&self, i: usize, buf: &mut [u8]) -> Result<usize, FillError> {
        let Some(word) = self.words.get(i) else {
            return Err(FillError::NotPresent);
        };
        match buf.get_mut(..word.len()) {
            Some(front) => {
                front.copy_from_slice(word);
                Ok(word.len())
            }
            None => Err(FillError::TooLong),
        }
    }

    fn var(&self, _name: &str, _buf: &mut [u8]) -> Result<usize, FillError> {
        Err(FillError::NotPresent)
    }

    fn var_at(&self, _i: usize, _buf: &mut [u8]) -> Result<usize, FillError> {
        Err(FillError::NotPresent)
    }
}

// The task of a process with these words.
fn task_of(alloc: Global, words: [&'static [u8]; 2]) -> Result<Option<Task>, TopFault> {
    let words = given_words(&(Given { words }, alloc))?;
    words.task(alloc).map_err(|_| TopFault::NoMemory)
}

// A word beside the task that it names.
static GIVEN: [(&[u8], Result<Option<Task>, TopFault>); 3] = [
    (
        b"replay",
        Ok(Some(Task::Read(InputTask::Replay { raw: false }))),
    ),
    (b"rep", Ok(None)),
    (b"repl\xffy", Err(TopFault::BadWords)),
];

fn expect_tasks(
    rt: &impl Abort,
    alloc: Global,
    rows: &[(&'static [u8], Result<Option<Task>, TopFault>)],
) {
    for (word, task) in rows {
        let found = task_of(alloc, [b"barrierfs", *word]);
        assert_eq!(rt; found, *task, "{word:?}");
    }
}

#[test]
fn takes_words_that_are_texts(rt: HostRuntime) {
    expect_tasks(&rt, rt.alloc(), &GIVEN);
}

// Lists of words, and what is said of them behind `bad words`.
static REFUSALS: [(&[&str], Option<&str>); 14] = [
    (
        &["reply"],
        Some(
            "error: unrecognized subcommand 'reply'\n\n  tip: a similar subcommand exists: 'replay'\n\nUsage: barrierfs <COMMAND>\n",
        ),
    ),
    (
        &["make", "32"],
        Some(
            "error: the following required arguments were not provided:\n  <Z>\n  <J>\n\nUsage: barrierfs make <I> <Z> <J>\n",
        ),
    ),
    (
        &["bulk", "5", "6"],
        Some("error: unexpected argument '6' found\n\nUsage: barrierfs bulk <N>\n"),
    ),
    (
        &["replay", "x"],
        Some("error: unexpected argument 'x' found\n\nUsage: barrierfs replay [OPTIONS]\n"),
    ),
    (
        &[],
        Some(
            "error: 'barrierfs' requires a subcommand but one was not provided\n  [subcommands: replay, run, show, widen, check, kv, make, bulk]\n\nUsage: barrierfs <COMMAND>\n",
        ),
    ),
    (&["replay", "--row"], None),
    (&["replay", "--"], None),
    (&["make", "-32", "64", "128"], None),
    (&["bulk", "-"], None),
    (&["reply", "-x"], None),
    (&["bulk", "+5"], None),
    (&["bulk", "10001"], None),
    (&["make", "32", "5", "128"], None),
    (&["replay"], None),
];

#[test]
fn says_what_clap_says(rt: HostRuntime) {
    for (list, wanted) in &REFUSALS {
        let words = words_of(&rt, rt.alloc(), list);
        let found = words.refusal(rt.alloc());
        assert_eq!(rt; found.as_deref(), *wanted, "{list:?}");
    }
}

// What needs no threads does not know the words of a run.
#[test]
fn runs_need_threads(rt: HostRuntime) {
    let script = b"volume inodes 32 zones 64 journal 128\nevents\n";
    for words in [["run"].as_slice(), &["run", "--raw"]] {
        let (ended, written) = ended(&rt, rt.alloc(), words, script);
        let end = (ended.status, ended.fault, ended.reported, written.len());
        assert_eq!(rt; end, (2, Some(TopFault::BadWords), false, 0), "{words:?}");
    }
}

// Faults, and their texts.
static FAULT_TEXTS: [(TopFault, &str); 19] = [
    (TopFault::BadWords, "bad words"),
    (TopFault::SourceFault, "source fault"),
    (TopFault::SinkFault, "sink fault"),
    (TopFault::TooLong, "input too long"),
    (TopFault::NoMemory, "no memory"),
    (TopFault::NoRoom, "no room"),
    (TopFault::Script(2, ScriptKind::Word), "script line 2: word"),
    (
        TopFault::Script(3, ScriptKind::Order),
        "script line 3: order",
    ),
    (
        TopFault::Script(30, ScriptKind::Twice),
        "script line 30: twice",
    ),
    (
        TopFault::Script(4, ScriptKind::Number),
        "script line 4: number",
    ),
    (
        TopFault::Script(1, ScriptKind::Geometry),
        "script line 1: geometry",
    ),
    (
        TopFault::Image(ImageFault::BadMagic, 1),
        "image: bad magic at block 1",
    ),
    (
        TopFault::Image(ImageFault::BadGeometry, 0),
        "image: bad geometry at block 0",
    ),
    (
        TopFault::Image(ImageFault::BadKind, 64),
        "image: bad kind at block 64",
    ),
    (
        TopFault::Image(ImageFault::BadCount, 66),
        "image: bad count at block 66",
    ),
    (
        TopFault::Image(ImageFault::Feature(6), 64),
        "image: feature 6 at block 64",
    ),
    (
        TopFault::Image(ImageFault::BadZone, 5),
        "image: bad zone at block 5",
    ),
    (
        TopFault::Image(ImageFault::BadInode, 4),
        "image: bad inode at block 4",
    ),
    (
        TopFault::Image(ImageFault::BadSlot, 7),
        "image: bad slot at block 7",
    ),
];

#[test]
fn prints_the_faults(rt: HostRuntime) {
    for (fault, wanted) in &FAULT_TEXTS {
        let text = format!(in rt.alloc(); "{fault}").expect(&rt, "no memory");
        assert_eq!(rt; text.as_str(), *wanted);
    }
}
