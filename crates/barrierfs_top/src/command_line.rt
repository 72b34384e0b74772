//! What the words of the command line ask for.
ghost use Rattle.std.specs.Prelude.{◌≡◌, ◌++◌, ◌∷◌, [], Some, None, IfOk, IfSome, OnOk, OnErr};
ghost use Rattle.script_words.specs.Spelling.{numeral};
ghost use Rattle.clap_words.specs.Table.{said_of};
ghost use Rattle.barrierfs_top.specs.Tasks.{lone_task_of, most_of, run_in, run_of, sizes_of, task_of, task_said, without_run, workload_of, CanDo};

use blk_base::NoMemory;
use clap_words::{Asked, read_words, refusal};
use minix_layout::{DEFAULT_WIDTH, Geometry, LEAST_JOURNAL, MOST_JOURNAL, MOST_NUMBERED};
use script_grammar::MOST_SCRIPT_BYTES;
use script_words::numeral;
use session_report::bulk::MOST_GENERATED;
use std::alloc::Global;
use std::marker::Model;

/// What the program does with its input.
#[derive(Clone, Copy, PartialEq, Eq, Debug)]
pub enum InputTask {
    /// Runs a script and prints its report, or of a volume script writes the image that recovery left.
    Replay { raw: bool },
    /// Runs a volume script in threads, and prints its report or writes the image that recovery left.
    Run { raw: bool },
    /// Prints the tree of an image.
    Show,
    /// Gives an image names of 30 bytes, and prints the tree of the widened image, or writes its bytes.
    Widen { raw: bool },
    /// Tells whether the maps, links and dots of an image agree with its tree.
    Check,
    /// Runs the script of a key-value store and prints what its log holds.
    Kv,
}

impl InputTask {
    /// The most bytes that its input may have.
    pub fn most(self) -> u64
        ensures { result ≡ most_of self }
    {
        match self {
            InputTask::Replay { .. } | InputTask::Run { .. } | InputTask::Kv =>
                MOST_SCRIPT_BYTES as u64,
            InputTask::Show | InputTask::Widen { .. } | InputTask::Check => MOST_IMAGE_BYTES,
        }
    }
}

/// The sizes of an image that is made: its inodes, the blocks of its volume and those of its journal.
#[derive(Clone, Copy, PartialEq, Eq, Debug)]
pub struct Sizes {
    pub inodes: u16,
    pub zones: u16,
    pub journal: u32,
}

/// What the program does.
#[derive(Clone, Copy, PartialEq, Eq, Debug)]
pub enum Task {
    /// Reads an input.
    Read(InputTask),
    /// Makes an image. Nothing is read.
    Make(Sizes),
    /// Runs the workload that is generated from a number, and prints its summary. Nothing is read.
    Bulk(u32),
}

impl Task {
    /// Whether it is a run in threads, and then whether it is for the image that the run leaves.
    pub fn run(self) -> Option<bool>
        ensures { result ≡ run_of self }
    {
        match self {
            Task::Read(InputTask::Run { raw }) => Some(raw),
            _ => None,
        }
    }
}

/// The most bytes of an image.
pub const MOST_IMAGE_BYTES: u64 = 134_217_728;

/// The words of the command line, without the program's name.
#[derive(Drop)]
pub struct Words {
    items: Vec<String>,
}

impl Model for Words {
    ghost use Rattle.std.specs.Prelude.{List, ℕ, map};
    ghost use Rattle.std.specs.String.{string_bytes};

    ghost Value = { List (List ℕ) };

    ghost view = { λ w. map string_bytes w.items.items };
}

impl Words {
    /// No words. It takes no memory.
    pub fn make(alloc: Global) -> Words
        ensures { result ≡ [] }
    {
        Words {
            items: Vec::new(alloc),
        }
    }

    pub fn push(&mut self, alloc: Global, word: &str) -> Result<(), NoMemory>
        ensures pushed { OnOk result (self.new ≡ self.old ++ word.now ∷ []) }
        ensures kept { OnErr result (self.new ≡ self.old) }
    {
        self.items.push(String::from_str(alloc, word)?)?;
        Ok(())
    }

    /// What is to be done, where the words say so. Sizes of which no image can be made are no such words, and so are
    /// numbers of which no workload is generated.
    pub fn task(&self, alloc: Global) -> Result<Option<Task>, NoMemory>
        ensures value { IfOk result (λ r. r ≡ task_of self.now) }
        ensures can { IfOk result (λ r. IfSome r (λ t. CanDo t)) }
    {
        match read_words(alloc, self.items.as_slice()) {
            Ok(Some(asked)) => Ok(task_asked(asked)),
            Ok(None) => Ok(None),
            Err(_) => Err(NoMemory),
        }
    }

    /// What is to be done, where the words ask for something that needs no threads.
    pub fn lone_task(&self, alloc: Global) -> Result<Option<Task>, NoMemory>
        ensures value { IfOk result (λ r. r ≡ lone_task_of self.now) }
        ensures can { IfOk result (λ r. IfSome r (λ t. CanDo t)) }
        ensures lone { IfOk result (λ r. IfSome r (λ t. run_of t ≡ None)) }
    {
        let asked = self.task(alloc)?;
        Ok(without_run(asked))
    }

    /// What `clap` says of words that ask for nothing, where it says something that fits.
    pub fn refusal(&self, alloc: Global) -> Option<String> {
        refusal(alloc, self.items.as_slice())
    }
}

/// Where a run in threads is asked for: whether for the image that it leaves.
pub fn run_asked(asked: Option<Task>) -> Option<bool>
    ensures { result ≡ run_in asked }
{
    asked?.run()
}

// What is asked, where that needs no threads.
fn without_run(asked: Option<Task>) -> Option<Task>
    requires { IfSome asked (λ t. CanDo t) }
    ensures value { result ≡ without_run asked }
    ensures can { IfSome result (λ t. CanDo t) }
    ensures lone { IfSome result (λ t. run_of t ≡ None) }
{
    let task = asked?;
    match task.run() {
        None => Some(task),
        Some(_) => None,
    }
}

// What is to be done, where the numbers may be done.
fn task_asked(asked: Asked<'_>) -> Option<Task>
    ensures value { result ≡ task_said (said_of asked.entry) }
    ensures can { IfSome result (λ t. CanDo t) }
{
    match asked {
        Asked::Replay { raw } => Some(Task::Read(InputTask::Replay { raw })),
        Asked::Run { raw } => Some(Task::Read(InputTask::Run { raw })),
        Asked::Show => Some(Task::Read(InputTask::Show)),
        Asked::Widen { raw } => Some(Task::Read(InputTask::Widen { raw })),
        Asked::Check => Some(Task::Read(InputTask::Check)),
        Asked::Kv => Some(Task::Read(InputTask::Kv)),
        Asked::Make {
            inodes,
            zones,
            journal,
        } => Some(Task::Make(sizes_named(inodes, zones, journal)?)),
        Asked::Bulk { number } => workload_named(number),
    }
}

fn workload_named(number: &str) -> Option<Task>
    ensures value { result ≡ workload_of (numeral number.now) }
    ensures can { IfSome result (λ t. CanDo t) }
{
    let number = numeral(number.as_bytes())?;
    if number == 0 || number > u64::from(MOST_GENERATED) {
        return None;
    }
    Some(Task::Bulk(number as u32))
}

fn sizes_named(inodes: &str, zones: &str, journal: &str) -> Option<Sizes>
    ensures value { result ≡ sizes_of (numeral inodes.now) (numeral zones.now) (numeral journal.now) }
    ensures can { IfSome result (λ s. CanDo (Task.Make s)) }
{
    let inodes = numeral(inodes.as_bytes())?;
    let zones = numeral(zones.as_bytes())?;
    let journal = numeral(journal.as_bytes())?;
    checked(inodes, zones, journal)
}

// The sizes, where an image can be made of them.
fn checked(inodes: u64, zones: u64, journal: u64) -> Option<Sizes>
    ensures value { result ≡ sizes_of (Some inodes) (Some zones) (Some journal) }
    ensures can { IfSome result (λ s. CanDo (Task.Make s)) }
{
    if inodes == 0 || inodes > MOST_NUMBERED || zones > MOST_NUMBERED {
        return None;
    }
    if journal < u64::from(LEAST_JOURNAL) || journal > u64::from(MOST_JOURNAL) {
        return None;
    }
    let (inodes, zones) = (inodes as u16, zones as u16);
    if Geometry::make(inodes, zones, DEFAULT_WIDTH).is_err() {
        return None;
    }
    Some(Sizes {
        inodes,
        zones,
        journal: journal as u32,
    })
}
