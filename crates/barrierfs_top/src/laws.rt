//! Laws of what goes in and out.
ghost use Rattle.std.specs.Prelude.{◌≡◌, ◌↔◌, ℕ, List, Option, Some, Ok};
ghost use Rattle.blk_base.specs.Image.{whole_blocks};
ghost use Rattle.barrierfs_top.specs.declared.run_report.RunReport.{RunReport};
ghost use Rattle.barrierfs_top.specs.declared.command_line.InputTask.{InputTask};
ghost use Rattle.barrierfs_top.specs.declared.command_line.Task.{Task};
ghost use Rattle.barrierfs_top.specs.declared.fault.TopFault.{TopFault};
ghost use Rattle.barrierfs_top.specs.Tasks.{task_of};
ghost use Rattle.barrierfs_top.specs.WordLists.{AskFor};
ghost use Rattle.barrierfs_top.specs.Sessions.{IsSessionReplay, IsImageReplay};
ghost use Rattle.barrierfs_top.specs.Show.{shown};
ghost use Rattle.barrierfs_top.specs.Top.{Expects};

/// A law, which does nothing when it is called: the image that `replay --raw` writes of a script is shown as the tree that
/// `replay` prints of it.
pub fn raw_images_show_the_printed_tree()
    ensures { (input text bytes : List ℕ) (report other : Option RunReport) (replay : IsSessionReplay input report text) → IsImageReplay input other bytes →
        shown (whole_blocks bytes) ≡ Ok replay.printed.tree }
{}

/// A law, which does nothing when it is called: for a given input a command ends in exactly one way, or runs out of memory.
pub fn inputs_end_in_one_way()
    ensures { (c : InputTask) (input : List ℕ) (a b : Option TopFault) → Expects c input a → Expects c input b → a ≡ b }
{}

/// A law, which does nothing when it is called: of all lists of words those ask for something that stand in the table, and
/// for what stands there.
pub fn words_ask_by_the_table()
    ensures { (words : List (List ℕ)) (task : Task) → (task_of words ≡ Some task) ↔ AskFor words task }
{}
