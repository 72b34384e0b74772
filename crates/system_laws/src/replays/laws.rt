//! The law. It only calls laws.
ghost use Rattle.std.specs.Prelude.{ℕ, List, Option, None};
ghost use Rattle.barrierfs_top.specs.declared.command_line.InputTask.{InputTask};
ghost use Rattle.barrierfs_top.specs.declared.run_report.RunReport.{RunReport};
ghost use Rattle.barrierfs_top.specs.Sessions.{IsImageReplay};
ghost use Rattle.barrierfs_top.specs.Top.{Ends};

use crate::sessions::sessions_leave_clean_volumes;
use session_grammar::sessions_are_read_back;

/// A law, which only calls laws: `check` of the image that `replay --raw` writes of a script ends without a fault, so it
/// prints `clean`.
pub fn raw_images_are_clean()
    ensures { (input bytes : List ℕ) (report : Option RunReport) → IsImageReplay input report bytes → Ends InputTask.Check bytes None }
{
    sessions_leave_clean_volumes();
    sessions_are_read_back();
}
