//! What `clap` makes of words, for readers.
ghost use Rattle.std.specs.Prelude.{◌≡◌, ℕ, List, false};
ghost use Rattle.std.specs.List.{list_any};
ghost use Rattle.clap.specs.Words.{fault_of, subcommand_of};
ghost use Rattle.clap_words.specs.App.{barrierfs};
ghost use Rattle.clap_words.specs.Reads.{given};
ghost use Rattle.clap_words.specs.Table.{asked_by, is_lone_dash};

/// Of lists without a word `--`, `clap` takes those of the table and no others.
pub fn clap_takes_the_table()
    ensures { (words : List (List ℕ)) → list_any is_lone_dash words ≡ false
        → given (fault_of barrierfs words) (subcommand_of barrierfs words) ≡ asked_by words }
{}
