//! What the words ask for.
ghost use Rattle.std.specs.Prelude.{◌≡◌, ◌≢◌, IfOk, false, map, Some, None, option_map};
ghost use Rattle.std.specs.List.{list_any};
ghost use Rattle.clap.specs.Words.{first_value, found_of, kind_of, subcommand_rows_of};
ghost use Rattle.clap_words.specs.Table.{asked_by, is_lone_dash, said_of};
ghost use Rattle.clap_words.specs.Reads.{bulk_in, has_raw, make_in, number_in, read_by, read_in};

use crate::command::barrierfs;
use crate::numerals::is_numeral;
use clap::error::ErrorKind;
use clap::{ArgMatches, Error};
use std::alloc::{AllocError, Global};
use std::convert::AsStr;

/// A command and what stands behind its word. Numbers are kept as they are spelled.
#[derive(Clone, Copy, PartialEq, Eq, Debug)]
pub enum Asked<'a> {
    Replay {
        raw: bool,
    },
    Run {
        raw: bool,
    },
    Show,
    Widen {
        raw: bool,
    },
    Check,
    Kv,
    /// The sizes of an image.
    Make {
        inodes: &'a str,
        zones: &'a str,
        journal: &'a str,
    },
    /// The number of a workload.
    Bulk {
        number: &'a str,
    },
}

/// What the words ask for, where they are those of the table.
pub fn read_words<'a, S: AsStr>(
    alloc: Global,
    words: &'a [S],
) -> Result<Option<Asked<'a>>, AllocError>
    ensures { IfOk result (λ r. option_map said_of r ≡ asked_by (map S.text words.entry.now)) }
{
    if has_lone_dash(words) {
        return Ok(None);
    }
    let command = barrierfs(alloc)?;
    match command.try_get_matches_from(words) {
        Ok(matches) => Ok(read(&matches)),
        Err(error) => {
            if is_out_of_memory(&error) {
                return Err(AllocError);
            }
            Ok(None)
        }
    }
}

fn is_out_of_memory(error: &Error) -> bool
    ensures { result ≡ false → kind_of error.now ≢ ErrorKind.OutOfMemory }
{
    matches!(error.kind(), ErrorKind::OutOfMemory)
}

// `--` stands among the words.
fn has_lone_dash<S: AsStr>(words: &[S]) -> bool
    ensures { result ≡ list_any (λ w. is_lone_dash (S.text w)) words.now }
{
    words.iter().any(|word| word.as_str() == "--")
}

fn read<'a>(matches: &ArgMatches<'a>) -> Option<Asked<'a>>
    ensures { option_map said_of result ≡ read_in (subcommand_rows_of matches.now) }
{
    let (name, given) = matches.subcommand()?;
    read_command(name, given)
}

fn read_command<'a>(name: &str, given: &ArgMatches<'a>) -> Option<Asked<'a>>
    ensures { option_map said_of result ≡ read_by name.now (first_value (found_of given.now)) }
{
    match name {
        "replay" => Some(Asked::Replay {
            raw: has_raw(given),
        }),
        "run" => Some(Asked::Run {
            raw: has_raw(given),
        }),
        "show" => Some(Asked::Show),
        "widen" => Some(Asked::Widen {
            raw: has_raw(given),
        }),
        "check" => Some(Asked::Check),
        "kv" => Some(Asked::Kv),
        "make" => make_in(given),
        "bulk" => bulk_in(given),
        _ => None,
    }
}

fn has_raw(given: &ArgMatches<'_>) -> bool
    ensures { result ≡ has_raw (first_value (found_of given.now)) }
{
    match given.get_str("raw") {
        Some(text) => text == "true",
        None => false,
    }
}

fn make_in<'a>(given: &ArgMatches<'a>) -> Option<Asked<'a>>
    ensures { option_map said_of result ≡ make_in (first_value (found_of given.now)) }
{
    let inodes = number_in(given, "I")?;
    let zones = number_in(given, "Z")?;
    let journal = number_in(given, "J")?;
    Some(Asked::Make {
        inodes,
        zones,
        journal,
    })
}

fn bulk_in<'a>(given: &ArgMatches<'a>) -> Option<Asked<'a>>
    ensures { option_map said_of result ≡ bulk_in (first_value (found_of given.now)) }
{
    let number = number_in(given, "N")?;
    Some(Asked::Bulk { number })
}

// The argument of this name, where it is a decimal number.
fn number_in<'a>(given: &ArgMatches<'a>, name: &str) -> Option<&'a str>
    ensures { option_map (λ s. s.now) result ≡ number_in name.now (first_value (found_of given.now)) }
{
    let number = given.get_str(name)?;
    if is_numeral(number.as_bytes()) {
        Some(number)
    } else {
        None
    }
}
