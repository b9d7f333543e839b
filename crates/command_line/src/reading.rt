ghost use Rattle.std.specs.Prelude.{◌≡◌, ◌≢◌, [], Some, false, IfOk, MatchOption, map, string_bytes};
ghost use Rattle.clap.specs.Words.{app_of, fault_of, rule_of, subcommand_of, subcommand_rows_of};
ghost use Rattle.command_line.specs.Sheets.{option, sheets};

use cell_value::NoMemory;
use clap::error::ErrorKind;
use clap::{Arg, ArgMatches, Command};
use std::alloc::{AllocError, Global};

/// What the words are by the program's commands and their options; None where they aren't such words.
///
/// # Errors
///
/// [`NoMemory`] where memory runs out.
pub fn read<'a>(alloc: Global, words: &'a [String]) -> Result<Option<ArgMatches<'a>>, NoMemory>
    ensures { IfOk result (λ read. MatchOption read
        (fault_of sheets (map string_bytes words.now) ≢ [])
        (λ matches. (fault_of sheets (map string_bytes words.now) ≡ [])
        × (subcommand_rows_of matches ≡ subcommand_of sheets (map string_bytes words.now)))) }
{
    match program(alloc)?.try_get_matches_from(words) {
        Ok(matches) => Ok(Some(matches)),
        Err(error) => {
            if error.kind() == ErrorKind::OutOfMemory {
                return Err(NoMemory);
            }
            Ok(None)
        }
    }
}

/// The program's commands, each with what it takes.
fn program<'a>(alloc: Global) -> Result<Command<'a>, AllocError>
    ensures { IfOk result (λ program. app_of program ≡ sheets) }
{
    let run = Command::new(alloc, "run").arg(valued(alloc, "users"))?;
    let serve = Command::new(alloc, "serve")
        .arg(valued(alloc, "port"))?
        .arg(valued(alloc, "limit"))?
        .arg(valued(alloc, "users"))?
        .arg(valued(alloc, "journal"))?;
    let replay = Command::new(alloc, "replay").arg(valued(alloc, "journal"))?;
    let workload = Command::new(alloc, "workload").arg(Arg::new(alloc, "calls"))?;
    Command::new(alloc, "sheets")
        .no_binary_name(true)
        .disable_help_flag(true)
        .disable_help_subcommand(true)
        .subcommand(run)?
        .subcommand(serve)?
        .subcommand(replay)?
        .subcommand(workload)
}

/// The option of that name, with one value.
fn valued<'a>(alloc: Global, name: &'a str) -> Arg<'a>
    ensures told { rule_of result ≡ option name.entry.now }
    ensures local { result.global ≡ false }
{
    Arg::new(alloc, name).long(name)
}
