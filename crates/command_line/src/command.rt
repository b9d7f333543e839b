ghost use Rattle.std.specs.Prelude.{◌≡◌, ◌↔◌, List, [], ◌∷◌, ℕ, None, Some, IfOk, codes, map, option_map};
ghost use Rattle.std.specs.Prelude.{string_bytes};
ghost use Rattle.clap.specs.Words.{found_of};
ghost use Rattle.command_line.specs.Words.{HasCalls, HasValues, IsOf, Meaning, ReadsAs, ReadsAsNone, meaning};

use crate::number::read_number;
use crate::reading::read;
use crate::word::are_plain;
use cell_value::NoMemory;
use clap::ArgMatches;
use std::alloc::Global;

/// The last port that there is (RFC 6335, section 6).
const MOST_PORT: u32 = 65_535;

/// The most connections that a server is started for.
const MOST_CONNECTIONS: u32 = 1_000_000;

/// The most calls of a workload.
const MOST_CALLS: u32 = 100_000;

/// A command of the program.
#[derive(Clone, Copy, Debug, PartialEq, Eq)]
pub enum Command<'a> {
    /// One conversation over input and output.
    Run {
        /// The file of the users.
        users: Option<&'a str>,
    },
    /// The server on a port of 127.0.0.1.
    Serve {
        /// The port, from 1.
        port: u16,
        /// How many connections it serves, from 1 to 1,000,000.
        limit: u32,
        /// The file of the users.
        users: Option<&'a str>,
        /// The file of the journal.
        journal: Option<&'a str>,
    },
    /// The state that a journal leads to.
    Replay {
        /// The file of the journal.
        journal: &'a str,
    },
    /// A run of made calls.
    Workload {
        /// How many calls it makes, from 1 to 100,000.
        calls: u32,
    },
}

/// The command that the words behind the program's name are; None where they are no command.
///
/// # Errors
///
/// [`NoMemory`] where memory runs out.
pub fn command_of(alloc: Global, words: &[String]) -> Result<Option<Command<'_>>, NoMemory>
    ensures reads { IfOk result (λ found. (command : Meaning) → (option_map meaning found ≡ Some command)
        ↔ ReadsAs command (map string_bytes words.now)) }
    ensures none { IfOk result (λ found. (found ≡ None) ↔ ReadsAsNone (map string_bytes words.now)) }
{
    if !are_plain(words) {
        return Ok(None);
    }
    let Some(matches) = read(alloc, words)? else {
        return Ok(None);
    };
    let Some((name, given)) = matches.subcommand() else {
        return Ok(None);
    };
    Ok(match name {
        "run" => Some(run(given)),
        "serve" => serve(given),
        "replay" => replay(given),
        "workload" => workload(given),
        _ => None,
    })
}

/// The command `run` with these options.
fn run<'a>(given: &ArgMatches<'a>) -> Command<'a>
    ensures { (words : List (List ℕ)) → HasValues (codes "users" ∷ []) words (found_of given.now)
        → (command : Meaning) → (meaning result ≡ command) ↔ IsOf (codes "run") command words }
{
    Command::Run {
        users: given.get_str("users"),
    }
}

/// The command `serve` with these options.
fn serve<'a>(given: &ArgMatches<'a>) -> Option<Command<'a>>
    ensures { (words : List (List ℕ))
        → HasValues (codes "port" ∷ codes "limit" ∷ codes "users" ∷ codes "journal" ∷ []) words (found_of given.now)
        → (command : Meaning) → (option_map meaning result ≡ Some command) ↔ IsOf (codes "serve") command words }
{
    let port = read_number(given.get_str("port")?, MOST_PORT)?;
    let limit = read_number(given.get_str("limit")?, MOST_CONNECTIONS)?;
    Some(Command::Serve {
        port: port as u16,
        limit,
        users: given.get_str("users"),
        journal: given.get_str("journal"),
    })
}

/// The command `replay` with these options.
fn replay<'a>(given: &ArgMatches<'a>) -> Option<Command<'a>>
    ensures { (words : List (List ℕ)) → HasValues (codes "journal" ∷ []) words (found_of given.now)
        → (command : Meaning) → (option_map meaning result ≡ Some command) ↔ IsOf (codes "replay") command words }
{
    let journal = given.get_str("journal")?;
    Some(Command::Replay { journal })
}

/// The command `workload` with its number of calls.
fn workload<'a>(given: &ArgMatches<'a>) -> Option<Command<'a>>
    ensures { (words : List (List ℕ)) → HasCalls words (found_of given.now)
        → (command : Meaning) → (option_map meaning result ≡ Some command) ↔ IsOf (codes "workload") command words }
{
    let calls = read_number(given.get_str("calls")?, MOST_CALLS)?;
    Some(Command::Workload { calls })
}
