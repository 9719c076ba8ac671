//! The words of the command line: what they may be, and how many workers they ask for.

ghost use Rattle.std.specs.Prelude.{◌≤◌, ◌≡◌, ◌⊎◌, ℕ, Bool, map, IfOk, OnOk, IfErr};
ghost use Rattle.std.specs.String.{string_bytes};
ghost use Rattle.clap.specs.Words.{app_of, kind_of};
ghost use Rattle.clap.specs.declared.error.kind.ErrorKind.TheVariants.{OutOfMemory};
ghost use Rattle.paris_cli.specs.Words.{AreTaken, AskFor, AskForDesk, SaysNumber, command_line, refusal_line, refusal_status};
ghost use Rattle.paris_cli.specs.declared.words.WordsFault.TheVariants as WordsCase;
ghost use Rattle.paris_names.specs.declared.limits.TheConstants.{MAX_WORKERS};

use clap::error::ErrorKind;
use clap::{Arg, ArgAction, Command, value_parser};
use paris_names::limits::MAX_WORKERS;
use std::alloc::{AllocError, Global};
use thiserror::Error;

/// Why the words of a command line are refused.
#[derive(Debug, Drop, Error)]
pub enum WordsFault {
    /// They ask for nothing that the program does. The text says why, or is the help that they ask for.
    #[error("{0}")]
    Usage(String),
    /// They ask for nothing that the program does, and there is no memory left to say why.
    #[error("wrong words")]
    Untold,
    /// One of them is not in UTF-8.
    #[error("a word is not in UTF-8")]
    NotText,
    /// There is no memory left.
    #[error("no memory")]
    NoMemory,
}

impl WordsFault {
    /// What is said of the fault.
    pub fn line(&self) -> &[u8]
        ensures { result.now ≡ refusal_line self.now }
    {
        match self {
            WordsFault::Usage(text) => text.as_bytes(),
            WordsFault::Untold => b"wrong words\n",
            WordsFault::NotText => b"a word is not in UTF-8\n",
            WordsFault::NoMemory => b"no memory\n",
        }
    }

    /// The exit status for the fault.
    pub fn status(&self) -> u8
        ensures { result ≡ refusal_status self.now }
    {
        match self {
            WordsFault::Usage(_) | WordsFault::Untold | WordsFault::NotText => 2,
            WordsFault::NoMemory => 4,
        }
    }
}

/// The number of workers where no word gives one.
const WORKERS: u8 = 2;

/// The number that a word says in digits, and that of no word where it says none.
fn number_of(word: &str) -> u8
    ensures { (k : ℕ) → SaysNumber word.now k → k ≤ MAX_WORKERS → result ≡ k }
{
    match word.parse::<u8>() {
        Ok(number) => number,
        Err(_) => WORKERS,
    }
}

/// The command line.
fn command_line<'a>(alloc: Global) -> Result<Command<'a>, AllocError>
    ensures { IfOk result (λ command. app_of command ≡ command_line) }
{
    let workers = Arg::new(alloc, "workers")
        .long("workers")
        .value_name("N")
        .help("how many orders are executed at once")
        .value_parser(value_parser!(u8).range(1..=16))
        .default_value("2");
    let desk = Arg::new(alloc, "desk")
        .long("desk")
        .help("the script is in parts, whose sessions share a desk")
        .action(ArgAction::SetTrue);
    let command = Command::new(alloc, "paris_front")
        .no_binary_name(true)
        .arg(workers)?;
    command.arg(desk)
}

/// The number that `--workers` gives, and whether `--desk` is there.
fn parse(alloc: Global, words: &[String]) -> Result<(u8, bool), clap::Error>
    ensures number { IfOk result (λ asked. (k : ℕ) → AskFor (map string_bytes words.now) k → asked.0 ≡ k) }
    ensures desk { IfOk result (λ asked. (desk : Bool) → AskForDesk (map string_bytes words.now) desk → asked.1 ≡ desk) }
    ensures taken { OnOk result (AreTaken (map string_bytes words.now)) }
    ensures untaken { IfErr result (λ e. (kind_of e ≡ OutOfMemory) ⊎ (AreTaken (map string_bytes words.now) → ⊥)) }
{
    let command = command_line(alloc)?;
    let matches = command.try_get_matches_from(words)?;
    let workers = number_of(matches.get_str("workers").unwrap_or("2"));
    Ok((workers, matches.get_flag("desk")))
}

fn fault_of(alloc: Global, error: clap::Error) -> WordsFault
    ensures memory { kind_of error ≡ OutOfMemory → result ≡ WordsCase.NoMemory }
    ensures refusal { result ≡ WordsCase.NoMemory → kind_of error ≡ OutOfMemory }
    ensures in_text { result ≡ WordsCase.NotText → ⊥ }
{
    if error.kind() == ErrorKind::OutOfMemory {
        return WordsFault::NoMemory;
    }
    match format!(in alloc; "{error}") {
        Ok(text) => WordsFault::Usage(text),
        Err(_) => WordsFault::Untold,
    }
}

/// What words ask for.
#[derive(Clone, Copy, Debug, PartialEq, Eq)]
pub struct Wanted {
    /// How many workers there are, from 1 to 16.
    pub workers: usize,
    /// Whether the script is in parts, whose sessions share a desk.
    pub desk: bool,
}

/// What the words behind the program's name ask for: `--workers N`, a whole number from 1 to 16, or 2 workers where it is not there,
/// and `--desk`. All other words are refused.
pub fn read_words(alloc: Global, words: &[String]) -> Result<Wanted, WordsFault>
    ensures workers { IfOk result (λ wanted. (1 ≤ wanted.workers) × (wanted.workers ≤ MAX_WORKERS)) }
    ensures number { IfOk result (λ wanted. (k : ℕ) → AskFor (map string_bytes words.now) k → wanted.workers ≡ k) }
    ensures desk { IfOk result (λ wanted. (desk : Bool) → AskForDesk (map string_bytes words.now) desk → wanted.desk ≡ desk) }
    ensures taken { OnOk result (AreTaken (map string_bytes words.now)) }
    ensures untaken { IfErr result (λ fault. (fault ≡ WordsCase.NoMemory) ⊎ (AreTaken (map string_bytes words.now) → ⊥)) }
    ensures in_text { IfErr result (λ fault. fault ≡ WordsCase.NotText → ⊥) }
{
    match parse(alloc, words) {
        Ok((workers, desk)) => {
            let workers = usize::from(workers).clamp(1, MAX_WORKERS);
            Ok(Wanted { workers, desk })
        }
        Err(error) => Err(fault_of(alloc, error)),
    }
}
