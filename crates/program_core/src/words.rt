//! What the words of the command line ask for.
ghost use Rattle.std.specs.Prelude.{◌≡◌, ℕ, List, [], ◌∷◌, map, codes, IfOk, Ok, Err};
ghost use Rattle.std.specs.Fmt.{decimal};
ghost use Rattle.clap.specs.Words.{app_of};
ghost use Rattle.program_core.specs.Words.{AsksFor, IsAnswerOfWords, IsNamedBy, IsPlainWord, IsRunnable, IsWorkers};
ghost use Rattle.program_core.specs.Words.{NamesWorkers, default_workers, program_app};

use crate::WordsRefused;
use clap::error::ErrorKind;
use clap::{Arg, Command};
use std::alloc::{AllocError, Global};
use work_core::WORKER_LIMIT;

/// The number of workers if no word gives one, as text.
const DEFAULT_WORKERS: &str = "4";

/// What the words of the command line ask for.
#[derive(Clone, Copy, Debug, PartialEq, Eq)]
pub enum Words {
    /// A run of the script on standard input, with this number of workers, 1 to 64.
    Run(u32),
    /// The help page.
    Help,
}

/// Returns the program's command line: `--workers` with a value, and `--help`, which `clap` adds.
fn command<'a>(alloc: Global) -> Result<Command<'a>, AllocError>
    ensures { IfOk result (λ command. app_of command ≡ program_app) }
{
    let workers = Arg::new(alloc, "workers")
        .long("workers")
        .default_value(DEFAULT_WORKERS);
    Command::new(alloc, "dipq").arg(workers)
}

/// Returns a run with the number of workers that the text names, or `Usage`.
fn run_with(text: &str) -> Result<Words, WordsRefused>
    ensures bounded { IfOk result IsRunnable }
    ensures named { (n : ℕ) → NamesWorkers text.now n → result ≡ Ok (Words.Run n) }
    ensures only { IfOk result (IsNamedBy text.now) }
    ensures unnamed { ((n : ℕ) → NamesWorkers text.now n → ⊥) → result ≡ Err WordsRefused.Usage }
{
    match text.parse::<u32>() {
        Ok(n) if n >= 1 && n <= WORKER_LIMIT => Ok(Words::Run(n)),
        _ => Err(WordsRefused::Usage),
    }
}

/// Returns the result if `clap` has no matches. A request for help is one of these cases.
fn unmatched(kind: ErrorKind) -> Result<Words, WordsRefused>
    ensures bounded { IfOk result IsRunnable }
    ensures only { IfOk result (λ words. (words ≡ Words.Help) × (kind ≡ ErrorKind.DisplayHelp)) }
    ensures help { kind ≡ ErrorKind.DisplayHelp → result ≡ Ok Words.Help }
    ensures memory { kind ≡ ErrorKind.OutOfMemory → result ≡ Err WordsRefused.NoMemory }
    ensures unknown { kind ≡ ErrorKind.UnknownArgument → result ≡ Err WordsRefused.Usage }
{
    match kind {
        ErrorKind::DisplayHelp => Ok(Words::Help),
        ErrorKind::OutOfMemory => Err(WordsRefused::NoMemory),
        _ => Err(WordsRefused::Usage),
    }
}

/// Reads the program's words, beginning with its name.
///
/// # Errors
///
/// `Usage` if the program doesn't accept them, `NoMemory` if an allocation fails.
pub fn read_words(alloc: Global, words: &[&str]) -> Result<Words, WordsRefused>
    ensures bounded { IfOk result IsRunnable }
    ensures asked { IfOk result (AsksFor (map (λ word. word.now) words.entry.now)) }
    ensures granted { (n : ℕ) → AsksFor (map (λ word. word.now) words.entry.now) (Words.Run n)
        → IsAnswerOfWords (Ok (Words.Run n)) result }
    ensures alone { (name : List ℕ) → map (λ word. word.now) words.entry.now ≡ name ∷ []
        → IsAnswerOfWords (Ok (Words.Run default_workers)) result }
    ensures workers { (name : List ℕ) (n : ℕ) → IsWorkers n
        → map (λ word. word.now) words.entry.now ≡ name ∷ codes "--workers" ∷ decimal n ∷ []
        → IsAnswerOfWords (Ok (Words.Run n)) result }
    ensures wrong_number { (name text : List ℕ) → IsPlainWord text
        → ((n : ℕ) → NamesWorkers text n → ⊥)
        → map (λ word. word.now) words.entry.now ≡ name ∷ codes "--workers" ∷ text ∷ []
        → IsAnswerOfWords (Err WordsRefused.Usage) result }
    ensures stray { (name word : List ℕ) → IsPlainWord word
        → map (λ word. word.now) words.entry.now ≡ name ∷ word ∷ []
        → IsAnswerOfWords (Err WordsRefused.Usage) result }
    ensures help { (name : List ℕ) → map (λ word. word.now) words.entry.now ≡ name ∷ codes "--help"
        ∷ []
        → IsAnswerOfWords (Ok Words.Help) result }
{
    let command = command(alloc)?;
    let matches = match command.try_get_matches_from(words) {
        Ok(matches) => matches,
        Err(error) => return unmatched(error.kind()),
    };
    match matches.get_str("workers") {
        Some(text) => run_with(text),
        None => Err(WordsRefused::Usage),
    }
}
