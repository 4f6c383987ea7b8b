//! Tests of reading the program's words.

use program_core::{Words, WordsRefused, read_words};
use refusal_core::{Ended, Fault, holds, try_each};
use std::alloc::Global;

// Reads the words, and checks the result.
fn read(alloc: Global, words: &[&str], want: Result<Words, WordsRefused>) -> Result<(), Ended> {
    match read_words(alloc, words) {
        Err(WordsRefused::NoMemory) => Err(Ended::NoMemory),
        taken => holds(taken == want),
    }
}

#[test]
fn words_are_read_or_memory_is_refused(rt: HostRuntime) -> Result<(), Fault> {
    for (words, want) in [
        (&["dipq"][..], Ok(Words::Run(4))),
        (&["dipq", "--workers", "7"], Ok(Words::Run(7))),
        (&["dipq", "--help"], Ok(Words::Help)),
        (&["dipq", "--workers", "65"], Err(WordsRefused::Usage)),
        (&["dipq", "pay.csv"], Err(WordsRefused::Usage)),
    ] {
        try_each(&rt, |alloc| read(alloc, words, want))?;
    }
    Ok(())
}
