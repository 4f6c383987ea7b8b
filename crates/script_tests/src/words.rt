//! Tests of reading the program's words.

use program_core::{Words, WordsRefused, read_words};
use std::alloc::Global;
use std::process::Abort;

fn check(rt: &(impl Abort + Alloc<A = Global>), words: &[&str], want: Result<Words, WordsRefused>) {
    assert_eq!(rt; read_words(rt.alloc(), words), want);
}

#[test]
fn reads_words(rt: HostRuntime) {
    check(&rt, &["dipq"], Ok(Words::Run(4)));
    check(&rt, &["dipq", "--workers", "1"], Ok(Words::Run(1)));
    check(&rt, &["dipq", "--workers", "7"], Ok(Words::Run(7)));
    check(&rt, &["dipq", "--workers", "64"], Ok(Words::Run(64)));
    check(&rt, &["dipq", "--workers=7"], Ok(Words::Run(7)));
    check(&rt, &["dipq", "--workers", "+7"], Ok(Words::Run(7)));
    check(&rt, &["dipq", "--workers", "007"], Ok(Words::Run(7)));
    check(&rt, &["dipq", "--"], Ok(Words::Run(4)));
    check(&rt, &["dipq", "--help"], Ok(Words::Help));
    check(&rt, &["dipq", "-h"], Ok(Words::Help));
    check(&rt, &["dipq", "--workers", "65", "--help"], Ok(Words::Help));
}

#[test]
fn refuses_words(rt: HostRuntime) {
    let usage = Err(WordsRefused::Usage);
    check(&rt, &["dipq", "--workers", "0"], usage);
    check(&rt, &["dipq", "--workers", "65"], usage);
    check(&rt, &["dipq", "--workers", "x"], usage);
    check(&rt, &["dipq", "--workers", "-1"], usage);
    check(&rt, &["dipq", "--workers", ""], usage);
    check(&rt, &["dipq", "--workers"], usage);
    check(&rt, &["dipq", "--workers="], usage);
    check(&rt, &["dipq", "--workers", "1", "--workers", "1"], usage);
    check(&rt, &["dipq", "--worker", "1"], usage);
    check(&rt, &["dipq", "pay.csv"], usage);
    check(&rt, &["dipq", "pay.csv", "--help"], usage);
}
