//! The texts that describe the program.

/// Printed if the arguments are invalid.
pub const USAGE: &str = "usage: dipq-live [--workers N]";

/// The page that `--help` prints.
pub const HELP: &str = "\
dipq-live answers a script as dipq does, each command as soon as it is there.

usage: dipq-live [--workers N]
       dipq-live --help

It reads a script of CSV records on standard input, and writes the answer to a
command on standard output as soon as the command's last record has its line
end, or its block its end. So a program that keeps its input open, or a person
who types it, has a store that stays alive. It keeps nothing when it ends: what
is kept is the script.

  --workers N   how many threads work on a query's parts, 1 to 64; without
                it 4. The answers are the same by any number.
  --help        prints this page.

It prints what dipq prints of the same script, and ends with the same status:
  0   where no command was refused,
  1   where some command was refused,
  2   where its words are wrong,
  3   where the run stopped: reading or writing failed, a command and its block
      have more than 67,108,864 bytes, or there was no memory. Standard error
      says which. The answers before are written then.

All commands, values and refusals are described in docs/LANGUAGE.md; dipq --help
shows a script.
";
