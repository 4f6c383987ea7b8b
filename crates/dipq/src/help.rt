//! The texts that describe the program.

/// Printed if the arguments are invalid.
pub const USAGE: &str = "usage: dipq [--workers N]";

/// The page that `--help` prints.
pub const HELP: &str = "\
dipq answers what held at a time, and what was said of it when.

usage: dipq [--workers N] < SCRIPT
       dipq --help

It reads a script of CSV records on standard input, and writes the answers to
its commands on standard output, as CSV records too. Each run begins with no
tables and keeps nothing: what is kept is the script.

  --workers N   how many threads work on a query's parts, 1 to 64; without
                it 4. The answers are the same by any number.
  --help        prints this page.

This script has three commands. It makes a table, loads two rows into it, and
asks which of them hold on 4 May 2024. A row holds from its first date on and
before its second:

    table,rooms,guest,text
    load,rooms
    row,2024-05-01,2024-05-04,\"Byron, Ada\"
    row,2024-05-03,2024-05-06,\"Hill, Grace\"
    end
    at,rooms,2024-05-04

The answers: two changes were made, numbered 1 and 2, and one row holds, that
with the id 2:

    ok,1
    ok,2
    row,2,2024-05-03,2024-05-06,\"Hill, Grace\"
    end,1

A command that is refused changes nothing, and is answered by a record such as
error,3,BadPoint: the number of the faulty record, and what is wrong with it.

The program ends with status
  0   where no command was refused,
  1   where some command was refused,
  2   where its words are wrong, as in dipq SCRIPT, which is to be
      dipq < SCRIPT, and in --workers 100, which is past 64,
  3   where the run stopped: reading or writing failed, the script has more
      than 67,108,864 bytes, or there was no memory. Standard error says which.

All commands, values and refusals are described in docs/LANGUAGE.md; examples/
has scripts with their answers.
";
