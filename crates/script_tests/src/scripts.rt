//! Tests of the numbers of commands and refusals that a run reports.

use script_core::{Counted, Outcome, run};
use std::alloc::Global;
use std::process::Abort;
use std::sync::Wait;
use std::test::Fail;
use std::thread::Threads;

// A load between queries, in a block of commands.
const BLOCK: &[u8] = b"table,t\nload,t\nrow,2024-01-01,2024-01-05\nend\n\
    together\nload,t\nrow,2024-01-02,2024-01-06\nend\nrows,t\njoin,t,t\nrows,t,asof,3\nend\nrows,t\n";

const BLOCK_ANSWERS: &[u8] = b"ok,1\nok,2\n\
    together,2\nok,3\nrow,1,2024-01-01,2024-01-05\nend,1\nrow,2024-01-01,2024-01-05,1,1\nend,1\nerror,11,Future\n\
    row,1,2024-01-01,2024-01-05\nrow,2,2024-01-02,2024-01-06\nend,2\n";

// A script, its answers, and the numbers of commands and refusals.
struct Case {
    script: &'static [u8],
    answers: &'static [u8],
    commands: u64,
    errors: u64,
}

fn check(
    rt: &(impl Abort + Alloc<A = Global> + Threads + Wait + Sync),
    case: &Case,
) -> Result<(), Fail> {
    let mut reader = Counted::new(case.script);
    let mut writer = Counted::new(Vec::new(rt.alloc()));
    let outcome = run(rt, rt.alloc(), &mut reader, &mut writer, 4)?;
    let want = Outcome {
        commands: case.commands,
        errors: case.errors,
    };
    assert_eq!(rt; writer.into_inner().as_slice(), case.answers);
    assert_eq!(rt; outcome, want);
    Ok(())
}

#[test]
fn counts_commands_and_refusals(rt: HostRuntime) -> Result<(), Fail> {
    check(
        &rt,
        &Case {
            script: b"",
            answers: b"",
            commands: 0,
            errors: 0,
        },
    )?;
    check(
        &rt,
        &Case {
            script: b"\
                end\nselect,t\n\xff\ntable\ntable,t,u\ntable,asof\ntable,1a\ntable,t\ntable,t\n\
                dip,u\ndip\ndip,t,u\n",
            answers: b"\
                error,1,BadCommand\nerror,2,BadCommand\nerror,3,BadCommand\nerror,4,BadCommand\n\
                error,5,BadCommand\nerror,6,BadName\nerror,7,BadName\nok,1\n\
                error,9,TableExists\nerror,10,NoTable\nerror,11,BadCommand\n\
                error,12,BadCommand\n",
            commands: 12,
            errors: 11,
        },
    )?;
    check(
        &rt,
        &Case {
            script: b"\
                table,t\nload,t\nrow,2024-01-01\nend\nload,t\nrow,2023-02-29,2024-01-01\nend\n\
                load,t\nrow,2024-01-01,2024-1-02\nend\nload,t\nrow,2024-01-01,2024-01-02\n\
                row,2024-01-03,2024-01-03\nend\nload,t\npart,1\nend\nload,u\nrow\nend\n\
                load,t,x\nend\nload,t\nend\ndip,t\nload,t\nrow,2024-01-01,2024-01-02\n",
            answers: b"\
                ok,1\nerror,3,WrongWidth\nerror,6,BadPoint\nerror,9,BadPoint\n\
                error,13,BadPeriod\nerror,16,BadCommand\nerror,18,NoTable\nerror,21,BadCommand\n\
                ok,2\ndip,0,0,-\nerror,26,Unended\n",
            commands: 11,
            errors: 8,
        },
    )
}

// A block counts once, and each of its commands once. A block that isn't executed counts as one command.
#[test]
fn counts_blocks_and_their_commands(rt: HostRuntime) -> Result<(), Fail> {
    check(
        &rt,
        &Case {
            script: BLOCK,
            answers: BLOCK_ANSWERS,
            commands: 8,
            errors: 1,
        },
    )?;
    check(
        &rt,
        &Case {
            script: b"together,x\nrows,t\nend\ntogether\nend\n\
                together\nlog\nload,t\nend\nload,t\nrow\nend\nend\ntogether\nrows,t\nrows,t\n",
            answers: b"error,1,BadCommand\ntogether,0\n\
                together,0\nerror,7,NotInBlock\nerror,8,NoTable\nerror,10,NotInBlock\nerror,14,Unended\n",
            commands: 7,
            errors: 5,
        },
    )
}

#[test]
fn a_block_may_be_cut_at_each_byte(rt: HostRuntime) -> Result<(), Fail> {
    for len in 0..=BLOCK.len() {
        let Some(front) = BLOCK.get(..len) else {
            panic!(rt; "the script has so many bytes")
        };
        let mut reader = Counted::new(front);
        let mut writer = Counted::new(Vec::new(rt.alloc()));
        let outcome = run(&rt, rt.alloc(), &mut reader, &mut writer, 4)?;
        assert!(rt; outcome.errors <= outcome.commands);
    }
    Ok(())
}
