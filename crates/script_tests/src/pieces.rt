//! Large scripts that workers read piece by piece or prefix by prefix. They have the same records as if one worker read
//! them at once, wherever the pieces end. Consuming records leaves the other records unchanged.

ghost use Rattle.std.specs.Prelude.{◌<◌, ◌^◌, length};
ghost use Rattle.program_core.specs.Words.{IsWorkers};

use command_core::{Line, Records, ScriptReader};
use rand::RngExt;
use rand_core::SeedableRng;
use rand_pcg::Pcg32;
use script_core::{Counted, run};
use std::alloc::Global;
use std::fmt::Write;
use std::process::Abort;
use std::sync::Wait;
use std::thread::Threads;

// The size of a script that is cut into three pieces, for three workers or more. In bytes.
const SIZE: usize = 3_145_728;

// Records with line ends between quotes, and other records with quotes.
const CLOSED: [&[u8]; 5] = [
    b"a,\"b\nc\"\n",
    b"\"a\n\"\n",
    b"a,\"b\r\n\"\r\n",
    b"a\"b\n",
    b"\"a\"b,\"\"\"\n\"\"\"\n",
];

// Open quotes, all kinds of line ends, empty lines and byte order marks, among other texts.
const ODD: [&[u8]; 9] = [
    b"a,\"b\nc\"\n",
    b"\"a\n\"\n",
    b"\"",
    b"\n\n",
    b"\r",
    b"\r\n",
    b",\n",
    b"\n\xEF\xBB\xBFa\n",
    b"\xEF\xBB\xBF",
];

// Returns a script of 130,000 rows. Before each row one of the texts is inserted, with a probability of at most `often`
// in 40,000.
fn script_of(
    rt: &(impl Abort + Alloc<A = Global>),
    rng: &mut Pcg32,
    often: u64,
    texts: &[&[u8]],
) -> Vec<u8> {
    let mut script = Vec::new(rt.alloc());
    for _ in 0..130_000 {
        if rng.random_range(0..40_000) < often {
            let place: usize = rng.random_range(0..9);
            if let Some(text) = texts.get(place) {
                script.extend_from_slice(text).expect(rt, "memory");
            }
        }
        script
            .extend_from_slice(b"row,2024-01-01,2024-01-02\n")
            .expect(rt, "memory");
    }
    script
}

fn is_same_line(one: Line<'_>, other: Line<'_>) -> bool {
    one.len() == other.len() && (0..one.len()).all(|place| one.get(place) == other.get(place))
}

fn are_same(one: &Records, other: &Records) -> bool {
    if one.len() != other.len() {
        return false;
    }
    for place in 0..one.len() {
        if !is_same_line(one.line(place), other.line(place)) {
            return false;
        }
    }
    true
}

// Reads the whole script.
fn read_records(
    rt: &(impl Abort + Alloc<A = Global> + Threads + Sync),
    script: &[u8],
    workers: u32,
) -> Records
    requires { length script.now < 2 ^ 31 }
{
    ScriptReader::new(rt.alloc())
        .read_rest(rt, script, workers)
        .expect(rt, "memory")
}

// Checks that more workers read the same records as one worker.
fn check(rt: &(impl Abort + Alloc<A = Global> + Threads + Sync), script: &[u8]) {
    let Some(front) = script.get(..SIZE) else {
        panic!(rt; "the script has so many bytes")
    };
    let one = read_records(rt, front, 1);
    for workers in [2, 3, 64] {
        let more = read_records(rt, front, workers);
        assert!(rt; are_same(&one, &more), "by {workers} workers");
    }
}

#[test]
fn pieces_have_the_records_of_the_whole(rt: HostRuntime) {
    let mut rng = Pcg32::seed_from_u64(3);
    for often in [20_000, 2_000, 200, 1] {
        let script = script_of(&rt, &mut rng, often, &CLOSED);
        check(&rt, &script);
        let script = script_of(&rt, &mut rng, often, &ODD);
        check(&rt, &script);
    }
}

// One field extends over the ends of all pieces.
#[test]
fn a_field_may_have_the_whole_script(rt: HostRuntime) {
    let mut script = Vec::from_slice(rt.alloc(), b"\"").expect(&rt, "memory");
    for _ in 0..200_000 {
        script
            .extend_from_slice(b"row,2024-01-01\r\n")
            .expect(&rt, "memory");
    }
    check(&rt, &script);
}

// The size of a script whose records take several batches, even for one worker: about 605,000 rows. In bytes.
const BYTES: usize = 13_200_000;

// Returns a script of rows that differ from each other.
fn numbered_rows(rt: &(impl Abort + Alloc<A = Global>)) -> String {
    let mut script = String::new(rt.alloc());
    for row in 0..620_000 {
        write!(script, "row,2024-01-01,{row}\n").expect(rt, "memory");
    }
    script
}

// Checks the first and the last of the records that weren't consumed.
fn check_rest(rt: &impl Abort, whole: &Records, rest: &Records) {
    let (count, all) = (rest.len(), whole.len());
    assert!(rt; 0 < count && count <= all, "some are left");
    assert!(rt;
        is_same_line(rest.line(0), whole.line(all - count)),
        "the first of {count}"
    );
    assert!(rt;
        is_same_line(rest.line(count - 1), whole.line(all - 1)),
        "the last of {count}"
    );
}

// Consumes records, a few and many at a time.
fn check_passing(rt: &impl Abort, whole: &Records, mut rest: Records) {
    for count in [0, 1, 99_999, 3, 250_000, 0, 249_996] {
        let before = rest.len();
        assert!(rt; count < before, "there are more");
        rest.advance(count);
        assert!(rt; rest.len() == before - count, "{count} are passed");
        check_rest(rt, whole, &rest);
    }
    let last = rest.len();
    rest.advance(last);
    assert!(rt; rest.len() == 0, "all are passed");
}

#[test]
fn records_that_are_not_passed_stay(rt: HostRuntime) {
    let script = numbered_rows(&rt);
    let Some(front) = script.as_bytes().get(..BYTES) else {
        panic!(&rt; "the script has so many bytes")
    };
    let whole = read_records(&rt, front, 1);
    for workers in [1, 3] {
        let rest = read_records(&rt, front, workers);
        check_passing(&rt, &whole, rest);
    }
}

// Returns a script of records that aren't commands, with texts among them. One worker reads its 10,000,000 bytes as
// three prefixes or more, two workers read two, and 64 workers read all at once.
fn long_script(rt: &(impl Abort + Alloc<A = Global>), often: u64, texts: &[&[u8]]) -> Vec<u8> {
    let mut rng = Pcg32::seed_from_u64(often);
    let mut script = Vec::new(rt.alloc());
    for _ in 0..3 {
        let more = script_of(rt, &mut rng, often, texts);
        script.extend_from_slice(&more).expect(rt, "memory");
    }
    script
}

// Returns the answers to the script with this number of workers.
fn answers(
    rt: &(impl Abort + Alloc<A = Global> + Threads + Wait + Sync),
    script: &[u8],
    workers: u32,
) -> Vec<u8>
    requires { IsWorkers workers }
{
    let mut reader = Counted::new(script);
    let mut writer = Counted::new(Vec::new(rt.alloc()));
    run(rt, rt.alloc(), &mut reader, &mut writer, workers).expect(rt, "memory");
    writer.into_inner()
}

#[test]
fn fronts_have_the_records_of_the_whole(rt: HostRuntime) {
    for texts in [CLOSED.as_slice(), ODD.as_slice()] {
        let script = long_script(&rt, 20, texts);
        let whole = answers(&rt, &script, 64);
        for workers in [1, 2] {
            assert!(&rt;
                whole == answers(&rt, &script, workers),
                "by {workers} workers"
            );
        }
    }
}
