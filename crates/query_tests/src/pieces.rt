//! Collects the pieces of a query's job: in any order, twice, and from another job.

ghost use Rattle.std.specs.Prelude.{◌≡◌};
ghost use Rattle.round_core.specs.Together.{all_weight};

use crate::tables::{item, january, steps_of};
use dip_core::{Division, Item, create_dip};
use merge_core::{Gap, Gaps, Hit, Step, Steps, Tally};
use query_core::{GapPairs, JoinOut, JoinPairs, TallyRound};
use std::alloc::Global;
use std::process::Abort;
use std::thread::Threads;
use work_core::{Collector, Outs, PairName, PairWork, Piece, Why};

// Returns the piece of one of the job's pairs.
fn piece<'j, W: PairWork>(
    rt: &(impl Abort + Alloc<A = Global>),
    job: &'j W,
    (left, right): (u32, u32),
) -> Piece<'j, W> {
    let name = PairName { left, right };
    assert!(rt; job.place(name).is_some());
    Piece::make(rt.alloc(), job, name).expect(rt, "memory")
}

// Checks that the collector accepts the job's pieces of these pairs.
fn take<'j, W: PairWork>(
    rt: &(impl Abort + Alloc<A = Global>),
    collector: &mut Collector<'j, W>,
    job: &'j W,
    pairs: &[(u32, u32)],
) {
    for pair in pairs {
        assert!(rt; collector.accept(piece(rt, job, *pair)).is_ok());
    }
}

// Checks that the collector refuses a job's piece for this reason, and returns the piece with its name.
fn refuse<'j, W: PairWork>(
    rt: &(impl Abort + Alloc<A = Global>),
    collector: &mut Collector<'j, W>,
    job: &'j W,
    (left, right): (u32, u32),
    why: Why,
) {
    let Err(refused) = collector.accept(piece(rt, job, (left, right))) else {
        panic!(rt; "the piece is accepted")
    };
    assert!(rt; refused.why == why);
    assert!(rt; refused.piece.name() == PairName { left, right });
}

// Checks that finishing fails because a pair is missing, which is named. Returns the collector.
fn lack<'j, W: PairWork>(
    rt: &impl Abort,
    collector: Collector<'j, W>,
    (left, right): (u32, u32),
) -> Collector<'j, W> {
    let Err(unfinished) = collector.finish() else {
        panic!(rt; "a pair is missing")
    };
    assert!(rt; unfinished.first == PairName { left, right });
    unfinished.collector
}

// Collects the pieces of a job in this order, then a last one. Each is accepted once. A piece of another job counts as
// the same if its inputs are equal. They are for the pair `equal`, and differ for the pair `last`.
fn collect<'j, W: PairWork>(
    rt: &(impl Abort + Alloc<A = Global>),
    job: &'j W,
    changed: &'j W,
    order: &[(u32, u32)],
    equal: (u32, u32),
    last: (u32, u32),
) -> Outs<W::Out> {
    let mut collector = Collector::new(rt.alloc(), job).expect(rt, "memory");
    take(rt, &mut collector, job, order);
    let mut collector = lack(rt, collector, last);
    for pair in order {
        refuse(rt, &mut collector, job, *pair, Why::Double);
    }
    refuse(rt, &mut collector, changed, equal, Why::Double);
    refuse(rt, &mut collector, changed, last, Why::Stranger);
    take(rt, &mut collector, job, &[last]);
    let Ok(outs) = collector.finish() else {
        panic!(rt; "all pieces are there")
    };
    outs
}

// Two items that overlap, with different classes.
fn lefts(rt: &impl Abort) -> [Item; 2] {
    [item(rt, 1, 1, 10, 1), item(rt, 2, 5, 8, 2)]
}

// Three items. The third overlaps the second and has this class.
fn rights(rt: &impl Abort, class: u64) -> [Item; 3] {
    [
        item(rt, 1, 3, 6, 1),
        item(rt, 2, 6, 20, 1),
        item(rt, 3, 7, 8, class),
    ]
}

// Divides the items, which need two parts.
fn divide(rt: &(impl Abort + Alloc<A = Global> + Threads + Sync), items: &[Item]) -> Division {
    assert!(rt; items.len() <= 1_000_000);
    let items = Vec::from_slice(rt.alloc(), items).expect(rt, "memory");
    let division = create_dip(rt, rt.alloc(), items, 4).expect(rt, "memory");
    assert!(rt; division.parts() == 2);
    division
}

// The two parts of each side. In `changed` the class of one right item differs, but not in the first right part.
#[derive(Drop)]
struct Divided {
    left: Division,
    right: Division,
    changed: Division,
}

fn divide_all(rt: &(impl Abort + Alloc<A = Global> + Threads + Sync)) -> Divided {
    Divided {
        left: divide(rt, &lefts(rt)),
        right: divide(rt, &rights(rt, 2)),
        changed: divide(rt, &rights(rt, 1)),
    }
}

// The order that the pieces of two times two parts are collected in, without the last one.
const ORDER: &[(u32, u32)] = &[(1, 1), (0, 0), (1, 0)];

// Checks the hits of one pair of parts.
fn check_hits(rt: &impl Abort, outs: &Outs<JoinOut>, number: usize, want: &[Hit]) {
    let out = outs.get(number).expect(rt, "a value");
    assert!(rt; out.hits.as_slice() == want);
}

// Checks the values of four pairs: hits of row 1 with two rows, none, none, and a hit of row 2 with row 3.
fn check_values(rt: &impl Abort, outs: &Outs<JoinOut>) {
    let lefts = lefts(rt);
    let rights = rights(rt, 2);
    let first = [
        Hit {
            left: lefts[0],
            right: rights[0],
            period: january(rt, 3, 6),
        },
        Hit {
            left: lefts[0],
            right: rights[1],
            period: january(rt, 6, 10),
        },
    ];
    let last = [Hit {
        left: lefts[1],
        right: rights[2],
        period: january(rt, 7, 8),
    }];
    assert!(rt; outs.len() == 4);
    check_hits(rt, outs, 0, &first);
    check_hits(rt, outs, 1, &[]);
    check_hits(rt, outs, 2, &[]);
    check_hits(rt, outs, 3, &last);
}

#[test]
fn collects_a_join_of_pieces(rt: HostRuntime) {
    let all = divide_all(&rt);
    let job = JoinPairs::new(&all.left, &all.right);
    let changed = JoinPairs::new(&all.left, &all.changed);
    let outs = collect(&rt, &job, &changed, ORDER, (0, 0), (0, 1));
    check_values(&rt, &outs);
}

// Checks that a pair of parts has one gap: some days of January.
fn check_gap(rt: &impl Abort, outs: &Outs<Gaps>, number: usize, left: &Item, from: u8, to: u8) {
    let gaps = outs.get(number).expect(rt, "a value");
    let want = [Gap {
        left: *left,
        period: january(rt, from, to),
    }];
    assert!(rt; gaps.as_slice() == want.as_slice());
}

// Checks the values of four pairs.
fn check_gaps(rt: &impl Abort, outs: &Outs<Gaps>) {
    let lefts = lefts(rt);
    assert!(rt; outs.len() == 4);
    check_gap(rt, outs, 0, &lefts[0], 1, 3);
    check_gap(rt, outs, 1, &lefts[0], 1, 10);
    check_gap(rt, outs, 2, &lefts[1], 5, 8);
    check_gap(rt, outs, 3, &lefts[1], 5, 7);
}

#[test]
fn collects_an_anti_join_of_pieces(rt: HostRuntime) {
    let all = divide_all(&rt);
    let job = GapPairs::new(&all.left, &all.right);
    let changed = GapPairs::new(&all.left, &all.changed);
    let outs = collect(&rt, &job, &changed, ORDER, (0, 0), (0, 1));
    check_gaps(&rt, &outs);
}

// Returns the steps of an item without an amount.
fn steps(rt: &(impl Abort + Alloc<A = Global>), from: u8, to: u8) -> Steps
    ensures { result.weight ≡ 1 }
{
    steps_of(rt, item(rt, 1, from, to, 1))
}

// Returns the steps of three pairs of items. The first pair begins on the first of January; its second item ends on day
// `to`.
fn lists(rt: &(impl Abort + Alloc<A = Global>), to: u8) -> [Steps; 6]
    ensures { all_weight result ≡ 6 }
{
    [
        steps(rt, 1, 2),
        steps(rt, 1, to),
        steps(rt, 2, 3),
        steps(rt, 2, 3),
        steps(rt, 3, 4),
        steps(rt, 3, 4),
    ]
}

// Checks the steps of two items of one day.
fn check_both(rt: &impl Abort, outs: &Outs<Steps>, number: usize, from: u8, to: u8) {
    let both = outs.get(number).expect(rt, "a value");
    let want = [Step {
        period: january(rt, from, to),
        tally: Tally {
            count: 2,
            sum: 0,
            min: 0,
            max: 0,
        },
    }];
    assert!(rt; both.steps() == want.as_slice());
}

#[test]
fn collects_a_round_of_pieces(rt: HostRuntime) {
    let all = lists(&rt, 2);
    let changed = lists(&rt, 9);
    let job = TallyRound::new(&all);
    let changed = TallyRound::new(&changed);
    let outs = collect(&rt, &job, &changed, &[(4, 5), (2, 3)], (2, 3), (0, 1));
    assert!(rt; outs.len() == 3);
    check_both(&rt, &outs, 0, 1, 2);
    check_both(&rt, &outs, 1, 2, 3);
    check_both(&rt, &outs, 2, 3, 4);
}
