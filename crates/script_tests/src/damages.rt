//! Tables of random rows: each division that `dip` prints is certified, and each damage to it gets the right verdict.

use rand::RngExt;
use rand_core::SeedableRng;
use rand_pcg::Pcg32;
use script_core::{Counted, run};
use std::alloc::Global;
use std::fmt::Write;
use std::process::Abort;
use std::sync::Wait;
use std::thread::Threads;

// Returns the answers to a script.
fn answers_of(
    rt: &(impl Abort + Alloc<A = Global> + Threads + Wait + Sync),
    script: &str,
) -> String {
    let mut reader = Counted::new(script.as_bytes());
    let mut writer = Counted::new(Vec::new(rt.alloc()));
    run(rt, rt.alloc(), &mut reader, &mut writer, 4).expect(rt, "a run");
    String::from_utf8(writer.into_inner()).expect(rt, "a text")
}

// A row of January 2024, given by the days of its start and its end. Rows are ordered as `dip` takes them.
#[derive(Clone, Copy, PartialEq, Eq, PartialOrd, Ord)]
struct Row {
    from: u64,
    to: u64,
    id: u64,
}

// Returns `count` rows of up to eight days.
fn make_rows(rt: &(impl Abort + Alloc<A = Global>), rng: &mut Pcg32, count: u64) -> Vec<Row> {
    let longest = rng.random_range(1..=8);
    let mut rows = Vec::new(rt.alloc());
    for id in 1..=count {
        let from = rng.random_range(1..=20);
        let to = from + rng.random_range(1..=longest);
        rows.push(Row { from, to, id }).expect(rt, "memory");
    }
    rows
}

// Returns the script that makes a table of the rows.
fn script_of(rt: &(impl Abort + Alloc<A = Global>), rows: &[Row]) -> String {
    let mut script = String::from_str(rt.alloc(), "table,t\nload,t\n").expect(rt, "memory");
    for row in rows {
        let (from, to) = (row.from, row.to);
        writeln!(script, "row,2024-01-{from:02},2024-01-{to:02}").expect(rt, "memory");
    }
    script.push_str("end\n").expect(rt, "memory");
    script
}

// Returns the number of rows that hold on a day.
fn crowd_of(rows: &[Row], day: u64) -> usize {
    rows.iter()
        .filter(|row| row.from <= day && day < row.to)
        .count()
}

// Returns the first two neighbours that overlap. The rows must be in ascending order.
fn overlap_of(rows: &[Row]) -> Option<(u64, u64)> {
    let mut before: Option<Row> = None;
    for row in rows {
        match before {
            Some(before) if row.from < before.to => return Some((before.id, row.id)),
            _ => before = Some(*row),
        }
    }
    None
}

// A claimed division of a table.
#[derive(Clone, Drop)]
struct Claimed {
    count: u64,
    instant: String,
    parts: Vec<Vec<u64>>,
}

impl Claimed {
    // Returns a claim without parts, with this instant.
    fn new(rt: &(impl Abort + Alloc<A = Global>), instant: &str) -> Claimed {
        Claimed {
            count: 0,
            instant: String::from_str(rt.alloc(), instant).expect(rt, "memory"),
            parts: Vec::new(rt.alloc()),
        }
    }

    // Returns the division of the rows that `dip` prints.
    fn by_dip(
        rt: &(impl Abort + Alloc<A = Global> + Threads + Wait + Sync),
        rows: &[Row],
    ) -> Claimed {
        let mut script = script_of(rt, rows);
        script.push_str("dip,t\n").expect(rt, "memory");
        let answers = answers_of(rt, &script);
        let mut claimed = Claimed::new(rt, "");
        for line in answers.lines() {
            claimed.read(rt, line);
        }
        claimed
    }

    // Adds one record of the answer.
    fn read(&mut self, rt: &(impl Abort + Alloc<A = Global>), line: &str) {
        if line.starts_with("dip,") {
            self.read_least(rt, line);
        }
        if line.starts_with("part,") {
            self.parts.push(ids_of(rt, line)).expect(rt, "memory");
        }
    }

    // Reads the number of parts and the instant, which are the third and the fourth field.
    fn read_least(&mut self, rt: &impl Abort, line: &str) {
        let mut fields = line.split(',').skip(2);
        self.count = number(rt, fields.next().unwrap_or(""));
        let instant = fields.next().unwrap_or("");
        self.instant.push_str(instant).expect(rt, "memory");
    }

    // Adds a part, and counts it.
    fn add_part(&mut self, rt: &impl Abort, part: Vec<u64>) {
        self.count = self.count.saturating_add(1);
        self.parts.push(part).expect(rt, "memory");
    }

    // Returns a copy.
    fn again(&self, rt: &impl Abort) -> Claimed {
        self.clone().expect(rt, "memory")
    }
}

fn number(rt: &impl Abort, field: &str) -> u64 {
    field.parse().expect(rt, "a number")
}

// Returns the ids of a part, which begin in the third field.
fn ids_of(rt: &(impl Abort + Alloc<A = Global>), line: &str) -> Vec<u64> {
    let mut part = Vec::new(rt.alloc());
    for id in line.split(',').skip(2) {
        part.push(number(rt, id)).expect(rt, "memory");
    }
    part
}

// A script that checks claims about one table, and the expected answers.
#[derive(Drop)]
struct Trial {
    script: String,
    answers: String,
}

impl Trial {
    fn new(rt: &(impl Abort + Alloc<A = Global>), rows: &[Row]) -> Trial {
        Trial {
            script: script_of(rt, rows),
            answers: String::from_str(rt.alloc(), "ok,1\nok,2\n").expect(rt, "memory"),
        }
    }

    // Adds a claim and its verdict.
    fn add(&mut self, rt: &impl Abort, claimed: &Claimed, verdict: &str) {
        self.add_claim(rt, claimed);
        writeln!(self.answers, "{verdict}").expect(rt, "memory");
    }

    // Adds a claim that is refuted, with the number in its verdict.
    fn add_denied(&mut self, rt: &impl Abort, claimed: &Claimed, why: &str, what: u64) {
        self.add_claim(rt, claimed);
        writeln!(self.answers, "no,{why},{what}").expect(rt, "memory");
    }

    fn add_claim(&mut self, rt: &impl Abort, claimed: &Claimed) {
        let (count, instant) = (claimed.count, claimed.instant.as_str());
        writeln!(self.script, "check,t,{count},{instant}").expect(rt, "memory");
        for part in &claimed.parts {
            self.add_ids(rt, part);
        }
        self.script.push_str("end\n").expect(rt, "memory");
    }

    fn add_ids(&mut self, rt: &impl Abort, part: &[u64]) {
        self.script.push_str("part").expect(rt, "memory");
        for id in part {
            write!(self.script, ",{id}").expect(rt, "memory");
        }
        self.script.push_str("\n").expect(rt, "memory");
    }

    // Omits an id.
    fn add_missing(&mut self, rt: &impl Abort, claimed: &Claimed) {
        let mut fewer = claimed.again(rt);
        if let Some(part) = fewer.parts.iter_mut().find(|part| part.len() > 1) {
            if let Some(id) = part.pop() {
                self.add_denied(rt, &fewer, "Missing", id);
            }
        }
    }

    // Adds an id twice.
    fn add_twice(&mut self, rt: &impl Abort, rows: &[Row], claimed: &Claimed) {
        let mut twice = claimed.again(rt);
        if let (Some(row), Some(part)) = (rows.first(), twice.parts.last_mut()) {
            part.push(row.id).expect(rt, "memory");
            self.add_denied(rt, &twice, "Twice", row.id);
        }
    }

    // Adds an id that no row has.
    fn add_unknown(
        &mut self,
        rt: &(impl Abort + Alloc<A = Global>),
        rows: &[Row],
        claimed: &Claimed,
    ) {
        let mut more = claimed.again(rt);
        let stranger = (rows.len() as u64).saturating_add(1);
        more.add_part(rt, vec![in rt.alloc(); stranger].expect(rt, "memory"));
        self.add_denied(rt, &more, "Unknown", stranger);
    }

    // Adds a part without ids, and counts it.
    fn add_empty(&mut self, rt: &(impl Abort + Alloc<A = Global>), claimed: &Claimed) {
        let mut empty = claimed.again(rt);
        empty.add_part(rt, Vec::new(rt.alloc()));
        self.add_denied(rt, &empty, "EmptyPart", claimed.count);
    }

    // Changes the count by one.
    fn add_wrong_counts(&mut self, rt: &impl Abort, claimed: &Claimed) {
        let count = claimed.count;
        let mut other = claimed.again(rt);
        for wrong in [count.saturating_add(1), count.saturating_sub(1)] {
            if wrong != count {
                other.count = wrong;
                self.add_denied(rt, &other, "WrongCount", count);
            }
        }
    }

    // Joins the first two parts, so that some of their rows overlap.
    fn add_overlap(
        &mut self,
        rt: &(impl Abort + Alloc<A = Global>),
        rows: &[Row],
        claimed: &Claimed,
    ) {
        let [first, second, others @ ..] = claimed.parts.as_slice() else {
            return;
        };
        let joined = joined(rt, first, second);
        let Some((a, b)) = overlap_of(&taken(rt, rows, &joined)) else {
            return;
        };
        let mut fewer = Claimed::new(rt, &claimed.instant);
        fewer.add_part(rt, joined);
        for part in others {
            fewer.add_part(rt, part.clone().expect(rt, "memory"));
        }
        self.add_claim(rt, &fewer);
        writeln!(self.answers, "no,Overlap,{a},{b}").expect(rt, "memory");
    }

    // Tries each day of the month as the instant.
    fn add_instants(
        &mut self,
        rt: &(impl Abort + Alloc<A = Global>),
        rows: &[Row],
        claimed: &Claimed,
    ) {
        let mut other = claimed.again(rt);
        for day in 1..=31 {
            other.instant.clear();
            write!(other.instant, "2024-01-{day:02}").expect(rt, "memory");
            self.add_crowd(rt, &other, crowd_of(rows, day) as u64);
        }
    }

    // Adds a claim at whose instant `holds` rows hold.
    fn add_crowd(&mut self, rt: &impl Abort, claimed: &Claimed, holds: u64) {
        if holds > 0 && holds == claimed.count {
            self.add(rt, claimed, "yes");
        } else {
            self.add_denied(rt, claimed, "NotCrowded", holds);
        }
    }

    // Omits the instant.
    fn add_none(&mut self, rt: &impl Abort, rows: &[Row], claimed: &Claimed) {
        let mut other = claimed.again(rt);
        other.instant.clear();
        other.instant.push_str("-").expect(rt, "memory");
        if rows.is_empty() {
            self.add(rt, &other, "yes");
        } else {
            self.add_denied(rt, &other, "NotCrowded", 0);
        }
    }

    // Puts each row into a part of its own. That is a least division only if all rows hold on one day.
    fn add_alone(
        &mut self,
        rt: &(impl Abort + Alloc<A = Global>),
        rows: &[Row],
        claimed: &Claimed,
    ) {
        let mut alone = Claimed::new(rt, &claimed.instant);
        for row in rows {
            alone.add_part(rt, vec![in rt.alloc(); row.id].expect(rt, "memory"));
        }
        if alone.count == claimed.count {
            self.add(rt, &alone, "yes");
        } else {
            self.add_denied(rt, &alone, "NotCrowded", claimed.count);
        }
    }

    // Adds the claim with each damage, and the verdicts.
    fn add_damages(
        &mut self,
        rt: &(impl Abort + Alloc<A = Global>),
        rows: &[Row],
        claimed: &Claimed,
    ) {
        self.add_missing(rt, claimed);
        self.add_twice(rt, rows, claimed);
        self.add_unknown(rt, rows, claimed);
        self.add_empty(rt, claimed);
        self.add_wrong_counts(rt, claimed);
        self.add_overlap(rt, rows, claimed);
        self.add_instants(rt, rows, claimed);
        self.add_none(rt, rows, claimed);
        self.add_alone(rt, rows, claimed);
    }

    // Runs the script, and checks the answers.
    fn check(&self, rt: &(impl Abort + Alloc<A = Global> + Threads + Wait + Sync)) {
        let answers = answers_of(rt, &self.script);
        assert_eq!(rt; answers.as_str(), self.answers.as_str());
    }
}

// Joins two parts.
fn joined(rt: &(impl Abort + Alloc<A = Global>), first: &[u64], second: &[u64]) -> Vec<u64> {
    let mut joined = Vec::from_slice(rt.alloc(), first).expect(rt, "memory");
    joined.extend_from_slice(second).expect(rt, "memory");
    joined
}

// Returns the rows with these ids, in their order.
fn taken(rt: &(impl Abort + Alloc<A = Global>), rows: &[Row], ids: &[u64]) -> Vec<Row> {
    let mut taken = Vec::new(rt.alloc());
    for row in rows {
        if ids.contains(&row.id) {
            taken.push(*row).expect(rt, "memory");
        }
    }
    taken.sort_unstable();
    taken
}

// Checks that the division that `dip` prints for `count` random rows is certified.
fn check_certified(
    rt: &(impl Abort + Alloc<A = Global> + Threads + Wait + Sync),
    rng: &mut Pcg32,
    count: u64,
) {
    let rows = make_rows(rt, rng, count);
    let claimed = Claimed::by_dip(rt, &rows);
    assert_eq!(rt; claimed.parts.len() as u64, claimed.count);
    let mut trial = Trial::new(rt, &rows);
    trial.add(rt, &claimed, "yes");
    trial.check(rt);
}

#[test]
fn what_dip_answers_is_certified(rt: HostRuntime) {
    let mut rng = Pcg32::seed_from_u64(1);
    for count in 0..=60 {
        check_certified(&rt, &mut rng, count);
    }
}

// Checks that each damage to the division of `count` random rows gets its verdict, and adds the verdicts to `verdicts`.
fn check_damages(
    rt: &(impl Abort + Alloc<A = Global> + Threads + Wait + Sync),
    rng: &mut Pcg32,
    count: u64,
    verdicts: &mut String,
) {
    let rows = make_rows(rt, rng, count);
    let claimed = Claimed::by_dip(rt, &rows);
    let mut trial = Trial::new(rt, &rows);
    trial.add_damages(rt, &rows, &claimed);
    trial.check(rt);
    verdicts.push_str(&trial.answers).expect(rt, "memory");
}

// Checks that at least 50 of these lines begin with `verdict`.
fn check_often(rt: &impl Abort, lines: &str, verdict: &str) {
    let count = lines
        .lines()
        .filter(|line| line.starts_with(verdict))
        .count();
    assert!(rt; count >= 50, "{verdict} is answered only {count} times");
}

#[test]
fn each_damage_gets_its_verdict(rt: HostRuntime) {
    let mut rng = Pcg32::seed_from_u64(2);
    let mut verdicts = String::new(rt.alloc());
    for count in 0..=60 {
        check_damages(&rt, &mut rng, count, &mut verdicts);
    }
    for verdict in [
        "no,WrongCount,",
        "no,EmptyPart,",
        "no,Unknown,",
        "no,Twice,",
        "no,Missing,",
        "no,Overlap,",
        "no,NotCrowded,",
    ] {
        check_often(&rt, &verdicts, verdict);
    }
}
