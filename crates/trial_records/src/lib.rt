// What the trials of plans, causes and sheets share: the two parts of a table, dirty before, and a number for what they hold; and plans into the first
// records of a list that is dirty too, with what they answer and all of the list after them. Rows and predecessors are handed on as two slices, as every
// call under test takes them.
#![tactic(auto)]

// What only prints, as `say_record`, `say_changed` and `say_listed`, has no contract: no clause can name what standard output was given.
ghost use Rattle.std.specs.Prelude.{◌≡◌, ℕ, ◌+◌, ◌%◌, ◌<◌, ◌≤◌, ◌↔◌, IsSome, IsTrue, All, take, drop, slice_index};
ghost use Rattle.trial_records.specs.Listed.{used_of, old_record};

use loads::EngineLoad;
use planner::EngineRecord;
use planner_code::plan_into;
use system::{Answer, COLUMN_LIMIT, TYPE_LIMIT};
use trial::lent::{Parts, back};
use trial::say;

// Both parts before they are lent. None of these entries is a row, a column or 65,535, and of 5,000 entries no two are the same.
pub fn dirty_parts<const N: usize>() -> Parts<N>
    ensures rows { (i : ℕ) → i < N → slice_index result.rows i ≡ 50000 + i % 5000 }
    ensures predecessors { (i : ℕ) → i < N → slice_index result.predecessors i ≡ 55000 + i % 5000 }
{
    Parts::of(|i| 50000 + (i % 5000) as u16, |i| 55000 + (i % 5000) as u16)
}

// What stands at an entry before it is lent, where the expected numbers were computed over this.
fn dirt(i: usize) -> u16 {
    (((i % 65536) * 40503 + 7) % 65536) as u16
}

// Both parts of it: no entry of one part is what the other has there.
pub fn mixed_parts<const N: usize>() -> Parts<N> {
    Parts::of(dirt, |i| dirt(i.wrapping_add(COLUMN_LIMIT)))
}

// What numbers of entries are counted by.
const MODULUS: usize = 1000003;

// The number of entries after one more, of which the remainder counts.
fn mixed(number: usize, entry: u16) -> usize {
    number % MODULUS * 257 + usize::from(entry)
}

// The number of the first entries, one for each column that a system can have, from 1 on: each of both parts has a part in it.
pub fn front_number<const N: usize>(parts: &Parts<N>) -> usize {
    let mut number = 1;
    for (row, predecessor) in parts
        .rows
        .iter()
        .zip(&parts.predecessors)
        .take(COLUMN_LIMIT)
    {
        number = mixed(mixed(number, *row), *predecessor);
    }
    number % MODULUS + 1
}

// Whether all of both parts is as it was, or all past the first entries.
pub fn say_kept<const N: usize>(rt: &HostRuntime, parts: &Parts<N>, old: &Parts<N>, end: usize) {
    if parts.kept_from(old, 0) {
        say::say(rt, b", all kept\n");
    } else if parts.kept_from(old, end) {
        say::say(rt, b", kept past it\n");
    } else {
        say::say(rt, b", changed past it\n");
    }
}

// Every record of a list before a plan.
pub const OLD: EngineRecord = EngineRecord {
    number: 77,
    load: EngineLoad {
        time: 7,
        memory: 7,
        counts: [7; TYPE_LIMIT],
    },
};

fn is_old(r: &EngineRecord) -> bool
    ensures { IsTrue result ↔ (r.now ≡ old_record) }
{
    *r == OLD
}

// What a plan into a list answers, with the list.
#[derive(Clone, Copy, PartialEq, Eq)]
pub struct Listed<const N: usize> {
    pub answer: Answer,
    pub list: [EngineRecord; N],
}

impl<const N: usize> Listed<N> {
    // The records of a plan: those of the engines that it uses, none where it is refused.
    pub fn records(&self) -> &[EngineRecord]
        ensures { result.now ≡ take (used_of self.now.answer) self.now.list }
    {
        let used = self.answer.ok().flatten().unwrap_or(0);
        &self.list[..used.min(N)]
    }

    // All records past them are as they were.
    pub fn later_kept(&self) -> bool
        ensures { IsTrue result ↔ All (λ r. r ≡ old_record) (drop (used_of self.now.answer) self.now.list) }
    {
        back(&self.list, self.records().len()).iter().all(is_old)
    }
}

// A plan into the first `room` records of a list, None where the list has fewer.
pub fn plan_front<const N: usize>(
    file: &[u8],
    rows: &mut [u16],
    predecessors: &mut [u16],
    room: usize,
) -> Option<Listed<N>>
    ensures variant { IsSome result ↔ (room ≤ N) }
{
    let mut list = [OLD; N];
    let records = list.get_mut(..room)?;
    let answer = plan_into(file, rows, predecessors, records);
    Some(Listed { answer, list })
}

// A record: its number, time, memory and six counts.
pub fn say_record(rt: &HostRuntime, r: &EngineRecord) {
    say::say_also(rt, r.number);
    say::say_load(rt, r.load, TYPE_LIMIT);
}

// The same, or `=` where it is as it was.
pub fn say_changed(rt: &HostRuntime, r: &EngineRecord) {
    if *r == OLD {
        say::say(rt, b" =");
    } else {
        say_record(rt, r);
    }
}

// A plan into a list, where it has so many records: the answer, and all records after it, each as `say_one` prints it.
pub fn say_listed<const N: usize, F: FnMut(&EngineRecord)>(
    rt: &HostRuntime,
    planned: Option<Listed<N>>,
    mut say_one: F,
)
    requires { F.IsAlwaysCallable say_one }
{
    let Some(listed) = planned else {
        return;
    };
    say::say_answer(rt, listed.answer);
    for record in &listed.list {
        say_one(record);
    }
}
