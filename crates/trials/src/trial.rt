// One trial: a call on a copy of what is lent, and what differs after it.
use crate::call::Call;
use circularity::fault::Fault;
use edit::EditFault;
use grammar::{Figure, Language};
use std::alloc::{AllocError, Global};
use std::fmt;
use table::Node;

// what stands in each entry of a waiting list before a call
const UNWRITTEN: u16 = 777;

// What a call is lent: the language, records, and how many values, each of which holds the same row.
#[derive_where(Clone, Copy; R)]
pub struct Lent<'a, L, R> {
    pub language: &'a L,
    pub nodes: &'a [Node],
    pub values: usize,
    pub row: R,
}

// What a call answered, and how many records, values and entries of the waiting list differ after it. Of the waiting list only those
// entries count that the call may not write.
#[derive(Clone, Copy)]
pub struct Outcome {
    pub answer: Result<Option<u16>, EditFault>,
    pub records: usize,
    pub values: usize,
    pub entries: usize,
}

// The answer, and how much differs.
impl fmt::Display for Outcome {
    fn fmt<W: fmt::Write>(&self, f: &mut fmt::Formatter<W>) -> fmt::Result {
        match self.answer {
            Ok(None) => write!(f, "accepted")?,
            Ok(Some(node)) => write!(f, "accepted, hole {node}")?,
            Err(fault) => write!(f, "{}", fault.refusal())?,
        }
        let records = self.records;
        let values = self.values;
        let entries = self.entries;
        write!(f, "; {records} records, {values} values, {entries} entries")
    }
}

// Values that all hold one row. `vec!` would ask for a clone that cannot fail, which a row's type need not have.
fn rows<L: Language>(heap: Global, row: L::Row, count: usize) -> Result<Vec<L::Row>, AllocError> {
    let mut values = Vec::new(heap);
    for _ in 0..count {
        values.push(row)?;
    }
    Ok(values)
}

// A waiting list that nothing was written into.
fn unwritten(heap: Global, entries: usize) -> Result<Vec<u16>, AllocError> {
    vec![in heap; UNWRITTEN; entries]
}

// How many records differ.
fn changed_records(before: &[Node], after: &[Node]) -> usize {
    before
        .iter()
        .zip(after)
        .filter(|(was, is)| was != is)
        .count()
}

// How many values mean something else than the row that each held before the call. A loop: the check has no proof yet of a closure over a row of
// the language's own type that goes into `filter`.
fn changed_values<L: Language>(values: &[L::Row], row: L::Row) -> usize {
    let mut count: usize = 0;
    for value in values {
        if !L::Value::load(*value).same(L::Value::load(row)) {
            count = count.saturating_add(1);
        }
    }
    count
}

// How many entries of a waiting list were written, from one entry on.
fn written(waiting: &[u16], from: usize) -> usize {
    waiting
        .iter()
        .skip(from)
        .filter(|entry| **entry != UNWRITTEN)
        .count()
}

// How many entries of the waiting list a call may have written: an accepted one as many as there are nodes.
fn writable(answer: Result<Option<u16>, EditFault>, nodes: usize) -> usize {
    match answer {
        Ok(_) => nodes,
        Err(_) => 0,
    }
}

// Makes the call, and sees what differs.
fn observe<L: Language>(
    lent: &Lent<'_, L, L::Row>,
    call: Call,
    nodes: &mut [Node],
    values: &mut [L::Row],
    waiting: &mut [u16],
) -> Outcome {
    let answer = call.perform(lent.language, nodes, values, waiting);
    Outcome {
        answer,
        records: changed_records(lent.nodes, nodes),
        values: changed_values::<L>(values, lent.row),
        entries: written(waiting, writable(answer, nodes.len())),
    }
}

// The outcome of the call on a copy of what is lent.
pub fn tried<L: Language>(
    heap: Global,
    lent: &Lent<'_, L, L::Row>,
    call: Call,
) -> Result<Outcome, AllocError> {
    let mut nodes = lent.nodes.to_vec(heap)?;
    let mut values = rows::<L>(heap, lent.row, lent.values)?;
    let mut waiting = unwritten(heap, call.waiting())?;
    Ok(observe(lent, call, &mut nodes, &mut values, &mut waiting))
}
