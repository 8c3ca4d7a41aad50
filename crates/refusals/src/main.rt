// Tries every refusal of every call that changes a sheet, and an accepted run of each, and prints a line for each trial.
// A heading says what memory is lent; a line says what was called on it, the answer, and how many records and values differ after it.
#![tactic(auto)]

mod cases;
mod damage;
mod line;
mod records;

use cases::{ON_ALTERED_TABLES, ON_FORMULA_TABLES, ON_FORMULAS, ON_PLAN_TABLES, Scene};
use damage::DAMAGES;
use formula::{Formula, QuantityRow};
use grammar::Language;
use line::try_call;
use plan::{AlteredPlan, Plan, PlanRow};
use records::{FORMULAS, blank, lay};
use std::alloc::{AllocError, Global};
use std::io;
use table::Node;
use trials::{Call, Lent};

// The table of a scene.
fn laid(heap: Global, scene: &Scene) -> Result<Vec<Node>, AllocError> {
    let mut nodes = blank(heap, scene.nodes)?;
    lay(&mut nodes, scene.records);
    lay(&mut nodes, scene.over);
    Ok(nodes)
}

// Tries some calls, each on the same memory.
fn try_each<L: Language>(
    rt: &HostRuntime,
    lent: &Lent<'_, L, L::Row>,
    calls: &[Call],
) -> io::Result<()> {
    for call in calls {
        try_call(rt, lent, *call)?;
    }
    Ok(())
}

// Tries the calls of a scene. Every value holds the same row.
fn play<L: Language>(
    rt: &HostRuntime,
    name: &str,
    language: &L,
    row: L::Row,
    scene: &Scene,
) -> io::Result<()> {
    println!(rt; "# {name}, {scene}")?;
    let nodes = laid(rt.alloc(), scene)?;
    let lent = Lent {
        language,
        nodes: &nodes,
        values: scene.values,
        row,
    };
    try_each(rt, &lent, scene.calls)
}

// Tries the scenes of one language.
fn play_all<L: Language>(
    rt: &HostRuntime,
    name: &str,
    language: &L,
    row: L::Row,
    scenes: &[Scene],
) -> io::Result<()> {
    for scene in scenes {
        play(rt, name, language, row, scene)?;
    }
    Ok(())
}

// Tries every call but make on every damage.
fn damaged(rt: &HostRuntime) -> io::Result<()> {
    for damage in &DAMAGES {
        let scene = Scene {
            note: damage.what,
            records: &FORMULAS,
            over: damage.records,
            nodes: 16,
            values: 64,
            calls: &ON_FORMULAS,
        };
        play(rt, "formulas", &Formula, QuantityRow::Number(1), &scene)?;
    }
    Ok(())
}

fn main(rt: HostRuntime) -> io::Result<()> {
    play_all(
        &rt,
        "formulas",
        &Formula,
        QuantityRow::Number(1),
        &ON_FORMULA_TABLES,
    )?;
    play_all(&rt, "plans", &Plan, PlanRow::Count(1), &ON_PLAN_TABLES)?;
    play_all(
        &rt,
        "altered plans",
        &AlteredPlan,
        PlanRow::Count(1),
        &ON_ALTERED_TABLES,
    )?;
    damaged(&rt)
}
