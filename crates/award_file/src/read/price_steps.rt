// The price steps of an award.
ghost use Rattle.std.specs.Prelude.{◌≡◌, [], IfErr, IfOk, None, Some, map};
ghost use Rattle.toml.specs.View.{items_view, table_view};
ghost use Rattle.award_file.specs.Parts.{excesses};
ghost use Rattle.award_file.specs.Reading.{IsFault};
ghost use Rattle.award_file.specs.Stated as stated;
ghost use Rattle.award_file.specs.Walk as walk;

use crate::read::AwardStop;
use crate::read::field_numbers::{EXCESS, OTHER_KEY, PERMILLE, STEPS};
use crate::read::fields::{broken, broken_top, has_other, list_at, number_at};
use limits::{MOST_EXCESS, MOST_PERMILLE, MOST_STEPS};
use std::alloc::Global;
use toml::Value;
use toml::value::Table;

/// The keys of a step.
const STEP_KEYS: [&str; 2] = ["excess", "permille"];

/// Reads the steps that a table states, each an excess and its permille.
pub fn read_steps(alloc: Global, table: &Table) -> Result<Vec<(u64, u64)>, AwardStop>
    ensures ok { IfOk result
        (λ v. (walk.steps_fault (table_view table.now) ≡ None)
        × (v.items ≡ walk.thresholds_of (table_view table.now))) }
    ensures err { IfErr result (IsFault (walk.steps_fault (table_view table.now))) }
{
    let Some(tables) = list_at(table, "step") else {
        return Err(broken_top(STEPS));
    };
    if tables.is_empty() || tables.len() > MOST_STEPS {
        return Err(broken_top(STEPS));
    }
    read_listed(alloc, tables)
}

/// Reads the steps of these tables.
fn read_listed(alloc: Global, tables: &[Value]) -> Result<Vec<(u64, u64)>, AwardStop>
    ensures ok { IfOk result
        (λ v. (walk.tables_fault walk.step_fault walk.excess_or_none [] (stated.tables_of (items_view tables.now))
        ≡ None)
        × (v.items ≡ map walk.threshold_of (stated.tables_of (items_view tables.now)))) }
    ensures err { IfErr result
        (IsFault (walk.tables_fault walk.step_fault walk.excess_or_none []
        (stated.tables_of (items_view tables.now)))) }
{
    let mut steps = Vec::new(alloc);
    'tables: for element in tables {
        let Value::Table(table) = element else {
            continue;
        };
        let step = read_step(table, &steps)?;
        steps.push(step)?;
    }
    Ok(steps)
}

/// Reads the step of a table after these.
fn read_step(table: &Table, before: &[(u64, u64)]) -> Result<(u64, u64), AwardStop>
    ensures ok { IfOk result
        (λ s. (walk.step_fault (excesses before.now) (table_view table.now) ≡ None)
        × (s ≡ walk.threshold_of (table_view table.now))) }
    ensures err { IfErr result (IsFault (walk.step_fault (excesses before.now) (table_view table.now))) }
{
    let Some(excess) = number_at(table, "excess", 1, MOST_EXCESS) else {
        return Err(broken(EXCESS, before.len()));
    };
    if !comes_next(before, excess) {
        return Err(broken(EXCESS, before.len()));
    }
    let Some(permille) = number_at(table, "permille", 1, MOST_PERMILLE) else {
        return Err(broken(PERMILLE, before.len()));
    };
    if has_other(table, &STEP_KEYS) {
        return Err(broken(OTHER_KEY, before.len()));
    }
    Ok((excess, permille))
}

/// Whether a step of this excess may follow these: the first excess is 1, and each other one is greater than that before it.
fn comes_next(before: &[(u64, u64)], excess: u64) -> bool
    ensures { result ≡ walk.comes_next (excesses before.now) (Some excess) }
{
    match before.last() {
        Some((last, _)) => *last < excess,
        None => excess == 1,
    }
}
