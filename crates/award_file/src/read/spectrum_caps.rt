// The spectrum caps of an award.
ghost use Rattle.std.specs.Prelude.{◌≡◌, [], IfErr, IfOk, None, map, option_map};
ghost use Rattle.toml.specs.View.{items_view, table_view};
ghost use Rattle.award_file.specs.Fields.{cap_value, cap_values};
ghost use Rattle.award_file.specs.Parts.{limits};
ghost use Rattle.award_file.specs.Reading.{IsFault};
ghost use Rattle.award_file.specs.Stated as stated;
ghost use Rattle.award_file.specs.Walk as walk;

use crate::caps::SpectrumCap;
use crate::read::AwardStop;
use crate::read::field_numbers::{CAP_LIMIT, CAP_WEIGHTS, CAPS, OTHER_KEY};
use crate::read::fields::{broken, broken_top, has_other, list_at, number_at, row_of, value_at};
use limits::{MOST_CAP_LIMIT, MOST_CAP_WEIGHT, MOST_CAPS};
use std::alloc::{AllocError, Global};
use toml::Value;
use toml::value::Table;

/// The keys of a cap.
const CAP_KEYS: [&str; 2] = ["weight", "limit"];

/// Reads the caps that a table states, if there are that many categories.
pub fn read_caps(
    alloc: Global,
    table: &Table,
    categories: usize,
) -> Result<Vec<SpectrumCap>, AwardStop>
    ensures ok { IfOk result
        (λ v. (walk.caps_fault categories (table_view table.now) ≡ None)
        × (cap_values v.items ≡ walk.caps_of categories (table_view table.now))) }
    ensures err { IfErr result (IsFault (walk.caps_fault categories (table_view table.now))) }
{
    let Some(tables) = list_at(table, "cap") else {
        return Err(broken_top(CAPS));
    };
    if tables.len() > MOST_CAPS {
        return Err(broken_top(CAPS));
    }
    read_listed(alloc, tables, categories)
}

/// Reads the caps of these tables.
fn read_listed(
    alloc: Global,
    tables: &[Value],
    categories: usize,
) -> Result<Vec<SpectrumCap>, AwardStop>
    ensures ok { IfOk result
        (λ v. (walk.tables_fault (walk.cap_fault categories) walk.limit_or_none []
        (stated.tables_of (items_view tables.now)) ≡ None)
        × (cap_values v.items ≡ map (walk.cap_of categories) (stated.tables_of (items_view tables.now)))) }
    ensures err { IfErr result
        (IsFault (walk.tables_fault (walk.cap_fault categories) walk.limit_or_none []
        (stated.tables_of (items_view tables.now)))) }
{
    let mut caps = Vec::new(alloc);
    'tables: for element in tables {
        let Value::Table(table) = element else {
            continue;
        };
        let cap = read_cap(alloc, table, categories, &caps)?;
        caps.push(cap)?;
    }
    Ok(caps)
}

/// Reads the cap of a table after these.
fn read_cap(
    alloc: Global,
    table: &Table,
    categories: usize,
    before: &[SpectrumCap],
) -> Result<SpectrumCap, AwardStop>
    ensures ok { IfOk result
        (λ c. (walk.cap_fault categories (limits before.now) (table_view table.now) ≡ None)
        × (cap_value c ≡ walk.cap_of categories (table_view table.now))) }
    ensures err { IfErr result (IsFault (walk.cap_fault categories (limits before.now) (table_view table.now))) }
{
    let Some(weights) = weights_at(alloc, table, categories)? else {
        return Err(broken(CAP_WEIGHTS, before.len()));
    };
    let Some(limit) = number_at(table, "limit", 0, MOST_CAP_LIMIT) else {
        return Err(broken(CAP_LIMIT, before.len()));
    };
    if has_other(table, &CAP_KEYS) {
        return Err(broken(OTHER_KEY, before.len()));
    }
    Ok(SpectrumCap { weights, limit })
}

/// The weights that a table states, one for each category.
fn weights_at(
    alloc: Global,
    table: &Table,
    categories: usize,
) -> Result<Option<Vec<u16>>, AllocError>
    ensures { IfOk result (λ r. option_map (λ v. v.items) r ≡ walk.weights_at categories (table_view table.now)) }
{
    match value_at(table, "weight") {
        Some(value) => row_of(alloc, value, categories, MOST_CAP_WEIGHT),
        None => Ok(None),
    }
}
