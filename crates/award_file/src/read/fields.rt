// What the keys of a table state.
ghost use Rattle.std.specs.Prelude.{◌≡◌, ◌≤◌, IfOk, IfSome, Some, length, map, option_map};
ghost use Rattle.std.specs.List.{list_any};
ghost use Rattle.std.specs.Str.{bytes_eq};
ghost use Rattle.toml.specs.Data.{get_member};
ghost use Rattle.toml.specs.Text.{are_tables};
ghost use Rattle.toml.specs.View.{items_view, table_view, view};
ghost use Rattle.award_file.specs.Stated as spec;
ghost use Rattle.award_file.specs.Walk.{entry_after};
ghost use Rattle.award_file.specs.declared.read.AwardStop.TheVariants.{Field};

use crate::read::AwardStop;
use bid_book::is_name;
use std::alloc::{AllocError, Global};
use toml::Value;
use toml::value::Table;

/// The number, if it is from `low` to `high`.
fn in_range(number: i64, low: u64, high: u64) -> Option<u64>
    ensures { result ≡ spec.in_range low high number }
{
    if number < 0 {
        return None;
    }
    let size = number.unsigned_abs();
    if low <= size && size <= high {
        Some(size)
    } else {
        None
    }
}

/// The whole number from `low` to `high` that a value is.
fn whole_of(value: &Value, low: u64, high: u64) -> Option<u64>
    ensures { result ≡ spec.whole_of low high (view value.now) }
{
    match value.as_integer() {
        Some(number) => in_range(number, low, high),
        None => None,
    }
}

/// The value that a key states.
pub fn value_at<'a>(table: &'a Table, key: &str) -> Option<&'a Value>
    ensures { option_map (λ v. view v.now) result ≡ get_member key.now (table_view table.now) }
{
    table.get(key)
}

/// The whole number from `low` to `high` that a key states.
pub fn number_at(table: &Table, key: &str, low: u64, high: u64) -> Option<u64>
    ensures number { result ≡ spec.number_at low high key.now (table_view table.now) }
    ensures most { IfSome result (λ n. n ≤ high) }
{
    match value_at(table, key) {
        Some(value) => whole_of(value, low, high),
        None => None,
    }
}

/// The string that a key states.
fn string_at<'a>(table: &'a Table, key: &str) -> Option<&'a str>
    ensures { option_map (λ s. s.now) result ≡ spec.string_at key.now (table_view table.now) }
{
    match value_at(table, key) {
        Some(value) => value.as_str(),
        None => None,
    }
}

/// The name that a table states.
pub fn name_at(table: &Table) -> Option<&str>
    ensures { option_map (λ s. s.now) result ≡ spec.name_at (table_view table.now) }
{
    match string_at(table, "name") {
        Some(text) => {
            if is_name(text.as_bytes()) {
                Some(text)
            } else {
                None
            }
        }
        None => None,
    }
}

/// The whole numbers of an array, if none is above `high`.
fn numbers_of(alloc: Global, values: &[Value], high: u16) -> Result<Option<Vec<u16>>, AllocError>
    ensures { IfOk result (λ r. option_map (λ v. v.items) r ≡ spec.numbers_of high (items_view values.now)) }
{
    let mut numbers = Vec::new(alloc);
    'numbers: for value in values {
        let Some(number) = whole_of(value, 0, u64::from(high)) else {
            return Ok(None);
        };
        numbers.push(number as u16)?;
    }
    Ok(Some(numbers))
}

/// That many whole numbers, if a value is an array of these and none is above `high`.
pub fn row_of(
    alloc: Global,
    value: &Value,
    count: usize,
    high: u16,
) -> Result<Option<Vec<u16>>, AllocError>
    ensures { IfOk result (λ r. option_map (λ v. v.items) r ≡ spec.row_of count high (view value.now)) }
{
    let Value::Array(array) = value else {
        return Ok(None);
    };
    match numbers_of(alloc, array, high)? {
        Some(numbers) if numbers.len() == count => Ok(Some(numbers)),
        _ => Ok(None),
    }
}

/// Whether all values are tables.
fn are_tables(values: &[Value]) -> bool
    ensures { result ≡ are_tables (items_view values.now) }
{
    'values: for value in values {
        if !value.is_table() {
            return false;
        }
    }
    true
}

/// The elements of a value that is an array of tables.
fn tables_of(value: &Value) -> Option<&[Value]>
    ensures tables { option_map (λ values. spec.tables_of (items_view values.now)) result
        ≡ spec.list_of (Some (view value.now)) }
    ensures count { IfSome result (λ values. length (spec.tables_of (items_view values.now)) ≡ length values.now) }
{
    let Value::Array(array) = value else {
        return None;
    };
    if are_tables(array) { Some(array) } else { None }
}

/// The tables that a key states: none if it is missing. `None` if it states anything else than an array of tables.
pub fn list_at<'a>(table: &'a Table, key: &str) -> Option<&'a [Value]>
    ensures tables { option_map (λ values. spec.tables_of (items_view values.now)) result
        ≡ spec.list_of (get_member key.now (table_view table.now)) }
    ensures count { IfSome result (λ values. length (spec.tables_of (items_view values.now)) ≡ length values.now) }
{
    match value_at(table, key) {
        Some(value) => tables_of(value),
        None => Some(&[]),
    }
}

/// Whether the key is one of these.
fn is_known(key: &str, keys: &[&str]) -> bool
    ensures { result ≡ list_any (bytes_eq key.now) (map (λ k. k.now) keys.now) }
{
    'keys: for known in keys {
        if key == *known {
            return true;
        }
    }
    false
}

/// Whether a key of the table is none of these.
pub fn has_other(table: &Table, keys: &[&str]) -> bool
    ensures { result ≡ spec.has_other (map (λ k. k.now) keys.now) (table_view table.now) }
{
    'members: for (key, _) in table.iter() {
        if !is_known(key.as_str(), keys) {
            return true;
        }
    }
    false
}

/// The stop at a field of the table after that many.
pub fn broken(number: u8, before: usize) -> AwardStop
    ensures { result ≡ Field number (entry_after before) }
{
    let entry = u32::try_from(before).unwrap_or(u32::MAX).saturating_add(1);
    AwardStop::Field { number, entry }
}

/// The stop at a field of the top.
pub fn broken_top(number: u8) -> AwardStop
    ensures { result ≡ Field number 0 }
{
    AwardStop::Field { number, entry: 0 }
}
