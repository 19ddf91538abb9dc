// The categories of an award.
ghost use Rattle.std.specs.Prelude.{◌≡◌, [], IfErr, IfOk, None, map, string_bytes};
ghost use Rattle.std.specs.List.{list_any};
ghost use Rattle.std.specs.Str.{bytes_eq};
ghost use Rattle.toml.specs.View.{items_view, table_view};
ghost use Rattle.award_file.specs.Parts.{category_value, category_values, category_names};
ghost use Rattle.award_file.specs.Reading.{IsFault};
ghost use Rattle.award_file.specs.Stated as stated;
ghost use Rattle.award_file.specs.Walk as walk;

use crate::read::AwardStop;
use crate::read::field_numbers::{CATEGORIES, CATEGORY_NAME, OTHER_KEY, POINTS, RESERVE, SUPPLY};
use crate::read::fields::{broken, broken_top, has_other, list_at, name_at, number_at};
use limits::{MOST_COUNT, MOST_POINTS, MOST_PRICE};
use std::alloc::Global;
use toml::Value;
use toml::value::Table;

/// The keys of a category.
const CATEGORY_KEYS: [&str; 4] = ["name", "supply", "points", "reserve"];

/// A category of lots.
#[derive(Drop)]
pub struct Category {
    /// The name, which no other category has.
    pub name: String,
    /// How many lots there are.
    pub supply: u16,
    /// The points of a lot.
    pub points: u32,
    /// The reserve of a lot.
    pub reserve: u64,
}

/// Reads the categories that a table states.
pub fn read_categories(alloc: Global, table: &Table) -> Result<Vec<Category>, AwardStop>
    ensures ok { IfOk result
        (λ v. (walk.categories_fault (table_view table.now) ≡ None)
        × (category_values v.items ≡ walk.categories_of (table_view table.now))) }
    ensures err { IfErr result (IsFault (walk.categories_fault (table_view table.now))) }
{
    let Some(tables) = list_at(table, "category") else {
        return Err(broken_top(CATEGORIES));
    };
    if tables.is_empty() {
        return Err(broken_top(CATEGORIES));
    }
    read_listed(alloc, tables)
}

/// Reads the categories of these tables.
fn read_listed(alloc: Global, tables: &[Value]) -> Result<Vec<Category>, AwardStop>
    ensures ok { IfOk result
        (λ v. (walk.tables_fault walk.category_fault walk.name_or_none []
        (stated.tables_of (items_view tables.now)) ≡ None)
        × (category_values v.items ≡ map walk.category_of (stated.tables_of (items_view tables.now)))) }
    ensures err { IfErr result
        (IsFault (walk.tables_fault walk.category_fault walk.name_or_none []
        (stated.tables_of (items_view tables.now)))) }
{
    let mut categories = Vec::new(alloc);
    'tables: for element in tables {
        let Value::Table(table) = element else {
            continue;
        };
        let category = read_category(alloc, table, &categories)?;
        categories.push(category)?;
    }
    Ok(categories)
}

/// Reads the category of a table after these.
fn read_category(alloc: Global, table: &Table, before: &[Category]) -> Result<Category, AwardStop>
    ensures ok { IfOk result
        (λ c. (walk.category_fault (category_names before.now) (table_view table.now) ≡ None)
        × (category_value c ≡ walk.category_of (table_view table.now))) }
    ensures err { IfErr result (IsFault (walk.category_fault (category_names before.now) (table_view table.now))) }
{
    let Some(name) = name_at(table) else {
        return Err(broken(CATEGORY_NAME, before.len()));
    };
    if has_name(before, name) {
        return Err(broken(CATEGORY_NAME, before.len()));
    }
    let Some(supply) = number_at(table, "supply", 1, MOST_COUNT) else {
        return Err(broken(SUPPLY, before.len()));
    };
    let Some(points) = number_at(table, "points", 0, MOST_POINTS) else {
        return Err(broken(POINTS, before.len()));
    };
    let Some(reserve) = number_at(table, "reserve", 0, MOST_PRICE) else {
        return Err(broken(RESERVE, before.len()));
    };
    if has_other(table, &CATEGORY_KEYS) {
        return Err(broken(OTHER_KEY, before.len()));
    }
    let name = String::from_str(alloc, name)?;
    Ok(Category {
        name,
        supply: supply as u16,
        points: points as u32,
        reserve,
    })
}

/// Whether one of the categories has this name.
fn has_name(categories: &[Category], name: &str) -> bool
    ensures { result ≡ list_any (bytes_eq name.now) (category_names categories.now) }
{
    'categories: for category in categories {
        if name == category.name.as_str() {
            return true;
        }
    }
    false
}
