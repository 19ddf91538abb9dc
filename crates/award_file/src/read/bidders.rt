// The bidders of an award.
ghost use Rattle.std.specs.Prelude.{◌≡◌, ◌∷◌, ◌++◌, [], IfErr, IfOk, OnOk, None, map, option_map};
ghost use Rattle.toml.specs.View.{items_view, table_view};
ghost use Rattle.award_file.specs.Award.{names_of};
ghost use Rattle.award_file.specs.Reading.{IsFault};
ghost use Rattle.award_file.specs.Stated as stated;
ghost use Rattle.award_file.specs.Walk as walk;

use crate::entrants::Entrants;
use crate::read::AwardStop;
use crate::read::field_numbers::{BIDDER_NAME, BIDDERS, ELIGIBILITY, HOLDING, OTHER_KEY};
use crate::read::fields::{
    broken, broken_top, has_other, list_at, name_at, number_at, row_of, value_at,
};
use limits::{MOST_COUNT, MOST_ELIGIBILITY};
use std::alloc::{AllocError, Global};
use toml::Value;
use toml::value::Table;

/// The keys of a bidder.
const BIDDER_KEYS: [&str; 3] = ["name", "eligibility", "holding"];

/// The most lots of a category that a bidder holds already.
const MOST_HOLDING: u16 = MOST_COUNT as u16;

/// Reads the bidders that a table states, if there are that many categories.
pub fn read_bidders(alloc: Global, table: &Table, categories: usize) -> Result<Entrants, AwardStop>
    ensures ok { IfOk result
        (λ bidders. (walk.bidders_fault categories (table_view table.now) ≡ None)
        × (bidders ≡ walk.entrants_of categories (table_view table.now))) }
    ensures err { IfErr result (IsFault (walk.bidders_fault categories (table_view table.now))) }
{
    let Some(tables) = list_at(table, "bidder") else {
        return Err(broken_top(BIDDERS));
    };
    read_listed(alloc, tables, categories)
}

/// Reads the bidders of these tables.
fn read_listed(alloc: Global, tables: &[Value], categories: usize) -> Result<Entrants, AwardStop>
    ensures ok { IfOk result
        (λ bidders. (walk.tables_fault (walk.bidder_fault categories) walk.name_or_none []
        (stated.tables_of (items_view tables.now)) ≡ None)
        × (bidders ≡ map (walk.entrant_of categories) (stated.tables_of (items_view tables.now)))) }
    ensures err { IfErr result
        (IsFault (walk.tables_fault (walk.bidder_fault categories) walk.name_or_none []
        (stated.tables_of (items_view tables.now)))) }
{
    let mut bidders = Entrants::new(alloc);
    'tables: for element in tables {
        let Value::Table(table) = element else {
            continue;
        };
        take_bidder(alloc, table, categories, &mut bidders)?;
    }
    Ok(bidders)
}

/// Puts the bidder of a table after those before it.
fn take_bidder(
    alloc: Global,
    table: &Table,
    categories: usize,
    bidders: &mut Entrants,
) -> Result<(), AwardStop>
    ensures ok { OnOk result ((walk.bidder_fault categories (names_of bidders.old) (table_view table.now) ≡ None)
        × (bidders.new ≡ bidders.old ++ walk.entrant_of categories (table_view table.now) ∷ [])) }
    ensures err { IfErr result (IsFault (walk.bidder_fault categories (names_of bidders.old) (table_view table.now))) }
{
    let before = bidders.count();
    let Some(name) = name_at(table) else {
        return Err(broken(BIDDER_NAME, before));
    };
    if bidders.contains(name) {
        return Err(broken(BIDDER_NAME, before));
    }
    let Some(eligibility) = number_at(table, "eligibility", 0, MOST_ELIGIBILITY) else {
        return Err(broken(ELIGIBILITY, before));
    };
    let Some(holding) = holding_at(alloc, table, categories)? else {
        return Err(broken(HOLDING, before));
    };
    if has_other(table, &BIDDER_KEYS) {
        return Err(broken(OTHER_KEY, before));
    }
    let name = String::from_str(alloc, name)?;
    bidders.push(name, eligibility, holding)?;
    Ok(())
}

/// What the bidder of a table holds already of each category: no lots if the key is missing.
fn holding_at(
    alloc: Global,
    table: &Table,
    categories: usize,
) -> Result<Option<Vec<u16>>, AllocError>
    ensures { IfOk result (λ r. option_map (λ v. v.items) r ≡ walk.holding_at categories (table_view table.now)) }
{
    match value_at(table, "holding") {
        Some(value) => row_of(alloc, value, categories, MOST_HOLDING),
        None => Ok(Some(vec![in alloc; 0; categories]?)),
    }
}
