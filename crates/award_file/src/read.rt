// The reader of award files.
ghost use Rattle.std.specs.Prelude.{◌≡◌, ◌⊎◌, IfErr, IfOk, None, Some, map};
ghost use Rattle.toml.specs.Errors.{IsMemory};
ghost use Rattle.toml.specs.View.{table_view};
ghost use Rattle.book_grammar.specs.BookForm.{IsOffer};
ghost use Rattle.book_grammar.specs.BookLines.{supply_excess};
ghost use Rattle.award_file.specs.Award.{IsAward};
ghost use Rattle.award_file.specs.Parts.{award_value, counts, terms_value};
ghost use Rattle.award_file.specs.Reading.{IsFault, IsLimit, IsStated, IsStop, limit_stop, reading, reading_of, stated_terms, terms_excess};
ghost use Rattle.award_file.specs.Walk.{award_fault, terms_of};
ghost use Rattle.award_file.specs.declared.read.AwardStop.TheVariants.{Memory};

mod bidders;
mod categories;
mod field_numbers;
mod fields;
mod price_steps;
mod spectrum_caps;

use crate::caps::SpectrumCap;
use crate::entrants::Entrants;
use crate::{Award, StepTable};
use bidders::read_bidders;
use categories::{Category, read_categories};
use field_numbers::{OTHER_KEY, SUPPLY, TICK, VERSION};
use fields::{broken_top, has_other, number_at};
use limits::{LimitKind, MOST_BIDDERS, MOST_PRICE};
use lots::{LotStop, Supply};
use price_steps::read_steps;
use spectrum_caps::read_caps;
use std::alloc::{AllocError, AllocFailed, Global};
use toml::de::Error;
use toml::value::Table;

/// The keys of the top.
const TOP_KEYS: [&str; 6] = ["version", "tick", "category", "bidder", "step", "cap"];

/// The first version of award files.
const FIRST_VERSION: u64 = 1;

/// The last version of award files.
const LAST_VERSION: u64 = 2;

/// The greatest tick.
const MOST_TICK: u64 = MOST_PRICE;

/// Why bytes aren't an award.
#[derive(Clone, Copy, Debug, PartialEq, Eq)]
pub enum AwardStop {
    /// They aren't TOML.
    Text,
    /// The first broken rule: the number of its field, and the number of the table in its list from 1, or 0 for a field of the top.
    Field {
        /// 1 `version`, 2 `tick`, 3 `category` with 4 `name`, 5 `supply`, 6 `points` and 7 `reserve`, 8 `bidder` with 9 `name`,
        /// 10 `eligibility` and 11 `holding`, 12 `step` with 13 `excess` and 14 `permille`, 15 `cap` with 16 `weight` and 17 `limit`,
        /// 18 a key that has no rule.
        number: u8,
        /// The number of the table, which stops at the end of its type.
        entry: u32,
    },
    /// A quantity that exceeds its limit, with its count, in an award that breaks no rule.
    Limit(LimitKind, u64),
    /// Out of memory.
    Memory,
}

impl From<AllocError> for AwardStop {
    ghost from_gives = { λ _ stop. stop ≡ Memory };

    fn from(_error: AllocError) -> AwardStop {
        AwardStop::Memory
    }
}

impl<T: Drop> From<AllocFailed<T>> for AwardStop {
    ghost from_gives = { λ _ stop. stop ≡ Memory };

    fn from(_error: AllocFailed<T>) -> AwardStop {
        AwardStop::Memory
    }
}

impl From<LotStop> for AwardStop {
    ghost from_gives = { λ lots stop. stop ≡ limit_stop lots };

    fn from(stop: LotStop) -> AwardStop {
        match stop {
            LotStop::Categories(count) => AwardStop::Limit(LimitKind::Categories, count),
            LotStop::Zero(category) => {
                let entry = u32::try_from(category).unwrap_or(u32::MAX);
                AwardStop::Field {
                    number: SUPPLY,
                    entry,
                }
            }
            LotStop::Lots(count) => AwardStop::Limit(LimitKind::Lots, count),
            LotStop::States(count) => AwardStop::Limit(LimitKind::States, count),
            LotStop::Memory => AwardStop::Memory,
        }
    }
}

/// What a table without a broken rule states.
#[derive(Drop)]
struct Parts {
    version: u8,
    tick: u64,
    categories: Vec<Category>,
    thresholds: Vec<(u64, u64)>,
    caps: Vec<SpectrumCap>,
    bidders: Entrants,
}

/// What is made of the parts of an award.
#[derive(Drop)]
struct Made {
    supply: Supply,
    points: Vec<u32>,
    reserves: Vec<u64>,
    steps: StepTable,
}

/// Reads an award: TOML text that breaks no rule and exceeds no limit. The rules are tested in the order of their fields, each
/// table whole before the next, and the limits after them: categories, lots, states, bidders.
pub fn read_award(alloc: Global, bytes: &[u8]) -> Result<Award, AwardStop>
    ensures ok { IfOk result (λ award. reading bytes.now ≡ stated_terms award) }
    ensures err { IfErr result (IsStop (reading bytes.now)) }
{
    match toml::table_from_slice(alloc, bytes) {
        Ok(table) => read_table(alloc, &table),
        Err(error) => Err(stop_of(&error)),
    }
}

/// Why bytes aren't an award, from this error of the reader of TOML. It takes no memory.
fn stop_of(error: &Error) -> AwardStop
    ensures { ((result ≡ AwardStop.Memory) × IsMemory error.now)
        ⊎ ((result ≡ AwardStop.Text) × (IsMemory error.now → ⊥)) }
{
    if error.is_memory() {
        AwardStop::Memory
    } else {
        AwardStop::Text
    }
}

/// Reads the award that a table states.
fn read_table(alloc: Global, table: &Table) -> Result<Award, AwardStop>
    ensures ok { IfOk result (λ award. reading_of (Some (table_view table.now)) ≡ stated_terms award) }
    ensures err { IfErr result (IsStop (reading_of (Some (table_view table.now)))) }
{
    let parts = read_parts(alloc, table)?;
    let award = make_award(alloc, parts)?;
    Ok(award)
}

/// Reads the parts of an award, or finds the first broken rule.
fn read_parts(alloc: Global, table: &Table) -> Result<Parts, AwardStop>
    ensures ok { IfOk result
        (λ parts. (award_fault (table_view table.now) ≡ None)
        × (terms_of (table_view table.now) ≡ terms_value parts)) }
    ensures err { IfErr result (IsFault (award_fault (table_view table.now))) }
{
    let Some(version) = number_at(table, "version", FIRST_VERSION, LAST_VERSION) else {
        return Err(broken_top(VERSION));
    };
    let Some(tick) = number_at(table, "tick", 1, MOST_TICK) else {
        return Err(broken_top(TICK));
    };
    let categories = read_categories(alloc, table)?;
    let bidders = read_bidders(alloc, table, categories.len())?;
    let thresholds = read_steps(alloc, table)?;
    let caps = read_caps(alloc, table, categories.len())?;
    if has_other(table, &TOP_KEYS) {
        return Err(broken_top(OTHER_KEY));
    }
    Ok(Parts {
        version: version as u8,
        tick,
        categories,
        thresholds,
        caps,
        bidders,
    })
}

/// The award of these parts, or the first limit that they exceed.
fn make_award(alloc: Global, parts: Parts) -> Result<Award, AwardStop>
    requires { IsStated (terms_value parts) }
    ensures ok { IfOk result (λ award. (terms_excess (terms_value parts) ≡ None) × (award ≡ terms_value parts)) }
    ensures err { IfErr result (IsLimit (terms_excess (terms_value parts))) }
{
    let made = made_of(alloc, &parts)?;
    Ok(Award::from_parts(
        parts.version,
        made.supply,
        made.points,
        made.reserves,
        made.steps,
        parts.bidders,
        parts.caps,
    ))
}

/// What is made of the parts of an award, or the first limit that they exceed.
fn made_of(alloc: Global, parts: &Parts) -> Result<Made, AwardStop>
    requires { IsStated (terms_value parts.now) }
    ensures ok { IfOk result (λ made. (terms_excess (terms_value parts.now) ≡ None) × IsAward (award_value parts.now made)
        × (award_value parts.now made ≡ terms_value parts.now)) }
    ensures err { IfErr result (IsLimit (terms_excess (terms_value parts.now))) }
{
    let supply = make_supply(alloc, &parts.categories)?;
    let bidders = parts.bidders.count();
    if bidders > MOST_BIDDERS {
        return Err(AwardStop::Limit(LimitKind::Bidders, bidders as u64));
    }
    let points = points_of(alloc, &parts.categories)?;
    let reserves = reserves_of(alloc, &parts.categories)?;
    let steps = StepTable::new(alloc, parts.tick, &parts.thresholds)?;
    Ok(Made {
        supply,
        points,
        reserves,
        steps,
    })
}

/// The supply of the categories, or the first limit that it exceeds.
fn make_supply(alloc: Global, categories: &[Category]) -> Result<Supply, AwardStop>
    requires { IsOffer (counts categories.now) }
    ensures ok { IfOk result
        (λ supply. (supply ≡ counts categories.now) × (supply_excess (counts categories.now) ≡ None)) }
    ensures err { IfErr result (IsLimit (supply_excess (counts categories.now))) }
{
    let counts = counts_of(alloc, categories)?;
    let supply = Supply::new(alloc, &counts)?;
    Ok(supply)
}

/// The lots of each category.
fn counts_of(alloc: Global, categories: &[Category]) -> Result<Vec<u16>, AllocError>
    ensures { IfOk result (λ v. v.items ≡ counts categories.now) }
{
    categories
        .iter()
        .map(|category| category.supply)
        .collect(alloc)
}

/// The points of a lot of each category.
fn points_of(alloc: Global, categories: &[Category]) -> Result<Vec<u32>, AllocError>
    ensures { IfOk result (λ v. v.items ≡ map (λ c. c.points) categories.now) }
{
    categories
        .iter()
        .map(|category| category.points)
        .collect(alloc)
}

/// The reserve of a lot of each category.
fn reserves_of(alloc: Global, categories: &[Category]) -> Result<Vec<u64>, AllocError>
    ensures { IfOk result (λ v. v.items ≡ map (λ c. c.reserve) categories.now) }
{
    categories
        .iter()
        .map(|category| category.reserve)
        .collect(alloc)
}
