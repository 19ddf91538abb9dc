// The reader of log files.
ghost use Rattle.std.specs.Prelude.{◌≡◌, ◌≤◌, ◌<◌, ℕ, suc, List, [], length, Some, Err, IfErr, IfOk, OnOk, if◌then◌else◌};
ghost use Rattle.limits.specs.declared.TheConstants.{MOST_RECORDS};
ghost use Rattle.csv.specs.Reading.{error_kind, stops_reader};
ghost use Rattle.csv.specs.Records.{fields_of};
ghost use Rattle.log_file.specs.LogForm.{States};
ghost use Rattle.log_file.specs.LogReading.{AreLog, IsStop, log_records};
ghost use Rattle.log_file.specs.RecordsLeft.{HasLeft, Takes};
ghost use Rattle.log_file.specs.Statements.{IsUntaken, untaken_stop};

use crate::record::read_event;
use crate::wide::up_to_wide_record;
use crate::{Events, LimitKind, LogStop};
use auction_rules::Event;
use award_file::Award;
use csv::{ByteRecord, Error, ErrorKind, Reader, ReaderBuilder};
use limits::MOST_RECORDS;
use std::alloc::Global;

/// Why a record isn't taken. Memory has no part in it.
#[derive(Clone, Copy)]
enum RecordFault {
    /// It states no event. It has this number, counted from 1.
    NoEvent(u64),
    /// There are as many before it as a log may have.
    TooMany,
}

impl From<RecordFault> for LogStop {
    ghost from_gives = { λ fault stop. stop ≡ untaken_stop fault };

    fn from(fault: RecordFault) -> LogStop {
        match fault {
            RecordFault::NoEvent(number) => LogStop::Form(number),
            RecordFault::TooMany => LogStop::Limit(LimitKind::Records, MOST_RECORDS + 1),
        }
    }
}

/// Reads a log: records of comma-separated fields. Each states an event by the names and the categories of the award. Records
/// are counted from 1, without blank lines. The reader stops at the first record that states no event, at the record after the
/// greatest number of them, or when out of memory. A name that the award doesn't have is a stranger's.
pub fn read_log(alloc: Global, bytes: &[u8], award: &Award) -> Result<Events, LogStop>
    ensures ok { IfOk result (AreLog award.now (log_records bytes.now)) }
    ensures err { IfErr result (IsStop award.now (log_records bytes.now)) }
{
    read_text(alloc, up_to_wide_record(bytes), award)
}

/// Reads a text to its end.
fn read_text(alloc: Global, bytes: &[u8], award: &Award) -> Result<Events, LogStop>
    ensures ok { IfOk result (AreLog award.now (log_records bytes.now)) }
    ensures err { IfErr result (IsStop award.now (log_records bytes.now)) }
{
    let mut reader = records_of(alloc, bytes);
    let mut events = Events::new(alloc);
    read_records(alloc, &mut reader, award, &mut events)?;
    Ok(events)
}

/// A reader of the records of a text.
fn records_of(alloc: Global, bytes: &[u8]) -> Reader<&[u8]>
    ensures { HasLeft (λ s. Some s.now) result (log_records bytes.now) }
{
    ReaderBuilder::new()
        .has_headers(false)
        .flexible(true)
        .from_reader(alloc, bytes)
}

/// Reads all records that the reader has left into the empty list.
fn read_records(
    alloc: Global,
    reader: &mut Reader<&[u8]>,
    award: &Award,
    events: &mut Events,
) -> Result<(), LogStop>
    requires { events.old ≡ [] }
    ensures ok { OnOk result
        ((rows : List (List (List ℕ))) → HasLeft (λ s. Some s.now) reader.old rows → AreLog award.now rows events.new) }
    ensures err { IfErr result
        (λ stop. (rows : List (List (List ℕ))) → HasLeft (λ s. Some s.now) reader.old rows
        → IsStop award.now rows stop) }
{
    let mut row = ByteRecord::new(alloc);
    while take_record(reader, &mut row, number_after(events))? {
        let event = event_after(events.items().len() as u64, award, &row)?;
        events.push(event)?;
    }
    Ok(())
}

/// The event that a record states after that many that state events. It takes no memory, so out of memory hides no fault of a record.
fn event_after(before: u64, award: &Award, row: &ByteRecord) -> Result<Event, RecordFault>
    requires { before ≤ MOST_RECORDS }
    ensures ok { IfOk result
        (λ event. (before < MOST_RECORDS) × States award.now (fields_of row.now) event) }
    ensures err { IfErr result (IsUntaken award.now (fields_of row.now) before) }
{
    if before == MOST_RECORDS {
        return Err(RecordFault::TooMany);
    }
    match read_event(award, row) {
        Some(event) => Ok(event),
        None => Err(RecordFault::NoEvent(before + 1)),
    }
}

/// The number of the record that follows the records of these events.
fn number_after(events: &Events) -> u64
    ensures { result ≡ suc (length events.now) }
{
    events.items().len() as u64 + 1
}

/// Reads the next record, which has this number, into `row`, and says whether there is one.
fn take_record(
    reader: &mut Reader<&[u8]>,
    row: &mut ByteRecord,
    number: u64,
) -> Result<bool, LogStop>
    ensures ok { IfOk result
        (λ found. (rows : List (List (List ℕ))) → HasLeft (λ s. Some s.now) reader.old rows
        → Takes (λ s. Some s.now) reader.new rows found (fields_of row.new)) }
    ensures err { IfErr result
        (λ stop. (rows : List (List (List ℕ))) → HasLeft (λ s. Some s.now) reader.old rows
        → stop ≡ LogStop.Memory) }
{
    match reader.read_byte_record(row) {
        Ok(found) => Ok(found),
        Err(error) => Err(stop_of(&error, number)),
    }
}

/// Why an error stops the reader at the record of this number. Reading a slice never fails, but no clause states it.
fn stop_of(error: &Error, number: u64) -> LogStop
    ensures { result ≡ (if stops_reader (error_kind error.now) then LogStop.Memory else LogStop.Form number) }
{
    match error.kind() {
        ErrorKind::Io(_) => LogStop::Memory,
        ErrorKind::OutOfMemory => LogStop::Memory,
        ErrorKind::Utf8 { .. } => LogStop::Form(number),
        ErrorKind::UnequalLengths { .. } => LogStop::Form(number),
        ErrorKind::Serialize(_) => LogStop::Form(number),
        ErrorKind::Deserialize { .. } => LogStop::Form(number),
    }
}
