// How far a text has to be read. A record of millions of commas would take hundreds of megabytes, and states nothing from its fifth field on.
ghost use Rattle.std.specs.Prelude.{◌≡◌, ◌≤◌, ◌<◌, ◌+◌, ℕ, take, drop, length};
ghost use Rattle.csv.specs.Machine.{in_field, start_field, step};
ghost use Rattle.csv.specs.Reading.{default_config, is_bom, records, strip_bom};
ghost use Rattle.csv.specs.declared.parser.State.{State};
ghost use Rattle.csv.specs.declared.parser.State.TheVariants as state;
ghost use Rattle.log_file.specs.WideRecords.{At, Ends, ReadsAlike, count_after};

/// The position of the reader of csv among the fields of a record.
#[derive(Clone, Copy)]
enum Place {
    /// After a record, or before the first one.
    Between,
    /// At the first byte of a field after another one.
    Start,
    /// In a field without quotes.
    Plain,
    /// Between the quotes of a field.
    Quoted,
    /// After a quote that may end them.
    Closed,
}

/// What a byte ends.
#[derive(Clone, Copy)]
enum Ended {
    Nothing,
    Field,
    Record,
}

/// What a byte does.
#[derive(Clone, Copy)]
struct Effect {
    place: Place,
    ended: Ended,
}

const FIELDS: u8 = 4;

/// The text up to the first record that has a fifth field, and no further than to the field's start, or all of it if no record
/// has one.
pub(crate) fn up_to_wide_record(bytes: &[u8]) -> &[u8]
    ensures { ReadsAlike (records default_config (strip_bom result.now)) (records default_config (strip_bom bytes.now)) }
{
    let mark = mark_len(bytes);
    &bytes[..mark + wide_end(&bytes[mark..])]
}

/// How long the byte order mark at the beginning is, and 0, if there is none.
fn mark_len(bytes: &[u8]) -> usize
    ensures within { result ≤ length bytes.now }
    ensures behind { strip_bom bytes.now ≡ drop result bytes.now }
    ensures kept { (k : ℕ) → strip_bom (take (result + k) bytes.now) ≡ take k (drop result bytes.now) }
{
    match bytes {
        [a, b, c, ..] if is_mark(*a, *b, *c) => 3,
        _ => 0,
    }
}

/// Whether these bytes are the byte order mark.
fn is_mark(a: u8, b: u8, c: u8) -> bool
    ensures { result ≡ is_bom a b c }
{
    a == 0xEF && b == 0xBB && c == 0xBF
}

/// Where the first fifth field of a record begins, and the length of the text, if no record has one.
fn wide_end(text: &[u8]) -> usize
    ensures within { result ≤ length text.now }
    ensures alike { ReadsAlike (records default_config (take result text.now)) (records default_config text.now) }
{
    let mut place = Place::Between;
    let mut ended = 0;
    let mut at = 0;
    while at < text.len() {
        let effect = effect_at(place, text[at]);
        place = effect.place;
        ended = ended_after(effect.ended, ended);
        at += 1;
        if ended == FIELDS {
            return at;
        }
    }
    text.len()
}

/// How many fields of a record have ended, after a byte that ends this.
fn ended_after(what: Ended, ended: u8) -> u8
    requires { ended < FIELDS }
    ensures { result ≡ count_after what ended }
{
    match what {
        Ended::Nothing => ended,
        Ended::Field => ended + 1,
        Ended::Record => 0,
    }
}

/// What a byte does at this place.
fn effect_at(place: Place, byte: u8) -> Effect
    ensures { (s : State) → At place s
        → At result.place (step default_config s byte).0 × Ends result.ended (step default_config s byte).1 }
{
    match place {
        Place::Between => first_byte(byte),
        Place::Start => opening_byte(byte),
        Place::Plain => plain_byte(byte),
        Place::Quoted => quoted_byte(byte),
        Place::Closed => closing_byte(byte),
    }
}

fn first_byte(byte: u8) -> Effect
    ensures start { At result.place (step default_config state.StartRecord byte).0
        × Ends result.ended (step default_config state.StartRecord byte).1 }
    ensures after { At result.place (step default_config state.AfterCr byte).0
        × Ends result.ended (step default_config state.AfterCr byte).1 }
{
    match byte {
        b'\r' | b'\n' => Effect {
            place: Place::Between,
            ended: Ended::Nothing,
        },
        _ => opening_byte(byte),
    }
}

fn opening_byte(byte: u8) -> Effect
    ensures { At result.place (start_field default_config byte).0 × Ends result.ended (start_field default_config byte).1 }
{
    match byte {
        b'"' => Effect {
            place: Place::Quoted,
            ended: Ended::Nothing,
        },
        _ => plain_byte(byte),
    }
}

fn plain_byte(byte: u8) -> Effect
    ensures { At result.place (in_field default_config byte).0 × Ends result.ended (in_field default_config byte).1 }
{
    match byte {
        b',' => Effect {
            place: Place::Start,
            ended: Ended::Field,
        },
        b'\r' | b'\n' => Effect {
            place: Place::Between,
            ended: Ended::Record,
        },
        _ => Effect {
            place: Place::Plain,
            ended: Ended::Nothing,
        },
    }
}

fn quoted_byte(byte: u8) -> Effect
    ensures { At result.place (step default_config state.InQuoted byte).0
        × Ends result.ended (step default_config state.InQuoted byte).1 }
{
    match byte {
        b'"' => Effect {
            place: Place::Closed,
            ended: Ended::Nothing,
        },
        _ => Effect {
            place: Place::Quoted,
            ended: Ended::Nothing,
        },
    }
}

fn closing_byte(byte: u8) -> Effect
    ensures { At result.place (step default_config state.AfterQuote byte).0
        × Ends result.ended (step default_config state.AfterQuote byte).1 }
{
    match byte {
        b'"' => Effect {
            place: Place::Quoted,
            ended: Ended::Nothing,
        },
        _ => plain_byte(byte),
    }
}
