// The form of printed prices.
ghost use Rattle.std.specs.Prelude.{◌≡◌, map, string_bytes, Some, None, codes, true, false, if◌then◌else◌};
ghost use Rattle.std.specs.Str.{bytes_eq};
ghost use Rattle.cca_cli.specs.Command.{asked, form_asked, form_with, nothing_asked, one_flag, rounds_asked, two_flags};

use crate::Flags;

/// How prices are printed: as lines, or as one line of JSON.
#[derive(Clone, Copy, Debug)]
pub struct PriceForm {
    /// The lines of the turns are printed too: before the lines of the prices, or as a member of the JSON.
    pub rounds: bool,
    /// The prices are printed as JSON.
    pub json: bool,
}

// As lines, without the turns.
const PLAIN: PriceForm = PriceForm {
    rounds: false,
    json: false,
};

fn form_of_flag(flag: &str) -> Option<PriceForm>
    ensures { result ≡ one_flag flag.now }
{
    let rounds = flag == "--rounds";
    let json = flag == "--json";
    if !(rounds || json) {
        return None;
    }
    Some(PriceForm { rounds, json })
}

fn form_of_flags(first: &str, second: &str) -> Option<PriceForm>
    ensures { result ≡ two_flags first.now second.now }
{
    match (first, second) {
        ("--rounds", "--json") | ("--json", "--rounds") => Some(PriceForm {
            rounds: true,
            json: true,
        }),
        _ => None,
    }
}

// Each flag at most once and in either order.
fn asked_form(flags: &[String]) -> Option<PriceForm>
    ensures { result ≡ form_asked (map string_bytes flags.now) }
{
    match flags {
        [] => Some(PLAIN),
        [flag] => form_of_flag(flag.as_str()),
        [first, second] => form_of_flags(first.as_str(), second.as_str()),
        _ => None,
    }
}

fn rounds_flag(flag: &str) -> Option<PriceForm>
    ensures { result ≡ (if bytes_eq flag.now (codes "--rounds") then Some (form_with true false) else None) }
{
    if flag != "--rounds" {
        return None;
    }
    Some(PriceForm {
        rounds: true,
        json: false,
    })
}

// Only the turns.
fn asked_rounds(flags: &[String]) -> Option<PriceForm>
    ensures { result ≡ rounds_asked (map string_bytes flags.now) }
{
    match flags {
        [] => Some(PLAIN),
        [flag] => rounds_flag(flag.as_str()),
        _ => None,
    }
}

fn asked_nothing(flags: &[String]) -> Option<PriceForm>
    ensures { result ≡ nothing_asked (map string_bytes flags.now) }
{
    match flags {
        [] => Some(PLAIN),
        _ => None,
    }
}

/// The form that the arguments after the files ask for by these flags, or None if they say something else.
pub(crate) fn form_of(flags: Flags, words: &[String]) -> Option<PriceForm>
    ensures { result ≡ asked flags (map string_bytes words.now) }
{
    match flags {
        Flags::None => asked_nothing(words),
        Flags::Rounds => asked_rounds(words),
        Flags::Form => asked_form(words),
    }
}
