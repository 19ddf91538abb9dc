// Laws of the form of logs. Each function here does nothing, and its contract is the law.
ghost use Rattle.std.specs.Prelude.{◌≡◌, ◌≤◌, ℕ, List, length};
ghost use Rattle.std.specs.List.{AllByRecursion};
ghost use Rattle.limits.specs.declared.TheConstants.{MOST_RECORDS};
ghost use Rattle.auction_rules.specs.Lawful.{HasCategories};
ghost use Rattle.auction_rules.specs.Terms.{Terms};
ghost use Rattle.auction_rules.specs.declared.Event.{Event};
ghost use Rattle.log_file.specs.LogForm.{States};
ghost use Rattle.log_file.specs.LogReading.{AreLog, AreTooMany, IsFirstFault, log_records};
ghost use Rattle.log_file.specs.LogText.{IsStatable, log_text};

/// Records have one reading: a record states at most one event, and records are either a log of these events, or have this
/// first faulty record, or are too many, with one value.
pub fn one_reading()
    ensures event { (terms : Terms) (fields : List (List ℕ)) (e f : Event) → States terms fields e
        → States terms fields f → e ≡ f }
    ensures log { (terms : Terms) (rows : List (List (List ℕ))) (events others : List Event)
        → AreLog terms rows events → AreLog terms rows others → events ≡ others }
    ensures fault { (terms : Terms) (rows : List (List (List ℕ))) (m n : ℕ) → IsFirstFault terms rows m
        → IsFirstFault terms rows n → m ≡ n }
    ensures no_fault { (terms : Terms) (rows : List (List (List ℕ))) (events : List Event) (n : ℕ)
        → AreLog terms rows events → IsFirstFault terms rows n → ⊥ }
    ensures not_many { (terms : Terms) (rows : List (List (List ℕ))) (events : List Event) → AreLog terms rows events
        → AreTooMany terms rows → ⊥ }
    ensures few_before { (terms : Terms) (rows : List (List (List ℕ))) (n : ℕ) → IsFirstFault terms rows n
        → AreTooMany terms rows → ⊥ }
{}

/// The packages of a log have the award's number of categories.
pub fn packages_of_log()
    ensures { (terms : Terms) (rows : List (List (List ℕ))) (events : List Event) → AreLog terms rows events
        → AllByRecursion (HasCategories terms) events }
{}

/// The text of events is read as these events, if a record can state each of them and there aren't too many.
pub fn written_log()
    ensures { (terms : Terms) (name : ℕ → List ℕ) (events : List Event) → AllByRecursion (IsStatable terms name) events
        → length events ≤ MOST_RECORDS → AreLog terms (log_records (log_text name events)) events }
{}
