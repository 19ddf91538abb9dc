// What is true for the definitions of a run, regardless of who runs it.
ghost use Rattle.std.specs.Prelude.{◌≡◌, ◌<◌, ◌≤◌, ◌++◌, ◌∷◌, ℕ, Bool, false, List, [], Option, codes, length};
ghost use Rattle.auction_model.specs.Book.{Book};
ghost use Rattle.cert_soundness.specs.Tests.{bidders_of};
ghost use Rattle.core_laws.specs.Weights.{FewWin, ManyWin};
ghost use Rattle.limits.specs.declared.TheConstants.{MOST_WINNERS};
ghost use Rattle.auction_rules.specs.Terms.{Terms};
ghost use Rattle.auction_rules.specs.declared.Event.{Event};
ghost use Rattle.core_laws.specs.Winners.{winners_in};
ghost use Rattle.cca_cli.specs.Command.{audit, award, check, form_with, place, place_check, price, review, weigh, weigh_check};
ghost use Rattle.cca_cli.specs.Outcome.{Outcome};
ghost use Rattle.cca_cli.specs.declared.price_form.PriceForm.{PriceForm};
ghost use Rattle.cca_cli.specs.declared.status.Status.TheVariants.{Done};
ghost use Rattle.cca_commands.specs.Gives.{FilesGive, Gives, cert_file, ones};
ghost use Rattle.cca_run.specs.Headline.{CanBeAwarded, IsAuction, IsAudited, IsAwarded, IsDoneOrLimited};
ghost use Rattle.cca_run.specs.Later.{HoldsCert};
ghost use Rattle.cca_run.specs.Verdicts.{IsChecked, IsPlaceChecked, IsPlaced, IsPriced, IsReviewed, IsWeighChecked, IsWeighed};

use cca_commands::{
    bidders_of_book, bids_of_book, book_in_order, book_market, book_of_award, core_outcome,
    one_book, one_cert, one_edits, one_outcome_json, one_place_cert, one_place_text,
    one_place_verdict, one_price_text, one_pricing, one_reading, one_review_text, one_run_text,
    one_slots, one_verdict, one_weighing, packages_of_log, plain_outcome, short_place_text,
    short_text, slot_market, sound_places, sound_yes, text_of_cert, text_of_place_cert,
    vickrey_prices, winning_choice,
};

/// The arguments and the bytes of the files determine at most one status and one printed text. So a run ends with a decided
/// status exactly if they determine it.
pub fn one_outcome()
    ensures { (words : List (List ℕ)) (file : List ℕ → Option (List ℕ)) (o p : Outcome) → Gives words file o
        → Gives words file p
        → (o.status ≡ p.status) × (o.printed ≡ p.printed) }
{
    one_book();
    book_of_award();
    packages_of_log();
    one_reading();
    one_weighing();
    one_cert();
    one_verdict();
    sound_yes();
    winning_choice();
    book_market();
    vickrey_prices();
    core_outcome();
    one_price_text();
    one_run_text();
    one_outcome_json();
    one_slots();
    slot_market();
    one_place_cert();
    one_place_verdict();
    sound_places();
    one_pricing();
    one_place_text();
    one_edits();
    one_review_text();
}

/// With weights of 1 too many win exactly if more than six do. The choice has a number for each bidder.
pub fn limit_of_ones()
    ensures few { (book : Book) (z : List ℕ) → length z ≡ bidders_of book → winners_in z ≤ MOST_WINNERS
        → FewWin z (ones book) }
    ensures many { (book : Book) (z : List ℕ) → length z ≡ bidders_of book → ManyWin z (ones book)
        → MOST_WINNERS < winners_in z }
{}

/// What `price` writes, `check` accepts. If the certificate's file was empty before and now contains the text that `price`
/// appended, and the book's file is unchanged, `check` ends with Done, and nothing else. Without flags it prints `yes` and then
/// what `price` printed.
pub fn written_cert_passes()
    ensures passes { (book cert : List ℕ) (form : PriceForm) (file later : List ℕ → Option (List ℕ)) (o p : Outcome)
        → FilesGive (price book cert form) file o → HoldsCert (book ∷ []) cert file later o
        → FilesGive (check book cert) later p → p.status ≡ Done }
    ensures prints { (book cert : List ℕ) (file later : List ℕ → Option (List ℕ)) (o p : Outcome)
        → FilesGive (price book cert (form_with false false)) file o → HoldsCert (book ∷ []) cert file later o
        → FilesGive (check book cert) later p
        → p.printed ≡ codes "yes\n" ++ o.printed }
{
    one_book();
    one_cert();
    text_of_cert();
    short_text();
    one_verdict();
    one_price_text();
}

/// What `weigh` writes, `weigh-check` accepts by the same weights, just like `check` accepts what `price` writes.
pub fn weighed_cert_passes()
    ensures passes { (book weights cert : List ℕ) (form : PriceForm) (file later : List ℕ → Option (List ℕ))
        (o p : Outcome)
        → FilesGive (weigh book weights cert form) file o → HoldsCert (book ∷ weights ∷ []) cert file later o
        → FilesGive (weigh_check book weights cert) later p → p.status ≡ Done }
    ensures prints { (book weights cert : List ℕ) (file later : List ℕ → Option (List ℕ)) (o p : Outcome)
        → FilesGive (weigh book weights cert (form_with false false)) file o
        → HoldsCert (book ∷ weights ∷ []) cert file later o → FilesGive (weigh_check book weights cert) later p
        → p.printed ≡ codes "yes\n" ++ o.printed }
{
    one_book();
    one_weighing();
    one_cert();
    text_of_cert();
    short_text();
    one_verdict();
    one_price_text();
}

/// What `place` writes, `place-check` accepts. With `--rounds` what `place` printed has the lines of the turns before the placement.
pub fn placed_cert_passes()
    ensures passes { (slots cert : List ℕ) (rounds : Bool) (file later : List ℕ → Option (List ℕ)) (o p : Outcome)
        → FilesGive (place slots cert rounds) file o → HoldsCert (slots ∷ []) cert file later o
        → FilesGive (place_check slots cert) later p → p.status ≡ Done }
    ensures prints { (slots cert : List ℕ) (file later : List ℕ → Option (List ℕ)) (o p : Outcome)
        → FilesGive (place slots cert false) file o → HoldsCert (slots ∷ []) cert file later o
        → FilesGive (place_check slots cert) later p
        → p.printed ≡ codes "yes\n" ++ o.printed }
{
    one_slots();
    one_place_cert();
    text_of_place_cert();
    short_place_text();
    one_place_verdict();
    one_place_text();
}

/// What a run that is done shows about its files, only by definitions. `audit`: they state an auction, and the certificate has
/// its outcome. `award`: they state an auction, and the appended text is a certificate of its outcome.
pub fn headline()
    ensures audit { (file : List ℕ → Option (List ℕ)) (terms log cert : List ℕ) (o : Outcome)
        → FilesGive (audit terms log cert) file o → o.status ≡ Done
        → IsAudited file terms log cert o.printed × (o.appended ≡ []) }
    ensures award { (file : List ℕ → Option (List ℕ)) (terms log cert : List ℕ) (form : PriceForm) (o : Outcome)
        → FilesGive (award terms log cert form) file o → o.status ≡ Done
        → (text : List ℕ) × IsAwarded file terms log text × (o.appended ≡ cert_file text ∷ []) }
{
    plain_outcome();
    bidders_of_book();
    bids_of_book();
    book_in_order();
    packages_of_log();
    book_of_award();
    short_text();
}

/// What a run of each other command that is done shows about its files, only by definitions. A checker: what the certificate
/// shows is right. A command that prices: the appended text is a certificate that passes all tests. A review: the winners after
/// each edit.
pub fn verdicts()
    ensures checked { (file : List ℕ → Option (List ℕ)) (book cert : List ℕ) (o : Outcome)
        → FilesGive (check book cert) file o → o.status ≡ Done
        → IsChecked file book cert o.printed }
    ensures weigh_checked { (file : List ℕ → Option (List ℕ)) (book weights cert : List ℕ) (o : Outcome)
        → FilesGive (weigh_check book weights cert) file o → o.status ≡ Done
        → IsWeighChecked file book weights cert o.printed }
    ensures place_checked { (file : List ℕ → Option (List ℕ)) (slots cert : List ℕ) (o : Outcome)
        → FilesGive (place_check slots cert) file o → o.status ≡ Done
        → IsPlaceChecked file slots cert o.printed }
    ensures priced { (file : List ℕ → Option (List ℕ)) (book cert : List ℕ) (form : PriceForm) (o : Outcome)
        → FilesGive (price book cert form) file o → o.status ≡ Done
        → (text : List ℕ) × IsPriced file book text × (o.appended ≡ cert_file text ∷ []) }
    ensures weighed { (file : List ℕ → Option (List ℕ)) (book weights cert : List ℕ) (form : PriceForm) (o : Outcome)
        → FilesGive (weigh book weights cert form) file o → o.status ≡ Done
        → (text : List ℕ) × IsWeighed file book weights text × (o.appended ≡ cert_file text ∷ []) }
    ensures placed { (file : List ℕ → Option (List ℕ)) (slots cert : List ℕ) (rounds : Bool) (o : Outcome)
        → FilesGive (place slots cert rounds) file o → o.status ≡ Done
        → (text : List ℕ) × IsPlaced file slots text × (o.appended ≡ cert_file text ∷ []) }
    ensures reviewed { (file : List ℕ → Option (List ℕ)) (book edits : List ℕ) (o : Outcome)
        → FilesGive (review book edits) file o → o.status ≡ Done
        → IsReviewed file book edits o.printed }
{
    plain_outcome();
}

/// What `award` writes, `audit` accepts. If the certificate's file was empty before and now contains the text that `award`
/// appended, and the files of the award and the log are unchanged, `audit` ends with Done, and nothing else. Without flags it
/// prints `yes` and then what `award` printed.
pub fn awarded_cert_passes()
    ensures passes { (terms log cert : List ℕ) (form : PriceForm) (file later : List ℕ → Option (List ℕ))
        (o p : Outcome)
        → FilesGive (award terms log cert form) file o → HoldsCert (terms ∷ log ∷ []) cert file later o
        → FilesGive (audit terms log cert) later p → p.status ≡ Done }
    ensures prints { (terms log cert : List ℕ) (file later : List ℕ → Option (List ℕ)) (o p : Outcome)
        → FilesGive (award terms log cert (form_with false false)) file o
        → HoldsCert (terms ∷ log ∷ []) cert file later o → FilesGive (audit terms log cert) later p
        → p.printed ≡ codes "yes\n" ++ o.printed }
{
    one_reading();
    one_cert();
    text_of_cert();
    short_text();
    one_verdict();
    one_price_text();
    book_of_award();
    packages_of_log();
}

/// For every auction, whose log is complete, `award` gives Done, or a limit stops it: of bytes, of rounds or of a price, or of winners.
pub fn complete_log_ends()
    ensures { (file : List ℕ → Option (List ℕ)) (terms log cert : List ℕ) (form : PriceForm) (t : Terms)
        (lines : List Event) (o : Outcome) → IsAuction file terms log t lines
        → FilesGive (award terms log cert form) file o → IsDoneOrLimited o.status }
{
    one_reading();
}

/// `award` ends with Done exactly if the award and the log state an auction within the limits.
pub fn complete_log_is_awarded()
    ensures done { (file : List ℕ → Option (List ℕ)) (terms log cert : List ℕ) (form : PriceForm) (o : Outcome)
        → CanBeAwarded file terms log → FilesGive (award terms log cert form) file o → o.status ≡ Done }
    ensures only { (file : List ℕ → Option (List ℕ)) (terms log cert : List ℕ) (form : PriceForm) (o : Outcome)
        → FilesGive (award terms log cert form) file o → o.status ≡ Done → CanBeAwarded file terms log }
{
    one_reading();
    packages_of_log();
    book_of_award();
    book_market();
    winning_choice();
}
