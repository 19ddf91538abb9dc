// The work of each command.
ghost use Rattle.std.specs.Prelude.{◌≡◌, ◌⊎◌, ℕ, List, [], ◌∷◌, Err, IsTrue};
ghost use Rattle.auction_model.specs.Prices.{AreWeights};
ghost use Rattle.cert_soundness.specs.Tests.{bidders_of};
ghost use Rattle.cca_cli.specs.Command.{win, weigh, weigh_check, auction, award, audit, check, place, place_check, price, review};
ghost use Rattle.cca_cli.specs.Words.{KnowsFiles, command_value};
ghost use Rattle.cca_cli.specs.declared.status.FileKind.TheVariants.{Book, Cert, Edits, Log, Weights};
ghost use Rattle.cca_cli.specs.declared.status.Status.{Status};
ghost use Rattle.limits.specs.declared.TheConstants.{LOG_BYTES, WEIGHTS_BYTES};
ghost use Rattle.cca_cli.specs.Answers.{LogAnswers, WeightsAnswers};
ghost use Rattle.cca_base.specs.Files.{Folder};
ghost use Rattle.cca_cli.specs.Outcome.{stops, value};
ghost use Rattle.cca_cli.specs.Reading.{InputStops, IsRead, OnlyLoads};
ghost use Rattle.auction_rules.specs.declared.Event.{Event};
ghost use Rattle.cca_commands.specs.Gives.{AuctionGives, EditsGive, PlaceCertGives, PlaceVerdictGives, PriceGives, ReviewGives, WinGives, ones};
ghost use Rattle.cca_commands.specs.Works.{CertWorks, HasBook, HasLogged, IsWork, Works, WorksFrom, bare};

use crate::auction::{logged_book, replayed};
use crate::checked::check_input;
use crate::made::made;
use crate::placing::{place_verdict, placed};
use crate::pricing::{ones_of, price_alike, price_weighed};
use crate::reviewing::reviewed;
use crate::verdict::accepted;
use crate::win::win_of;
use crate::work::{Stop, Work};
use award_file::Award;
use bid_book::BidBook;
use cca_base::Files;
use cca_cli::{
    AwardInput, BookInput, Command, EditsInput, Kind, LogInput, PlaceCertInput, PriceForm,
    SlotsInput, WeightsInput, read_input,
};
use log_file::packages_of_log;
use slot_places::Slots;
use std::alloc::Global;

// What the file of a certificate gives whose book and weights are at hand.
fn checked<F: Files>(
    alloc: Global,
    files: &mut F,
    cert: &str,
    book: &BidBook,
    weights: &[u32],
) -> Result<Work, Stop>
    requires known { IsTrue ((F.folder files.old).knows cert.now) }
    requires weights { AreWeights (bidders_of book.now) weights.now }
    ensures { CertWorks book.now weights.now cert.now (F.folder files.old) (F.folder files.new) result }
{
    let facts = check_input(alloc, files, cert, book, weights)?;
    accepted(alloc, book, &facts)
}

// What `checked` gives by a weight of 1 for each bidder.
fn checked_alike<F: Files>(
    alloc: Global,
    files: &mut F,
    cert: &str,
    book: &BidBook,
) -> Result<Work, Stop>
    requires { IsTrue ((F.folder files.old).knows cert.now) }
    ensures { CertWorks book.now (ones book.now) cert.now (F.folder files.old) (F.folder files.new) result }
{
    let weights = ones_of(alloc, book)?;
    checked(alloc, files, cert, book, &weights)
}

// The book that the log of an award leads to.
fn logged_after<F: Files>(
    alloc: Global,
    files: &mut F,
    log: &str,
    award: Award,
) -> Result<BidBook, Stop>
    requires { IsTrue ((F.folder files.old).knows log.now) }
    ensures out { ((s : Status) × (result ≡ Err (bare s))
        × InputStops Log LOG_BYTES (λ bytes x. LogAnswers award bytes (stops x)) log.now (F.folder files.old) (F.folder files.new) s)
        ⊎ ((events : List Event)
        × IsRead LOG_BYTES (λ bytes v. LogAnswers award bytes (value v)) log.now (F.folder files.old) (F.folder files.new) events
        × HasBook award events result) }
    ensures loads { OnlyLoads log.now (F.folder files.old) (F.folder files.new) }
{
    let events = read_input(alloc, files, log, &LogInput { award: &award })?;
    packages_of_log();
    logged_book(alloc, award, &events)
}

// The book that an award and its log lead to, the first inputs of `award` and of `audit`.
fn logged<F: Files>(alloc: Global, files: &mut F, terms: &str, log: &str) -> Result<BidBook, Stop>
    requires terms { IsTrue ((F.folder files.old).knows terms.now) }
    requires log { IsTrue ((F.folder files.old).knows log.now) }
    ensures { HasLogged terms.now log.now (F.folder files.old) (F.folder files.new) result }
{
    let award = read_input(alloc, files, terms, &AwardInput)?;
    logged_after(alloc, files, log, award)
}

fn winners(alloc: Global, book: &BidBook) -> Result<Work, Stop>
    ensures { IsWork (WinGives book.now) [] result }
{
    let printed = win_of(alloc, book)?;
    Ok(Work {
        printed,
        appended: Vec::new(alloc),
    })
}

fn win_work<F: Files>(alloc: Global, files: &mut F, book: &str) -> Result<Work, Stop>
    requires { IsTrue ((F.folder files.old).knows book.now) }
    ensures { Works (win book.now) (F.folder files.old) (F.folder files.new) result }
{
    let book = read_input(alloc, files, book, &BookInput)?;
    winners(alloc, &book)
}

fn price_work<F: Files>(
    alloc: Global,
    files: &mut F,
    book: &str,
    form: PriceForm,
) -> Result<Work, Stop>
    requires { IsTrue ((F.folder files.old).knows book.now) }
    ensures { (cert : List ℕ) → Works (price book.now cert form) (F.folder files.old) (F.folder files.new) result }
{
    let book = read_input(alloc, files, book, &BookInput)?;
    price_alike(alloc, &book, form)
}

fn check_work<F: Files>(alloc: Global, files: &mut F, book: &str, cert: &str) -> Result<Work, Stop>
    requires book { IsTrue ((F.folder files.old).knows book.now) }
    requires cert { IsTrue ((F.folder files.old).knows cert.now) }
    ensures { Works (check book.now cert.now) (F.folder files.old) (F.folder files.new) result }
{
    let book = read_input(alloc, files, book, &BookInput)?;
    checked_alike(alloc, files, cert, &book)
}

// What the weights give of the bidders of a book.
fn weighed<F: Files>(
    alloc: Global,
    files: &mut F,
    weights: &str,
    book: &BidBook,
    form: PriceForm,
) -> Result<Work, Stop>
    requires { IsTrue ((F.folder files.old).knows weights.now) }
    ensures out { ((s : Status) × (result ≡ Err (bare s))
        × InputStops Weights WEIGHTS_BYTES (λ bytes x. WeightsAnswers book.now bytes (stops x)) weights.now (F.folder files.old) (F.folder files.new) s)
        ⊎ ((w : List ℕ)
        × IsRead WEIGHTS_BYTES (λ bytes v. WeightsAnswers book.now bytes (value v)) weights.now (F.folder files.old) (F.folder files.new) w
        × IsWork (PriceGives book.now w form) (Cert ∷ []) result) }
    ensures loads { OnlyLoads weights.now (F.folder files.old) (F.folder files.new) }
{
    let weights = read_input(alloc, files, weights, &WeightsInput { book })?;
    price_weighed(alloc, book, weights.items(), form)
}

fn weigh_work<F: Files>(
    alloc: Global,
    files: &mut F,
    book: &str,
    weights: &str,
    form: PriceForm,
) -> Result<Work, Stop>
    requires book { IsTrue ((F.folder files.old).knows book.now) }
    requires weights { IsTrue ((F.folder files.old).knows weights.now) }
    ensures { (cert : List ℕ)
        → Works (weigh book.now weights.now cert form) (F.folder files.old) (F.folder files.new) result }
{
    let book = read_input(alloc, files, book, &BookInput)?;
    weighed(alloc, files, weights, &book, form)
}

// What the weights of the bidders of a book give, and a certificate after them.
fn weigh_checked<F: Files>(
    alloc: Global,
    files: &mut F,
    weights: &str,
    cert: &str,
    book: &BidBook,
) -> Result<Work, Stop>
    requires weights { IsTrue ((F.folder files.old).knows weights.now) }
    requires cert { IsTrue ((F.folder files.old).knows cert.now) }
    ensures { ((s : Status) × (result ≡ Err (bare s))
        × InputStops Weights WEIGHTS_BYTES (λ bytes x. WeightsAnswers book.now bytes (stops x)) weights.now (F.folder files.old) (F.folder files.new) s
        × OnlyLoads weights.now (F.folder files.old) (F.folder files.new))
        ⊎ ((w : List ℕ) × (mid : Folder)
        × IsRead WEIGHTS_BYTES (λ bytes v. WeightsAnswers book.now bytes (value v)) weights.now (F.folder files.old) mid w
        × OnlyLoads weights.now (F.folder files.old) mid
        × CertWorks book.now w cert.now mid (F.folder files.new) result) }
{
    let weights = read_input(alloc, files, weights, &WeightsInput { book })?;
    checked(alloc, files, cert, book, weights.items())
}

fn weigh_check_work<F: Files>(
    alloc: Global,
    files: &mut F,
    book: &str,
    weights: &str,
    cert: &str,
) -> Result<Work, Stop>
    requires book { IsTrue ((F.folder files.old).knows book.now) }
    requires weights { IsTrue ((F.folder files.old).knows weights.now) }
    requires cert { IsTrue ((F.folder files.old).knows cert.now) }
    ensures { Works (weigh_check book.now weights.now cert.now) (F.folder files.old) (F.folder files.new) result }
{
    let book = read_input(alloc, files, book, &BookInput)?;
    weigh_checked(alloc, files, weights, cert, &book)
}

// What the log of an award gives.
fn replayed_after<F: Files>(
    alloc: Global,
    files: &mut F,
    log: &str,
    award: Award,
) -> Result<Work, Stop>
    requires { IsTrue ((F.folder files.old).knows log.now) }
    ensures out { ((s : Status) × (result ≡ Err (bare s))
        × InputStops Log LOG_BYTES (λ bytes x. LogAnswers award bytes (stops x)) log.now (F.folder files.old) (F.folder files.new) s)
        ⊎ ((events : List Event)
        × IsRead LOG_BYTES (λ bytes v. LogAnswers award bytes (value v)) log.now (F.folder files.old) (F.folder files.new) events
        × IsWork (AuctionGives award events) (Book ∷ []) result) }
    ensures loads { OnlyLoads log.now (F.folder files.old) (F.folder files.new) }
{
    let log = read_input(alloc, files, log, &LogInput { award: &award })?;
    packages_of_log();
    replayed(alloc, award, &log)
}

fn auction_work<F: Files>(
    alloc: Global,
    files: &mut F,
    award: &str,
    log: &str,
) -> Result<Work, Stop>
    requires award { IsTrue ((F.folder files.old).knows award.now) }
    requires log { IsTrue ((F.folder files.old).knows log.now) }
    ensures { (book : List ℕ)
        → Works (auction award.now log.now book) (F.folder files.old) (F.folder files.new) result }
{
    let award = read_input(alloc, files, award, &AwardInput)?;
    replayed_after(alloc, files, log, award)
}

fn award_work<F: Files>(
    alloc: Global,
    files: &mut F,
    terms: &str,
    log: &str,
    form: PriceForm,
) -> Result<Work, Stop>
    requires terms { IsTrue ((F.folder files.old).knows terms.now) }
    requires log { IsTrue ((F.folder files.old).knows log.now) }
    ensures { (cert : List ℕ)
        → Works (award terms.now log.now cert form) (F.folder files.old) (F.folder files.new) result }
{
    let book = logged(alloc, files, terms, log)?;
    price_alike(alloc, &book, form)
}

fn audit_work<F: Files>(
    alloc: Global,
    files: &mut F,
    terms: &str,
    log: &str,
    cert: &str,
) -> Result<Work, Stop>
    requires terms { IsTrue ((F.folder files.old).knows terms.now) }
    requires log { IsTrue ((F.folder files.old).knows log.now) }
    requires cert { IsTrue ((F.folder files.old).knows cert.now) }
    ensures { Works (audit terms.now log.now cert.now) (F.folder files.old) (F.folder files.new) result }
{
    let book = logged(alloc, files, terms, log)?;
    checked_alike(alloc, files, cert, &book)
}

fn place_work<F: Files>(
    alloc: Global,
    files: &mut F,
    slots: &str,
    rounds: bool,
) -> Result<Work, Stop>
    requires { IsTrue ((F.folder files.old).knows slots.now) }
    ensures { (cert : List ℕ)
        → Works (place slots.now cert rounds) (F.folder files.old) (F.folder files.new) result }
{
    let slots = read_input(alloc, files, slots, &SlotsInput)?;
    placed(alloc, &slots, rounds)
}

// What the certificate of a placement gives whose slots are at hand.
fn checked_places<F: Files>(
    alloc: Global,
    files: &mut F,
    cert: &str,
    slots: &Slots,
) -> Result<Work, Stop>
    requires { IsTrue ((F.folder files.old).knows cert.now) }
    ensures { WorksFrom Cert cert.now (λ content. PlaceCertGives slots.now content (PlaceVerdictGives slots.now))
        (F.folder files.old) (F.folder files.new) result }
{
    let cert = read_input(alloc, files, cert, &PlaceCertInput { slots })?;
    place_verdict(alloc, slots, &cert)
}

fn place_check_work<F: Files>(
    alloc: Global,
    files: &mut F,
    slots: &str,
    cert: &str,
) -> Result<Work, Stop>
    requires slots { IsTrue ((F.folder files.old).knows slots.now) }
    requires cert { IsTrue ((F.folder files.old).knows cert.now) }
    ensures { Works (place_check slots.now cert.now) (F.folder files.old) (F.folder files.new) result }
{
    let slots = read_input(alloc, files, slots, &SlotsInput)?;
    checked_places(alloc, files, cert, &slots)
}

// What the edits of a book give.
fn edited<F: Files>(alloc: Global, files: &mut F, edits: &str, book: BidBook) -> Result<Work, Stop>
    requires { IsTrue ((F.folder files.old).knows edits.now) }
    ensures { WorksFrom Edits edits.now (λ content. EditsGive book content (ReviewGives book))
        (F.folder files.old) (F.folder files.new) result }
{
    let edits = read_input(alloc, files, edits, &EditsInput { book: &book })?;
    reviewed(alloc, book, edits.items())
}

fn review_work<F: Files>(
    alloc: Global,
    files: &mut F,
    book: &str,
    edits: &str,
) -> Result<Work, Stop>
    requires book { IsTrue ((F.folder files.old).knows book.now) }
    requires edits { IsTrue ((F.folder files.old).knows edits.now) }
    ensures { Works (review book.now edits.now) (F.folder files.old) (F.folder files.new) result }
{
    let book = read_input(alloc, files, book, &BookInput)?;
    edited(alloc, files, edits, book)
}

/// What the command prints and appends, or the stop on the way to it.
pub fn work_out<F: Files>(alloc: Global, files: &mut F, command: Command<'_>) -> Result<Work, Stop>
    requires { KnowsFiles (F.folder files.old) (command_value command) }
    ensures { Works (command_value command.entry) (F.folder files.old) (F.folder files.new) result }
{
    let Command {
        kind,
        first,
        second,
        third,
        form,
        number,
    } = command;
    match kind {
        Kind::Win => win_work(alloc, files, first),
        Kind::Price => price_work(alloc, files, first, form),
        Kind::Check => check_work(alloc, files, first, second),
        Kind::Weigh => weigh_work(alloc, files, first, second, form),
        Kind::WeighCheck => weigh_check_work(alloc, files, first, second, third),
        Kind::Auction => auction_work(alloc, files, first, second),
        Kind::Award => award_work(alloc, files, first, second, form),
        Kind::Audit => audit_work(alloc, files, first, second, third),
        Kind::Make => made(alloc, number),
        Kind::Place => place_work(alloc, files, first, form.rounds),
        Kind::PlaceCheck => place_check_work(alloc, files, first, second),
        Kind::Review => review_work(alloc, files, first, second),
    }
}
