//! The tests of a certificate of a book, and why acceptance is sound. It has no code.
//!
//! A certificate says who wins, what the winners pay, and why. For the winning choice and for the choice without each
//! winner it has a table of dynamic programming, for the payments rows of winners with two multipliers each, and a last
//! table that shows that no coalition blocks. The tests C1 to C9 ask only that tables obey their rules, that rows are tight
//! and that sums come out, so they need no search. (McConnell, Mehlhorn, Näher and Schweitzer, Certifying algorithms,
//! Computer Science Review 5, 2011.)
#![tactic(auto)]

ghost use Rattle.std.specs.Prelude.{◌≡◌, ◌≤◌, ◌<◌, ℕ, List, ℤ, length};
ghost use Rattle.auction_model.specs.Book.{Book, market_of, menu_of, net_of};
ghost use Rattle.auction_model.specs.Lowered.{lowered};
ghost use Rattle.auction_model.specs.Menu.{without};
ghost use Rattle.auction_model.specs.Prices.{AreWeights, weight_of};
ghost use Rattle.auction_model.specs.Table.{IsExactTable};
ghost use Rattle.core_laws.specs.Surplus.{surpluses_of};
ghost use Rattle.cert_grammar.specs.Certificate.{CertValue};
ghost use Rattle.cert_grammar.specs.CertText.{IsCertificate};
ghost use Rattle.cert_grammar.specs.Says.{cert_text};
ghost use Rattle.core_laws.specs.Winners.{winners_in};
ghost use Rattle.limits.specs.declared.TheConstants.{MOST_WINNERS, PRICED_CERT_BYTES};
ghost use Rattle.cert_soundness.specs.BookSizes.{IsWithinSizes};
ghost use Rattle.cert_soundness.specs.Priced.{IsPricedCert};
ghost use Rattle.cert_soundness.specs.Sound.{IsSound};
ghost use Rattle.cert_soundness.specs.Tests.{Obeys, bidders_of, states, C5, lowered_net, Holds, FailsFirst};

/// A certificate that passes all tests is sound: its choice is the winning one, its value the value of this choice, its parts
/// show the Vickrey prices, and its choice and payments are the core outcome.
///
/// A table that obeys the rules of dynamic programming bounds each choice that fits (Bellman, The theory of dynamic
/// programming, Bulletin of the American Mathematical Society 60, 1954), and multipliers show a least sum and a least
/// square distance (Kuhn and Tucker, Nonlinear programming, 1951).
pub fn sound_yes()
    ensures { (book : Book) (weights : List ℕ) (c : CertValue) → AreWeights (bidders_of book) weights
        → length c.choice ≡ bidders_of book → length c.pay ≡ bidders_of book
        → Holds book (weight_of weights) c → IsSound book (weight_of weights) c }
{}

/// A certificate has at most one verdict: all tests pass, or one test fails first at one place, not both.
pub fn one_verdict()
    ensures one { (book : Book) (w : ℕ → ℕ) (c : CertValue) (t p u q : ℕ) → FailsFirst book w c t p
        → FailsFirst book w c u q → (t ≡ u) × (p ≡ q) }
    ensures not_both { (book : Book) (w : ℕ → ℕ) (c : CertValue) (t p : ℕ) → Holds book w c → FailsFirst book w c t p
        → ⊥ }
{}

/// Exact tables obey the rules that the tests ask of a table: the table of net amounts, the table without a bidder, and, if
/// nobody pays more than its bid and losers pay nothing, the table of worths lowered by each bidder's surplus.
pub fn exact_tables()
    ensures plain { (book : Book) (table : List (List ℤ))
        → IsExactTable (menu_of book) (net_of book) book.supply table
        → Obeys (menu_of book) (net_of book) book.supply table }
    ensures without { (book : Book) (j : ℕ) (table : List (List ℤ))
        → IsExactTable (without (menu_of book) j) (net_of book) book.supply table
        → Obeys (without (menu_of book) j) (net_of book) book.supply table }
    ensures lowered { (book : Book) (c : CertValue) (table : List (List ℤ)) → length c.pay ≡ bidders_of book
        → ((place : ℕ) → C5 book c place)
        → IsExactTable (menu_of book)
        (lowered c.den (net_of book) (surpluses_of (market_of book) c.choice c.den c.pay)) book.supply table
        → Obeys (menu_of book) (lowered_net book c) book.supply table }
{}

/// The text of a certificate that pricing writes has less than `PRICED_CERT_BYTES` bytes if the book is within the limits and
/// at most six bidders win. So it is never above the limit of a certificate file.
///
/// A table of net amounts has at most 17 lines of 16,384 entries, each of at most 14 digits, and a certificate has at most seven
/// of them. The table of lowered worths has entries of at most 37 digits.
pub fn short_text()
    ensures { (book : Book) (w : ℕ → ℕ) (c : CertValue) → IsWithinSizes book
        → IsCertificate (bidders_of book) (states book) c → IsPricedCert book w c → winners_in c.choice ≤ MOST_WINNERS
        → length (cert_text c) < PRICED_CERT_BYTES }
{}
