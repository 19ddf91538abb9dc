// Words and files: books, certificates, weights, an award with its log, slots and edits.

/// The example of Day and Cramton (2012): one lot of each of two categories, and five bidders; b1 and b2 win.
pub(crate) const DAY_CRAMTON: &str =
    "book 1\nsupply 1 1\nreserve 0 0\nbidder b1\nbid 1 0 28\nbidder b2\nbid 0 1 20\nbidder b3\nbid 1 1 32\nbidder b4\n\
    bid 1 0 14\nbidder b5\nbid 0 1 12\nend\n";

/// A book without bidders.
pub(crate) const NOBODY: &str = "book 1\nsupply 1\nreserve 0\nend\n";

/// One lot, and one bid of its reserve.
pub(crate) const AT_RESERVE: &str = "book 1\nsupply 1\nreserve 50\nbidder solo\nbid 1 50\nend\n";

/// Two choices of the same value.
pub(crate) const TIE: &str =
    "book 1\nsupply 2\nreserve 0\nbidder east\nbid 1 5\nbid 2 9\nbidder west\nbid 1 4\nend\n";

/// One lot, and four bids of one amount.
pub(crate) const EQUALS: &str =
    "book 1\nsupply 1\nreserve 0\nbidder n1\nbid 1 9\nbidder n2\nbid 1 9\nbidder n3\nbid 1 9\nbidder n4\n\
    bid 1 9\nend\n";

/// Three bidders for one lot each, who win together, and two for two lots.
pub(crate) const TWO_GLOBALS: &str =
    "book 1\nsupply 1 1 1\nreserve 0 0 0\nbidder l1\nbid 1 0 0 10\nbidder l2\nbid 0 1 0 10\nbidder l3\nbid 0 0 1 10\n\
    bidder g1\nbid 1 1 0 8\nbidder g2\nbid 0 1 1 8\nend\n";

/// The arguments of a run that prices a book.
pub(crate) const PRICE: &[&str] = &["price", "BOOK", "CERT"];

/// The arguments of a run that tests a certificate.
pub(crate) const CHECK: &[&str] = &["check", "BOOK", "CERT"];

/// The first 200 bytes of the certificate of two winners.
pub(crate) const DAY_CRAMTON_FRONT: &str =
    "cert 1\nden 1\nvalue 48\nchoice 1 1 0 0 0\ntable\nt 0 20 28 48\nt 0 20 14 34\n\
    t 0 12 14 32\nt 0 12 14 26\nt 0 12 0 12\nt 0 0 0 0\nwithout 1\nchoice 0 1 0 1 0\ntable\n\
    t 0 20 14 34\nt 0 20 14 34\nt 0 12 14 32\nt 0 12 14";

/// The certificate of two winners, of 476 bytes.
pub(crate) const DAY_CRAMTON_CERT: &[&str] = &[
    DAY_CRAMTON_FRONT,
    " 26\nt 0 12 0 12\nt 0 0 0 0\nwithout 2\nchoice 1 0 0 0 1\ntable\nt 0 12 28 40\n\
    t 0 12 14 32\nt 0 12 14 32\nt 0 12 14 26\nt 0 12 0 12\nt 0 0 0 0\npay 17 15 0 0 0\n\
    rows 1\nrow 1 2\nmult 1 3\nchoice 0 0 1 0 0\nlowered\nt 0 15 17 32\nt 0 15 14 32\n\
    t 0 12 14 32\nt 0 12 14 26\nt 0 12 0 12\nt 0 0 0 0\nend\n",
];

/// The arguments of a run that prices a book by weights.
pub(crate) const WEIGH: &[&str] = &["weigh", "BOOK", "WEIGHTS", "CERT"];

/// The arguments of a run that tests a certificate by weights.
pub(crate) const WEIGH_CHECK: &[&str] = &["weigh-check", "BOOK", "WEIGHTS", "CERT"];

/// Weights of 1 for all bidders of the example.
pub(crate) const ALL_ALIKE: &str =
    "weights 1\nweight b1 1\nweight b2 1\nweight b3 1\nweight b4 1\nweight b5 1\nend\n";

/// An award of one category. Two bidders are together eligible for more than its supply.
pub(crate) const SAMPLE: &str =
    "version = 1\ntick = 1\n\n[[category]]\nname = \"lot\"\nsupply = 3\npoints = 1\nreserve = 10\n\n[[bidder]]\n\
    name = \"east\"\neligibility = 3\n\n[[bidder]]\nname = \"west\"\neligibility = 2\n\n[[step]]\nexcess = 1\n\
    permille = 200\n";

/// A clock of two rounds, and a sealed round: east's first list is above a cap, and it lowers an entry.
pub(crate) const LOWERED: &str =
    "bid,east,3,\nbid,west,2,\nclose,,,\nbid,east,1,\nbid,west,2,\nclose,,,\ndraft,east,1,20\ndraft,east,3,45\n\
    submit,east,,\ndraft,east,3,44\nsubmit,east,,\nclose,,,\n";

/// The arguments of a run that prices the book of a log.
pub(crate) const AWARD: &[&str] = &["award", "AWARD", "LOG", "CERT"];

/// What pricing the log of the lowered draft prints.
pub(crate) const LOWERED_OUTCOME: &str =
    "winner east 1 bid 20 vickrey 10 pays 10\nwinner west 2 bid 24 vickrey 24 pays 24\nnet 14\nrevenue 34\n";

/// The arguments of a run that places bidders.
pub(crate) const PLACE: &[&str] = &["place", "SLOTS", "CERT"];

/// The arguments of a run that tests the certificate of a placement.
pub(crate) const PLACE_CHECK: &[&str] = &["place-check", "SLOTS", "CERT"];

/// Three bidders fill a band of four slots; two of them win.
pub(crate) const SLOTS: &str =
    "slots 1\nband 4\nbidder x 2\nplace 1 10\nbidder y 1\nplace 4 8\nbidder z 1\nplace 2 12\nend\n";

/// The certificate of these slots.
pub(crate) const SLOTS_CERT: &str =
    "pcert 1\nden 1\nvalue 18\norder 1 3 2\nchoice 1 1 0\ntable\nt 18 8 12 0 8 8 0 0\nwithout 1\norder 2 3 1\n\
    choice 0 0 1\ntable\nt 12 8 12 0 8 8 0 0\nwithout 2\norder 2 3 1\nchoice 0 0 1\ntable\n\
    t 12 0 12 0 0 0 0 0\npay 7 5 0\nrows 1\nrow 1 2\nmult 1 3\norder 2 3 1\nchoice 0 0 1\nlowered\n\
    t 12 5 12 0 5 5 0 0\nend\n";

/// The arguments of a run that edits a book.
pub(crate) const REVIEW: &[&str] = &["review", "BOOK", "EDITS"];

/// Edits of the example; the last is of a bidder that it doesn't have.
pub(crate) const EDITS: &str =
    "edits 1\nraise b3 1 1 50\nadd b4 0 1 23\ndrop b1 1 0\nraise b3 1 1 50\nadd north 1 0 5\nend\n";
