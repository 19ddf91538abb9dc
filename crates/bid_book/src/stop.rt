// Why a line is not taken.
ghost use Rattle.std.specs.Prelude.{◌≡◌};
ghost use Rattle.bid_book.specs.Stops.{line_stop};
ghost use Rattle.line_format.specs.declared.stop.LineStop.TheVariants.{Form};

use crate::LimitKind;
use book_grammar::Excess;
use line_format::LineStop;
use lots::LotStop;

/// A text has no number at its start. It is a fault of form.
#[derive(Clone, Copy, Debug, PartialEq, Eq)]
pub struct NoNumber;

impl From<NoNumber> for LineStop<Excess> {
    ghost from_gives = { λ _ stop. stop ≡ Form };

    fn from(_error: NoNumber) -> LineStop<Excess> {
        LineStop::Form
    }
}

/// The stop at a line whose counts make no package or no supply.
pub fn lots_stop(stop: LotStop) -> LineStop<Excess>
    ensures { result ≡ line_stop stop }
{
    match stop {
        LotStop::Categories(count) => LineStop::Limit((LimitKind::Categories, count)),
        LotStop::Zero(_) => LineStop::Form,
        LotStop::Lots(count) => LineStop::Limit((LimitKind::Lots, count)),
        LotStop::States(count) => LineStop::Limit((LimitKind::States, count)),
        LotStop::Memory => LineStop::Memory,
    }
}
