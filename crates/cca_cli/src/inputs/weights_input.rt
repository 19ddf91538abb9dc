// Weights of the bidders of a book as inputs.
use crate::{FileKind, Input, Status};
use bid_book::BidBook;
use limits::WEIGHTS_BYTES;
use std::alloc::Global;
use weights_file::{Weights, read_weights};

/// The weights of the bidders of a book.
#[derive(Clone, Copy)]
pub struct WeightsInput<'a> {
    /// The book whose bidders they are of.
    pub book: &'a BidBook,
}

impl<'a> Input for WeightsInput<'a> {
    ghost use Rattle.limits.specs.declared.TheConstants.{WEIGHTS_BYTES};
    ghost use Rattle.auction_model.specs.Prices.{AreWeights};
    ghost use Rattle.cert_soundness.specs.Tests.{bidders_of};
    ghost use Rattle.cca_cli.specs.Answers.{WeightsAnswers};
    ghost use Rattle.cca_cli.specs.Outcome.{value, stops};
    ghost use Rattle.cca_cli.specs.declared.status.FileKind.TheVariants as kinds;

    type Value = Weights;

    ghost part = { λ _. kinds.Weights };

    ghost room = { λ _. WEIGHTS_BYTES };

    ghost states = { λ s bytes weights. WeightsAnswers s.book.now bytes (value weights)
        × AreWeights (bidders_of s.book.now) weights };

    ghost halts = { λ s bytes status. WeightsAnswers s.book.now bytes (stops status) };

    fn kind(&self) -> FileKind {
        FileKind::Weights
    }

    fn most(&self) -> u64 {
        WEIGHTS_BYTES
    }

    fn read(&self, alloc: Global, bytes: &[u8]) -> Result<Weights, Status> {
        match read_weights(alloc, bytes, self.book) {
            Ok(weights) => Ok(weights),
            Err(stop) => Err(Status::from(stop)),
        }
    }
}
