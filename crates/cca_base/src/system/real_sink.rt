// Standard output. It knows what it has taken.
ghost use Rattle.std.specs.Prelude.{◌≡◌, [], None};
ghost use Rattle.cca_base.specs.Given.{all_bytes};

use crate::system::system_output::{OutputCalls, SystemOutput};
use crate::{Failed, Sink};
use std::fs::File;
use std::rt;

// An output over calls, known only by the calls' clauses. It took what the calls returned.
#[derive(Drop)]
struct CountedSink<C: Drop> {
    calls: C,
    faults: u64,
}

impl<C: OutputCalls> Sink for CountedSink<C> {
    ghost output = { λ s. record { bytes = all_bytes (C.took s.calls); faults = s.faults; room = None } };

    fn put(&mut self, piece: &[u8]) -> Result<usize, Failed> {
        let put = self.calls.put(piece);
        if put.is_err() {
            self.faults = self.faults.saturating_add(1);
        }
        put
    }

    fn faults(&self) -> u64 {
        self.faults
    }
}

/// Standard output. What was put has reached the system when `put` answers.
#[derive(Drop)]
pub struct RealSink<R: Print + Drop> {
    counted: CountedSink<SystemOutput<R>>,
}

impl<R: Print + rt::Files<File = File> + rt::Env + Alloc + Drop> RealSink<R> {
    /// The standard output of this runtime, which has taken nothing and has no fault yet. If it goes to a regular file that a
    /// word after the command names, each put fails and takes nothing.
    pub fn new(rt: R) -> Self
        ensures empty { (⟦<RealSink<R> as Sink>⟧.output result).bytes ≡ [] }
        ensures faults { (⟦<RealSink<R> as Sink>⟧.output result).faults ≡ 0 }
    {
        RealSink {
            counted: CountedSink {
                calls: SystemOutput::new(rt),
                faults: 0,
            },
        }
    }
}

impl<R: Print + Drop> Sink for RealSink<R> {
    ghost output = { λ s. ⟦<CountedSink<SystemOutput<R>> as Sink>⟧.output s.counted };

    fn put(&mut self, piece: &[u8]) -> Result<usize, Failed> {
        self.counted.put(piece)
    }

    fn faults(&self) -> u64 {
        self.counted.faults()
    }
}
