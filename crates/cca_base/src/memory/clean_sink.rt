// An output in memory that was reserved when the output was made.
ghost use Rattle.std.specs.Prelude.{◌≡◌, ◌+◌, ◌≤◌, ◌<◌, ◌++◌, length, Some, [], IfOk, OnOk, OnErr};
ghost use Rattle.cca_base.specs.Faults.{Rose, one_more};
ghost use Rattle.cca_base.specs.Buffers.{held, left};

use crate::buffer::Buffer;
use crate::{Failed, Sink};
use std::alloc::{AllocError, Global};

/// An output in memory, over a buffer that was reserved when it was made. It reports the room that
/// is left, in bytes, and no call on it takes memory.
#[derive(Drop)]
pub struct CleanSink {
    buffer: Buffer,
    faults: u64,
}

impl CleanSink {
    /// An output with no bytes, no fault and room for that many bytes.
    ///
    /// # Errors
    ///
    /// `AllocError` when out of memory.
    pub fn new(alloc: Global, room: u64) -> Result<CleanSink, AllocError>
        ensures empty { IfOk result (λ out. (⟦<CleanSink as Sink>⟧.output out).bytes ≡ []) }
        ensures room { IfOk result (λ out. (⟦<CleanSink as Sink>⟧.output out).room ≡ Some room) }
        ensures faults { IfOk result (λ out. (⟦<CleanSink as Sink>⟧.output out).faults ≡ 0) }
    {
        Ok(CleanSink {
            buffer: Buffer::new(alloc, room as usize)?,
            faults: 0,
        })
    }

    /// The bytes that it has taken.
    pub fn bytes(&self) -> &[u8]
        ensures { (⟦<CleanSink as Sink>⟧.output self.now).bytes ≡ result.now }
    {
        self.buffer.held()
    }
}

impl Sink for CleanSink {
    ghost output = { λ s. record { bytes = held s.buffer; faults = s.faults; room = Some (left s.buffer) } };

    fn put(&mut self, piece: &[u8]) -> Result<usize, Failed>
        ensures count { self.old.faults ≤ self.new.faults }
        ensures quiet { OnOk result (self.new.faults ≡ self.old.faults) }
        ensures cause { OnErr result (Rose self.old.faults self.new.faults) }
        ensures counted { OnErr result (self.new.faults ≡ one_more self.old.faults) }

        // The whole piece, or a failure exactly if it is longer than the room.
        ensures bytes { IfOk result
            (λ n. (n ≡ length piece.now) × (held self.new.buffer ≡ held self.old.buffer ++ piece.now)) }
        ensures room { OnOk result (left self.new.buffer + length piece.now ≡ left self.old.buffer) }
        ensures full { OnErr result (left self.old.buffer < length piece.now) }
        ensures kept { OnErr result (self.new.buffer ≡ self.old.buffer) }
    {
        if self.buffer.add(piece).is_err() {
            self.faults = self.faults.saturating_add(1);
            return Err(Failed);
        }
        Ok(piece.len())
    }

    fn faults(&self) -> u64 {
        self.faults
    }
}
