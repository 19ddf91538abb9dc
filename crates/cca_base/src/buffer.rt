// Bytes in memory that was reserved once.
ghost use Rattle.std.specs.Prelude.{◌≡◌, ◌+◌, ◌-◌, ◌++◌, ◌≤◌, ◌<◌, take, length, [], IfOk, OnOk, OnErr};

use crate::Failed;
use std::alloc::{AllocError, Global};

// The first `used` of these bytes are in use, and the others are free.
#[derive(Drop)]
pub(crate) struct Buffer {
    bytes: Vec<u8>,
    used: usize,
    ghost within: { used ≤ length bytes.items },
}

impl Buffer {
    // An empty buffer for that many bytes.
    pub(crate) fn new(alloc: Global, room: usize) -> Result<Buffer, AllocError>
        ensures empty { IfOk result (λ b. take b.used b.bytes.items ≡ []) }
        ensures room { IfOk result (λ b. length b.bytes.items - b.used ≡ room) }
    {
        Ok(Buffer {
            bytes: vec![in alloc; 0u8; room]?,
            used: 0,
        })
    }

    pub(crate) fn held(&self) -> &[u8]
        ensures { result.now ≡ take self.now.used self.now.bytes.items }
    {
        &self.bytes[..self.used]
    }

    // Adds the whole piece, and fails exactly if it is longer than the room. Takes no memory.
    pub(crate) fn add(&mut self, piece: &[u8]) -> Result<(), Failed>
        ensures added { OnOk result
            (take self.new.used self.new.bytes.items ≡ take self.old.used self.old.bytes.items ++ piece.now) }
        ensures room { OnOk result
            (length self.new.bytes.items - self.new.used + length piece.now
            ≡ length self.old.bytes.items - self.old.used) }
        ensures full { OnErr result (length self.old.bytes.items - self.old.used < length piece.now) }
        ensures kept { OnErr result (self.new ≡ self.old) }
    {
        if self.bytes.len() - self.used < piece.len() {
            return Err(Failed);
        }
        put_at(&mut self.bytes, self.used, piece);
        self.used += piece.len();
        Ok(())
    }
}

// Puts the piece at this place, instead of as many bytes.
fn put_at(bytes: &mut [u8], at: usize, piece: &[u8])
    requires { at + length piece.now ≤ length bytes.old }
    ensures front { take (at + length piece.now) bytes.new ≡ take at bytes.old ++ piece.now }
    ensures length { length bytes.new ≡ length bytes.old }
{
    bytes[at..at + piece.len()].copy_from_slice(piece);
}
