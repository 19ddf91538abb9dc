// Bytes that are put into a room.
ghost use Rattle.std.specs.Prelude.{◌≡◌, ◌+◌, ◌++◌, ◌≤◌, drop, length, take};

/// Puts the piece at this place, instead of as many bytes.
pub(crate) fn put_at(room: &mut [u8], at: usize, piece: &[u8])
    requires { at + length piece.now ≤ length room.old }
    ensures front { take (at + length piece.now) room.new ≡ take at room.old ++ piece.now }
    ensures behind { drop at room.new ≡ piece.now ++ drop (at + length piece.now) room.old }
{
    room[at..at + piece.len()].copy_from_slice(piece);
}
