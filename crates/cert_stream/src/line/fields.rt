// Whole numbers of a piece, one after another.
ghost use Rattle.std.specs.Prelude.{◌≡◌, ◌+◌, ◌≤◌, ◌<◌, ◌^◌, List, ◌++◌, length, Bool, IfSome, IsTrue, ℕ};
ghost use Rattle.cert_stream.specs.declared.line.form.Form.{Form};
ghost use Rattle.line_format.specs.LineText.{IsLine};
ghost use Rattle.cert_stream.specs.Fields.{IsField, IsFront, after_space};
ghost use Rattle.cert_stream.specs.LineParts.{IsPart};
ghost use Rattle.cert_stream.specs.Pieces.{between};

use crate::line::digits::SMALL;
use crate::line::words::{digit_count, spelled, word_at};

/// A number that isn't below 0, and where it ends.
#[derive(Clone, Copy)]
pub(crate) struct Field {
    pub(crate) size: u64,
    pub(crate) end: usize,
}

/// Reads the first digit of a number.
fn read_first(piece: &[u8], at: usize) -> Option<Field>
    requires { at ≤ length piece.now }
    ensures { IfSome result (IsFront piece.now at) }
{
    if at == piece.len() {
        return None;
    }
    let first = piece[at];
    if !first.is_ascii_digit() {
        return None;
    }
    Some(Field {
        size: (first - b'0') as u64,
        end: at + 1,
    })
}

/// Reads up to eight digits of a number at once. After a first digit 0 there is none.
fn read_eight(piece: &[u8], at: usize) -> Option<Field>
    requires { at + 8 ≤ length piece.now }
    ensures { IfSome result (IsFront piece.now at) }
{
    if piece[at] == b'0' {
        return Some(Field {
            size: 0,
            end: at + 1,
        });
    }
    let count = digit_count(piece, at);
    if count == 0 {
        return None;
    }
    Some(Field {
        size: spelled(word_at(piece, at), count),
        end: at + count,
    })
}

/// Reads the first digits of a number: up to eight of them where that many bytes are left, and else one.
fn read_front(piece: &[u8], at: usize) -> Option<Field>
    requires { at ≤ length piece.now }
    ensures { IfSome result (IsFront piece.now at) }
{
    if piece.len() - at < 8 {
        return read_first(piece, at);
    }
    read_eight(piece, at)
}

/// Reads a number of at most nineteen digits and without a minus from a place of a piece on, up to the space after it. Gives `None`
/// where no such number is there whole.
fn read_field(piece: &[u8], at: usize) -> Option<Field>
    requires { at ≤ length piece.now }
    ensures { IfSome result (IsField piece.now at) }
{
    let Some(front) = read_front(piece, at) else {
        return None;
    };
    let mut size = front.size;
    for i in front.end..piece.len() {
        let byte = piece[i];
        if byte == b' ' {
            return Some(Field { size, end: i });
        }
        if !byte.is_ascii_digit() {
            return None;
        }
        if !may_go_on(size) {
            return None;
        }
        size = 10 * size + (byte - b'0') as u64;
    }
    None
}

/// Whether one more digit may follow those of a number: not after 0, nor where its size might leave 64 bits.
fn may_go_on(size: u64) -> bool
    ensures some { IsTrue result → 0 < size }
    ensures small { IsTrue result → size < 10 ^ 18 }
{
    0 < size && size < SMALL
}

/// How many numbers are kept, and where the last of them ends with its space.
#[derive(Clone, Copy)]
pub(crate) struct FieldRun {
    pub(crate) count: usize,
    pub(crate) end: usize,
}

/// Puts the numbers that are whole in a piece from a place on after those that are kept, up to that many in all. It may stop before any
/// of them. It isn't inlined, so that its loop has the registers to itself.
#[inline(never)]
pub(crate) fn put_fields(
    out: &mut [i128],
    count: usize,
    most: usize,
    piece: &[u8],
    at: usize,
) -> FieldRun
    requires room { most ≤ length out.old }
    requires at { at ≤ length piece.now }
    ensures from { at ≤ result.end }
    ensures to { result.end ≤ length piece.now }
    ensures line { IsLine (between at result.end piece.now) }
    ensures part { (word : List ℕ) (beyond : Bool) (bytes : List ℕ)
        → IsPart word (Form.Signed most) (after_space count beyond) out.old bytes
        → IsPart word (Form.Signed most) (after_space result.count beyond) out.new
        (bytes ++ between at result.end piece.now) }
    ensures room { length out.new ≡ length out.old }
{
    let mut count = count;
    let mut end = at;
    while count < most {
        let Some(field) = read_field(piece, end) else {
            return FieldRun { count, end };
        };
        out[count] = field.size as i128;
        count += 1;
        end = field.end + 1;
    }
    FieldRun { count, end }
}
