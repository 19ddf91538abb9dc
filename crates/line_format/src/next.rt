// The length of the next line.
ghost use Rattle.std.specs.Prelude.{◌≡◌, ◌<◌, ◌+◌, ◌∷◌, length, take, drop, IfSome, IfNone};
ghost use Rattle.line_format.specs.LineText.{IsLine};

use memchr::memchr;

/// How many bytes the first line has, its line feed left out.
pub fn line_len(bytes: &[u8]) -> Option<usize>
    ensures found { IfSome result
        (λ n. IsLine (take n bytes.now) × (drop n bytes.now ≡ 10 ∷ drop (n + 1) bytes.now)
        × (n < length bytes.now)) }
    ensures none { IfNone result (IsLine bytes.now) }
{
    memchr(b'\n', bytes)
}
