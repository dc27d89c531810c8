ghost use Rattle.std.specs.Prelude.{◌≡◌, ◌<◌, ◌^◌, length, option_map, IfSome, IsTrue};
ghost use Rattle.lrs_json_reader.specs.Strings.{hex_value_of, next_at, digit_at, unit_at, byte_at, is_low, low_at, unicode_at, letter_of, escape_at, piece_at};

/// One byte of a string, or what an escape stands for.
#[derive(Clone, Copy, Debug, PartialEq)]
pub enum Piece {
    Byte(u8),
    Char(char),
}

#[tactic(auto, unfolding(crate::specs::Strings::hex_value_of))]
fn hex_value(byte: u8) -> Option<u32>
    ensures value { result ≡ hex_value_of byte }
    ensures small { IfSome result (λ v. v < 16) }
{
    match byte {
        b'0'..=b'9' => Some((byte - b'0') as u32),
        b'a'..=b'f' => Some((byte - b'a' + 10) as u32),
        b'A'..=b'F' => Some((byte - b'A' + 10) as u32),
        _ => None,
    }
}

#[tactic(auto, unfolding(crate::specs::Strings::next_at))]
fn next(bytes: &[u8]) -> Option<(u8, &[u8])>
    ensures value { option_map (λ p. (p.0, p.1.now)) result ≡ next_at bytes.now }
    ensures shorter { IfSome result (λ p. length p.1.now < length bytes.now) }
{
    match bytes.split_first() {
        Some((byte, rest)) => Some((*byte, rest)),
        None => None,
    }
}

#[tactic(auto, unfolding(crate::specs::Strings::digit_at))]
fn digit(bytes: &[u8]) -> Option<(u32, &[u8])>
    ensures value { option_map (λ p. (p.0, p.1.now)) result ≡ digit_at bytes.now }
    ensures shorter { IfSome result (λ p. length p.1.now < length bytes.now) }
    ensures small { IfSome result (λ p. p.0 < 16) }
{
    let (byte, rest) = next(bytes)?;
    let value = hex_value(byte)?;
    Some((value, rest))
}

#[tactic(auto, unfolding(crate::specs::Strings::unit_at))]
fn unit(bytes: &[u8]) -> Option<(u32, &[u8])>
    ensures value { option_map (λ p. (p.0, p.1.now)) result ≡ unit_at bytes.now }
    ensures shorter { IfSome result (λ p. length p.1.now < length bytes.now) }
    ensures small { IfSome result (λ p. p.0 < 2 ^ 16) }
{
    let (a, rest) = digit(bytes)?;
    let (b, rest) = digit(rest)?;
    let (c, rest) = digit(rest)?;
    let (d, rest) = digit(rest)?;
    Some((a * 4096 + b * 256 + c * 16 + d, rest))
}

#[tactic(auto, unfolding(crate::specs::Strings::byte_at))]
fn byte(wanted: u8, bytes: &[u8]) -> Option<(u8, &[u8])>
    ensures value { option_map (λ p. (p.0, p.1.now)) result ≡ byte_at wanted bytes.now }
    ensures shorter { IfSome result (λ p. length p.1.now < length bytes.now) }
{
    let (found, rest) = next(bytes)?;
    if found == wanted {
        Some((found, rest))
    } else {
        None
    }
}

#[tactic(auto, unfolding(crate::specs::Strings::low_at))]
fn low(bytes: &[u8]) -> Option<(u32, &[u8])>
    ensures value { option_map (λ p. (p.0, p.1.now)) result ≡ low_at bytes.now }
    ensures shorter { IfSome result (λ p. length p.1.now < length bytes.now) }
    ensures in_range { IfSome result (λ p. IsTrue (is_low p.0)) }
{
    let (_, rest) = byte(b'\\', bytes)?;
    let (_, rest) = byte(b'u', rest)?;
    let (low, rest) = unit(rest)?;
    if 0xdc00 <= low && low < 0xe000 {
        Some((low, rest))
    } else {
        None
    }
}

#[tactic(auto, unfolding(crate::specs::Strings::unicode_at))]
fn unicode(bytes: &[u8]) -> Option<(Piece, &[u8])>
    ensures value { option_map (λ p. (p.0, p.1.now)) result ≡ unicode_at bytes.now }
    ensures shorter { IfSome result (λ p. length p.1.now < length bytes.now) }
{
    let (high, rest) = unit(bytes)?;
    if 0xd800 <= high && high < 0xdc00 {
        let (low, rest) = low(rest)?;
        let c = char::from_u32(0x10000 + (high - 0xd800) * 1024 + (low - 0xdc00))?;
        Some((Piece::Char(c), rest))
    } else {
        let c = char::from_u32(high)?;
        Some((Piece::Char(c), rest))
    }
}

#[tactic(auto, unfolding(crate::specs::Strings::letter_of))]
fn letter(byte: u8) -> Option<u8>
    ensures { result ≡ letter_of byte }
{
    match byte {
        b'"' | b'\\' | b'/' => Some(byte),
        b'b' => Some(8),
        b'f' => Some(12),
        b'n' => Some(b'\n'),
        b'r' => Some(b'\r'),
        b't' => Some(b'\t'),
        _ => None,
    }
}

#[tactic(auto, unfolding(crate::specs::Strings::escape_at))]
fn escape(bytes: &[u8]) -> Option<(Piece, &[u8])>
    ensures value { option_map (λ p. (p.0, p.1.now)) result ≡ escape_at bytes.now }
    ensures shorter { IfSome result (λ p. length p.1.now < length bytes.now) }
{
    let (first, rest) = next(bytes)?;
    if first == b'u' {
        unicode(rest)
    } else {
        let byte = letter(first)?;
        Some((Piece::Byte(byte), rest))
    }
}

/// One byte or one escape of a string, and the bytes after it.
#[tactic(auto, unfolding(crate::specs::Strings::piece_at))]
pub fn next_piece(bytes: &[u8]) -> Option<(Piece, &[u8])>
    ensures value { option_map (λ p. (p.0, p.1.now)) result ≡ piece_at bytes.now }
    ensures shorter { IfSome result (λ p. length p.1.now < length bytes.now) }
{
    let (first, rest) = next(bytes)?;
    if first == b'\\' {
        escape(rest)
    } else if first < 32 || first == b'"' {
        None
    } else {
        Some((Piece::Byte(first), rest))
    }
}
