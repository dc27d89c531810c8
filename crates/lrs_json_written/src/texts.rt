ghost use Rattle.std.specs.Prelude.{◌≡◌, List, ℕ, ◌++◌, IfOk, IfSome, IsUtf8};
ghost use Rattle.lrs_json.specs.Written.{quoted};
ghost use Rattle.lrs_json_reader.specs.Steps.{Finds};

use lrs_json::Text;
use lrs_json::appending::plain_len;
use lrs_json::matching::{behind, behind_quoted};
use lrs_json_reader::{Cursor, Stop};
use std::str;

/// The text whose written form as a string comes next.
pub fn read_text(cursor: &mut Cursor<'_>) -> Result<Text, Stop>
    ensures found { IfOk result (λ t. IsUtf8 t × (cursor.old ≡ quoted t ++ cursor.new)) }
    ensures all { (t rest : List ℕ) → IsUtf8 t → cursor.old ≡ quoted t ++ rest
        → Finds result (λ u. (u ≡ t) × (cursor.new ≡ rest)) }
{
    match between_quotes(cursor.bytes()) {
        Some((text, left)) => {
            let Ok(text) = str::from_utf8(text) else {
                return Err(Stop::Bad);
            };
            let text = Text::of(cursor.allocator(), text)?;
            *cursor = Cursor::new(cursor.allocator(), left);
            Ok(text)
        }
        None => read_escaped(cursor),
    }
}

// The bytes of a string that each stand for themselves, and those behind it: most strings are such, and are looked at
// once.
fn between_quotes(bytes: &[u8]) -> Option<(&[u8], &[u8])>
    ensures { IfSome result (λ p. bytes.now ≡ quoted p.0.now ++ p.1.now) }
{
    let inside = behind(b"\"", bytes)?;
    let (text, rest) = inside.split_at(plain_len(inside));
    let left = behind(b"\"", rest)?;
    Some((text, left))
}

// A text with escapes: it is read with any, and then compared with the bytes.
fn read_escaped(cursor: &mut Cursor<'_>) -> Result<Text, Stop>
    ensures found { IfOk result (λ t. IsUtf8 t × (cursor.old ≡ quoted t ++ cursor.new)) }
    ensures all { (t rest : List ℕ) → IsUtf8 t → cursor.old ≡ quoted t ++ rest
        → Finds result (λ u. (u ≡ t) × (cursor.new ≡ rest)) }
{
    let text = Cursor::new(cursor.allocator(), cursor.bytes()).quoted()?;
    let Some(left) = behind_quoted(text.as_bytes(), cursor.bytes()) else {
        return Err(Stop::Bad);
    };
    *cursor = Cursor::new(cursor.allocator(), left);
    Ok(text)
}
