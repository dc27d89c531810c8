// Where a value ends in a text that begins with its written form.
ghost use Rattle.std.specs.Prelude.{◌≡◌, ◌≢◌, ◌==◌, ◌^◌, ◌<◌, ◌≤◌, ℕ, false, drop, length};
ghost use Rattle.std.specs.List.{prefix_len};
ghost use Rattle.lrs_json_reader.specs.Brackets.{depth_after, mode_after};
ghost use Rattle.lrs_json_reader.specs.declared.depth.ScanState.TheVariants.{Outside};
ghost use Rattle.lrs_json_slices.specs.Scanning.{behind_close, behind_front, behind_quote, is_of_word};

use lrs_json::appending::plain_len;

/// What is behind the value or the name at the beginning of the bytes.
pub fn behind_front(bytes: &[u8]) -> &[u8]
    ensures behind { result.now ≡ behind_front bytes.now }
    ensures no_longer { length result.now ≤ length bytes.now }
{
    let [first, behind @ ..] = bytes else {
        return bytes;
    };
    match first {
        b'[' | b'{' => behind_close(behind),
        b'"' => behind_quote(behind),
        _ => &bytes[word_len(bytes)..],
    }
}

// Behind the bracket that closes the one before the bytes.
fn behind_close(bytes: &[u8]) -> &[u8]
    ensures behind { result.now ≡ behind_close 1 Outside bytes.now }
    ensures no_longer { length result.now ≤ length bytes.now }
{
    let mut depth = 1;
    let mut left = bytes;
    while let [byte, behind @ ..] = left {
        depth = depth_after(depth, *byte);
        if depth == 0 {
            return behind;
        }
        left = behind_string(*byte, behind);
    }
    left
}

// How many brackets are open after the byte.
fn depth_after(depth: usize, byte: u8) -> usize
    requires { depth < 2 ^ 63 }
    ensures { result ≡ depth_after Outside depth byte }
{
    match byte {
        b'[' | b'{' => depth + 1,
        b']' | b'}' => depth.saturating_sub(1),
        _ => depth,
    }
}

// Behind the string, if the byte begins one.
fn behind_string(byte: u8, behind: &[u8]) -> &[u8]
    ensures same { (depth : ℕ) → 0 < depth →
        behind_close depth Outside result.now ≡ behind_close depth (mode_after Outside byte) behind.now }
    ensures no_longer { length result.now ≤ length behind.now }
{
    if byte == b'"' {
        behind_quote(behind)
    } else {
        behind
    }
}

// Behind the closing quote.
fn behind_quote(bytes: &[u8]) -> &[u8]
    ensures behind { result.now ≡ behind_quote false bytes.now }
    ensures no_longer { length result.now ≤ length bytes.now }
{
    let mut left = behind_plain(bytes);
    while let [byte, behind @ ..] = left {
        if *byte == b'"' {
            return behind;
        }
        left = behind_byte(*byte, behind);
    }
    left
}

// Behind the byte that a backslash passes over, and the bytes that stand for themselves.
fn behind_byte(byte: u8, behind: &[u8]) -> &[u8]
    ensures same { behind_quote false result.now ≡ behind_quote (byte == 92) behind.now }
    ensures no_longer { length result.now ≤ length behind.now }
{
    if byte == b'\\' {
        behind_plain(behind_first(behind))
    } else {
        behind_plain(behind)
    }
}

fn behind_plain(bytes: &[u8]) -> &[u8]
    ensures same { behind_quote false result.now ≡ behind_quote false bytes.now }
    ensures no_longer { length result.now ≤ length bytes.now }
{
    &bytes[plain_len(bytes)..]
}

/// Behind the first byte, if there is one.
pub fn behind_first(bytes: &[u8]) -> &[u8]
    ensures behind { result.now ≡ drop 1 bytes.now }
    ensures no_longer { length result.now ≤ length bytes.now }
{
    match bytes {
        [_, behind @ ..] => behind,
        [] => bytes,
    }
}

// How many bytes stand before the end of a number or of a literal word.
fn word_len(bytes: &[u8]) -> usize
    ensures bound { result ≤ length bytes.now }
    ensures value { result ≡ prefix_len is_of_word bytes.now }
{
    for (i, byte) in bytes.iter().enumerate() {
        if matches!(*byte, b',' | b']' | b'}') {
            return i;
        }
    }
    bytes.len()
}
