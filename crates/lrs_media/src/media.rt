ghost use Rattle.std.specs.Prelude.{◌≡◌};
ghost use Rattle.std.specs.List.{list_all};
ghost use Rattle.httparse.specs.Grammar.{is_ows, skip_ows};
ghost use Rattle.lrs_media.specs.Media.{is_json, is_json_name, trims_to};

fn is_white(byte: u8) -> bool
    ensures { result ≡ is_ows byte }
{
    byte == b' ' || byte == b'\t'
}

fn skip_white(bytes: &[u8]) -> &[u8]
    ensures { result.now ≡ skip_ows bytes.now }
{
    let mut at = 0;
    while at < bytes.len() && is_white(bytes[at]) {
        at += 1;
    }
    &bytes[at..]
}

fn all_white(bytes: &[u8]) -> bool
    ensures { result ≡ list_all is_ows bytes.now }
{
    bytes.iter().all(|b| is_white(*b))
}

/// Whether the text is the word, in any case, once the white space round it is off (RFC 9110, section 5.6.3).
pub fn trims_to(text: &[u8], word: &[u8]) -> bool
    ensures { result ≡ trims_to text.now word.now }
{
    let rest = skip_white(text);
    let end = rest.len().min(word.len());
    rest[..end].eq_ignore_ascii_case(word) && all_white(&rest[end..])
}

/// Whether a media type is JSON. It is compared in any case (RFC 9110, section 8.3.1), and its parameters aren't looked
/// at.
pub fn is_json(media: &str) -> bool
    ensures { result ≡ is_json media.now }
{
    match media.split_once(';') {
        Some((name, _)) => is_json_name(name.as_bytes()),
        None => is_json_name(media.as_bytes()),
    }
}

fn is_json_name(name: &[u8]) -> bool
    ensures { result ≡ is_json_name name.now }
{
    trims_to(name, b"application/json")
}
