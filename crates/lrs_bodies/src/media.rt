// What the media type of a body says.
ghost use Rattle.std.specs.Prelude.{◌≡◌, IfOk};
ghost use Rattle.lrs_bodies.specs.Media.{allows_json, media_of};

use lrs_json::{Memory, Text};
use lrs_media::is_json;
use std::alloc::Global;

/// Whether a body of this media type, or of none, is taken as JSON. The type is compared in any case (RFC 9110,
/// section 8.3.1), and its parameters aren't looked at.
pub(crate) fn allows_json(media: &Option<Text>) -> bool
    ensures { result ≡ allows_json media.now }
{
    match media {
        Some(media) => is_json(media.as_str()),
        None => true,
    }
}

/// The type of a body; where none is given, that of any bytes.
pub(crate) fn media_of(alloc: Global, media: &Option<Text>) -> Result<Text, Memory>
    ensures { IfOk result (λ text. text ≡ media_of media.now) }
{
    match media {
        Some(media) => Ok(media.clone()?),
        None => Text::of(alloc, "application/octet-stream"),
    }
}
