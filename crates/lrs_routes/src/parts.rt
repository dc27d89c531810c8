// What the part of a path gives that stands for the parameter of a pattern.
ghost use Rattle.std.specs.Prelude.{◌≡◌, IfOk};
ghost use Rattle.std.specs.List.{before_first};
ghost use Rattle.lrs_routes.specs.Parts.{id_part, is_slash, part_behind, part_of, text_part};

use crate::values::PartValue;
use lrs_json::{Memory, Text};
use lrs_names::Id;
use std::alloc::Global;

/// The part behind that beginning, as it is sent.
pub(crate) fn text_in(
    alloc: Global,
    path: &str,
    beginning: &str,
) -> Result<Option<PartValue>, Memory>
    ensures { IfOk result (λ found. found ≡ part_of (text_part beginning.now) path.now) }
{
    let text = Text::of(alloc, part_behind(path, beginning))?;
    Ok(Some(PartValue::Text(text)))
}

/// The id that the part behind that beginning spells, in either case.
pub(crate) fn id_in(path: &str, beginning: &str) -> Option<PartValue>
    ensures { result ≡ part_of (id_part beginning.now) path.now }
{
    match Id::read(part_behind(path, beginning).as_bytes()) {
        Some(id) => Some(PartValue::Id(id)),
        None => None,
    }
}

fn part_behind<'a>(path: &'a str, beginning: &str) -> &'a str
    ensures { result.now ≡ part_behind beginning.now path.now }
{
    match path.strip_prefix(beginning) {
        Some(rest) => up_to_slash(rest),
        None => "",
    }
}

fn up_to_slash(text: &str) -> &str
    ensures { result.now ≡ before_first is_slash text.now }
{
    match text.split_once('/') {
        Some((part, _rest)) => part,
        None => text,
    }
}
