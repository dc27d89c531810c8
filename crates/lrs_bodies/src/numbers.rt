// The whole numbers of bodies.
ghost use Rattle.std.specs.Prelude.{◌≡◌, ◌&&◌, nat_le, if◌then◌else◌, Some, None};
ghost use Rattle.std.specs.Char.{is_ascii_digit};
ghost use Rattle.std.specs.List.{list_all};
ghost use Rattle.lrs_json.specs.View.{view};
ghost use Rattle.lrs_bodies.specs.DeskBodies.{number_between, number_in};

use lrs_json::Tree;

/// The number of this range that the value is, if it is one, spelled by digits alone.
pub(crate) fn number_in(lowest: u32, highest: u32, tree: &Tree) -> Option<u32>
    ensures { result ≡ number_in lowest highest (view tree.now) }
{
    match tree {
        Tree::Number(spelling) => number_between(lowest, highest, spelling.as_str()),
        _ => None,
    }
}

fn number_between(lowest: u32, highest: u32, spelling: &str) -> Option<u32>
    ensures { result ≡ number_between lowest highest spelling.now }
{
    if !are_digits(spelling) {
        return None;
    }
    match spelling.parse::<u32>() {
        Ok(number) => if_between(lowest, highest, number),
        Err(_) => None,
    }
}

fn are_digits(spelling: &str) -> bool
    ensures { result ≡ list_all is_ascii_digit spelling.now }
{
    spelling.bytes().all(|digit| digit.is_ascii_digit())
}

fn if_between(lowest: u32, highest: u32, number: u32) -> Option<u32>
    ensures { result ≡ (if nat_le lowest number && nat_le number highest then Some number else None) }
{
    if lowest <= number && number <= highest {
        Some(number)
    } else {
        None
    }
}
