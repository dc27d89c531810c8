ghost use Rattle.std.specs.Prelude.{◌≡◌, ◌↔◌, ◌&&◌, Some, IsTrue, IfOk, codes, option_map, not};
ghost use Rattle.std.specs.Char.{is_ascii_hexdigit};
ghost use Rattle.std.specs.List.{list_all, before_last, after_last};
ghost use Rattle.std.specs.Str.{chars};
ghost use Rattle.lrs_json.specs.View.{view};
ghost use Rattle.lrs_agents.specs.Agents.{is_at_sign, is_address, is_mailbox, is_sha1, mailbox_faults, sha1_faults, openid_faults, is_account, account_faults, identifier_faults, identifier_count};
ghost use Rattle.lrs_agents.specs.Identifiers.{account_of, identifier_of, is_identifier, lent};
ghost use Rattle.lrs_names.specs.Iris.{has_some, is_control_or_space, iri_faults};
ghost use Rattle.lrs_names.specs.Members.{is_string_that, faults_of_member};
ghost use Rattle.lrs_names.specs.Rules.{least};

use lrs_json::{Memory, Text, Tree};
use lrs_names::{
    Iri, broken_iri, has_member, has_only, has_string, is_control_or_space, lesser, text_under,
    unless,
};
use std::alloc::Global;

/// What identifies an agent or a group: its inverse functional identifier (xAPI 1.0.3, part two, section 2.4.2.3).
#[derive(PartialEq, Eq, PartialOrd, Ord, Drop)]
pub enum Ifi {
    /// `mailto:` and a mail address.
    Mbox(Text),
    /// The SHA-1 of such a text, in forty hexadecimal digits of either case.
    MboxSha1(Text),
    /// An IRI.
    OpenId(Text),
    /// An account at a home page, an IRI.
    Account { home: Text, name: Text },
}

impl Ifi {
    /// Whether both are of one kind and have equal texts.
    pub fn same(&self, other: &Ifi) -> bool
        ensures { IsTrue result ↔ (self.now ≡ other.now) }
    {
        is_same(&self.lend(), &other.lend())
    }

    /// Whether this is the identifier of the agent or group that the tree is. Takes no memory.
    pub fn is_of(&self, tree: &Tree) -> bool
        ensures { IsTrue result ↔ (identifier_of (view tree.now) ≡ Some self.now) }
    {
        match identifier_in(tree) {
            Some(found) => is_same(&self.lend(), &found),
            None => false,
        }
    }

    /// A copy of its own.
    pub fn copy(&self) -> Result<Ifi, Memory>
        ensures { IfOk result (λ ifi. ifi ≡ self.now) }
    {
        match self {
            Ifi::Mbox(text) => Ok(Ifi::Mbox(text.clone()?)),
            Ifi::MboxSha1(text) => Ok(Ifi::MboxSha1(text.clone()?)),
            Ifi::OpenId(text) => Ok(Ifi::OpenId(text.clone()?)),
            Ifi::Account { home, name } => {
                let home = home.clone()?;
                let name = name.clone()?;
                Ok(Ifi::Account { home, name })
            }
        }
    }

    /// Whether its text is such as an identifier of its kind has, of an account its home page.
    pub fn is_identifier(&self) -> bool
        ensures { result ≡ is_identifier self.now }
    {
        match self {
            Ifi::Mbox(text) => is_mailbox(text.as_str()),
            Ifi::MboxSha1(text) => is_sha1(text.as_bytes()),
            Ifi::OpenId(text) => Iri::is(text),
            Ifi::Account { home, name: _ } => Iri::is(home),
        }
    }

    fn lend(&self) -> Lent<'_>
        ensures { lent result ≡ self.now }
    {
        match self {
            Ifi::Mbox(text) => Lent::Mbox(text),
            Ifi::MboxSha1(text) => Lent::MboxSha1(text),
            Ifi::OpenId(text) => Lent::OpenId(text),
            Ifi::Account { home, name } => Lent::Account { home, name },
        }
    }

    /// The identifier of the agent or group that the tree is: `None` for a group without one.
    pub fn of(alloc: Global, tree: &Tree) -> Result<Option<Ifi>, Memory>
        ensures { IfOk result (λ ifi. ifi ≡ identifier_of (view tree.now)) }
    {
        match identifier_in(tree) {
            Some(lent) => Ok(Some(copied(alloc, &lent)?)),
            None => Ok(None),
        }
    }
}

// An identifier in the tree that holds it.
#[derive(Clone, Copy)]
enum Lent<'a> {
    Mbox(&'a Text),
    MboxSha1(&'a Text),
    OpenId(&'a Text),
    Account { home: &'a Text, name: &'a Text },
}

fn is_same(a: &Lent<'_>, b: &Lent<'_>) -> bool
    ensures { IsTrue result ↔ (lent a.now ≡ lent b.now) }
{
    match (a, b) {
        (Lent::Mbox(x), Lent::Mbox(y)) => *x == *y,
        (Lent::MboxSha1(x), Lent::MboxSha1(y)) => *x == *y,
        (Lent::OpenId(x), Lent::OpenId(y)) => *x == *y,
        (
            Lent::Account { home, name },
            Lent::Account {
                home: other,
                name: same,
            },
        ) => *home == *other && *name == *same,
        _ => false,
    }
}

#[tactic(auto, unfolding(crate::specs::Identifiers::identifier_of))]
fn identifier_in(tree: &Tree) -> Option<Lent<'_>>
    ensures { option_map lent result ≡ identifier_of (view tree.now) }
{
    if let Some(text) = text_under(tree, "mbox") {
        return Some(Lent::Mbox(text));
    }
    if let Some(text) = text_under(tree, "mbox_sha1sum") {
        return Some(Lent::MboxSha1(text));
    }
    if let Some(text) = text_under(tree, "openid") {
        return Some(Lent::OpenId(text));
    }
    account_in(tree.get("account")?)
}

fn account_in(tree: &Tree) -> Option<Lent<'_>>
    ensures { option_map lent result ≡ account_of (view tree.now) }
{
    let home = text_under(tree, "homePage")?;
    let name = text_under(tree, "name")?;
    Some(Lent::Account { home, name })
}

fn copied(alloc: Global, identifier: &Lent<'_>) -> Result<Ifi, Memory>
    ensures { IfOk result (λ ifi. ifi ≡ lent identifier.now) }
{
    match identifier {
        Lent::Mbox(text) => Ok(Ifi::Mbox(Text::of(alloc, text.as_str())?)),
        Lent::MboxSha1(text) => Ok(Ifi::MboxSha1(Text::of(alloc, text.as_str())?)),
        Lent::OpenId(text) => Ok(Ifi::OpenId(Text::of(alloc, text.as_str())?)),
        Lent::Account { home, name } => {
            let home = Text::of(alloc, home.as_str())?;
            let name = Text::of(alloc, name.as_str())?;
            Ok(Ifi::Account { home, name })
        }
    }
}

/// How many of the four members that identify stand in the tree.
pub fn identifier_count(tree: &Tree) -> usize
    ensures { result ≡ identifier_count (view tree.now) }
{
    usize::from(has_member(tree, "mbox"))
        + usize::from(has_member(tree, "mbox_sha1sum"))
        + usize::from(has_member(tree, "openid"))
        + usize::from(has_member(tree, "account"))
}

/// The least rule that the members that identify break, each if it is there.
#[tactic(auto, using(lrs_names::proofs::RuleLemmas::joined))]
pub fn broken_identifiers(tree: &Tree) -> Option<u8>
    ensures { result ≡ least (identifier_faults (view tree.now)) }
{
    let by_mail = lesser(broken_mailbox(tree), broken_sha1(tree));
    lesser(lesser(by_mail, broken_openid(tree)), broken_account(tree))
}

fn broken_mailbox(tree: &Tree) -> Option<u8>
    ensures { result ≡ least (faults_of_member (codes "mbox") mailbox_faults (view tree.now)) }
{
    match tree.get("mbox") {
        Some(value) => unless(holds_mailbox(value), 7),
        None => None,
    }
}

fn broken_sha1(tree: &Tree) -> Option<u8>
    ensures { result ≡ least (faults_of_member (codes "mbox_sha1sum") sha1_faults (view tree.now)) }
{
    match tree.get("mbox_sha1sum") {
        Some(value) => unless(holds_sha1(value), 8),
        None => None,
    }
}

// Rule 6, since rule 9 is broken by the same values.
fn broken_openid(tree: &Tree) -> Option<u8>
    ensures { result ≡ least (faults_of_member (codes "openid") openid_faults (view tree.now)) }
{
    match tree.get("openid") {
        Some(value) => broken_iri(value),
        None => None,
    }
}

fn broken_account(tree: &Tree) -> Option<u8>
    ensures { result ≡ least (faults_of_member (codes "account") account_faults (view tree.now)) }
{
    match tree.get("account") {
        Some(value) => broken_as_account(value),
        None => None,
    }
}

#[tactic(auto, using(lrs_names::proofs::RuleLemmas::joined))]
fn broken_as_account(tree: &Tree) -> Option<u8>
    ensures { result ≡ least (account_faults (view tree.now)) }
{
    lesser(unless(is_account(tree), 10), broken_home_page(tree))
}

fn broken_home_page(tree: &Tree) -> Option<u8>
    ensures { result ≡ least (faults_of_member (codes "homePage") iri_faults (view tree.now)) }
{
    match tree.get("homePage") {
        Some(value) => broken_iri(value),
        None => None,
    }
}

fn holds_mailbox(tree: &Tree) -> bool
    ensures { result ≡ is_string_that is_mailbox (view tree.now) }
{
    match tree {
        Tree::Words(text) => is_mailbox(text.as_str()),
        _ => false,
    }
}

fn holds_sha1(tree: &Tree) -> bool
    ensures { result ≡ is_string_that is_sha1 (view tree.now) }
{
    match tree {
        Tree::Words(text) => is_sha1(text.as_bytes()),
        _ => false,
    }
}

fn is_account(tree: &Tree) -> bool
    ensures { result ≡ is_account (view tree.now) }
{
    has_only(tree, &["homePage", "name"])
        && has_member(tree, "homePage")
        && has_string(tree, "name")
}

#[tactic(auto, unfolding(crate::specs::Agents::is_mailbox))]
fn is_mailbox(text: &str) -> bool
    ensures { result ≡ is_mailbox text.now }
{
    match text.strip_prefix("mailto:") {
        Some(address) => is_address(address),
        None => false,
    }
}

fn is_address(text: &str) -> bool
    ensures { result ≡ is_address text.now }
{
    stands_around_at_sign(text) && has_no_control_or_space(text)
}

// Whether something stands before and after the last at sign.
fn stands_around_at_sign(text: &str) -> bool
    ensures { result ≡ (has_some (before_last is_at_sign text.now) && has_some (after_last is_at_sign text.now)) }
{
    match text.rfind('@') {
        Some(at) => 0 < at && at + 1 < text.len(),
        None => false,
    }
}

fn has_no_control_or_space(text: &str) -> bool
    ensures { result ≡ list_all (λ c. not (is_control_or_space c)) (chars text.now) }
{
    text.chars().all(|c| !is_control_or_space(c))
}

#[tactic(auto, unfolding(crate::specs::Agents::is_sha1))]
fn is_sha1(text: &[u8]) -> bool
    ensures { result ≡ is_sha1 text.now }
{
    text.len() == 40 && are_hexadecimal_digits(text)
}

fn are_hexadecimal_digits(text: &[u8]) -> bool
    ensures { result ≡ list_all is_ascii_hexdigit text.now }
{
    text.iter().all(|byte| byte.is_ascii_hexdigit())
}
