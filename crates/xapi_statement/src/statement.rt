ghost use Rattle.std.specs.Prelude.{◌≡◌, ◌⊎◌, ◌↔◌, None, Some, Err, IsTrue, MatchResult, option_map, MatchOption, IsSomeAnd, ℕ, List, codes, false};
ghost use Rattle.lrs_decimal.specs.Values.{HasValue};
ghost use Rattle.lrs_json.specs.View.{view};
ghost use Rattle.lrs_decimal.specs.Range.{is_decimal};
ghost use Rattle.xapi_properties.specs.XapiRulesRules.{is_voiding};
ghost use Rattle.xapi_statement.specs.Parties.{has_agent, actor_of};
ghost use Rattle.xapi_statement.specs.Statement.{is_too_long, refusal, is_statement, own_id, verb_of, registration_of, target_of, activity_of, has_context_activity, has_activity, extension_of, result_boolean, scaled_of, has_duration};

use crate::refused::{StatementRefused, judge};
use lrs_decimal::Decimal;
use lrs_json::{Text, Tree};
use lrs_names::Id;
use std::alloc::Global;
use xapi_properties::Ifi;

/// A value that breaks none of the rules on statements. One that was read isn't too long either; one that the store
/// makes may be longer.
#[derive(Drop)]
pub struct Statement {
    /// The value as it was received or made.
    pub tree: Tree,
    pub ghost unbroken: { IsTrue (is_statement (view tree)) },
}

impl Statement {
    /// Holds the tree against the length and the rules, and keeps it as it is.
    #[tactic(auto, using(crate::proofs::Refusals::not_refused))]
    pub fn read(alloc: Global, tree: Tree) -> Result<Statement, StatementRefused>
        ensures read { MatchResult result (λ s. (s.tree ≡ tree) × (refusal (view tree) ≡ None))
            (λ e. (refusal (view tree) ≡ Some e) ⊎ (e ≡ StatementRefused.Memory)) }
        ensures too_long { (result ≡ Err StatementRefused.TooLong) ↔ IsTrue (is_too_long (view tree)) }
    {
        match judge(alloc, &tree) {
            Ok(()) => Ok(Statement { tree }),
            Err(refused) => Err(refused),
        }
    }

    /// The statement that a tree is which was judged before, or made by the store.
    pub fn of(tree: Tree) -> Statement
        requires { IsTrue (is_statement (view tree)) }
        ensures { result.tree ≡ tree }
    {
        Statement { tree }
    }

    /// The tree that was read or made.
    pub fn received(&self) -> &Tree
        ensures { result.now ≡ self.now.tree }
    {
        &self.tree
    }

    /// The id that it gives itself.
    pub fn id(&self) -> Option<Id>
        ensures { result ≡ own_id (view self.now.tree) }
    {
        xapi_properties::own_id(&self.tree)
    }

    /// The id of its verb, an IRI.
    pub fn verb(&self) -> &str
        ensures { result.now ≡ verb_of (view self.now.tree) }
    {
        xapi_properties::verb_of(&self.tree)
    }

    /// The registration that its context names, a UUID.
    pub fn registration(&self) -> Option<Id>
        ensures { result ≡ registration_of (view self.now.tree) }
    {
        xapi_properties::registration_of(&self.tree)
    }

    /// Whether its verb is voided (xAPI 1.0.3, part two, section 2.3.2).
    pub fn is_voiding(&self) -> bool
        ensures { result ≡ is_voiding (view self.now.tree) }
    {
        xapi_properties::is_voiding(&self.tree)
    }

    /// The statement to which its object refers.
    pub fn target(&self) -> Option<Id>
        ensures { result ≡ target_of (view self.now.tree) }
    {
        xapi_properties::target_of(&self.tree)
    }

    /// The id of the Activity that is its object, an IRI.
    pub fn activity(&self) -> Option<&Text>
        ensures { option_map (λ t. t.now) result ≡ activity_of (view self.now.tree) }
    {
        xapi_properties::activity_of(&self.tree)
    }

    /// Whether its actor is the Agent of that identifier.
    pub fn is_actor(&self, ifi: &Ifi) -> bool
        ensures { IsTrue result ↔ (actor_of (view self.now.tree) ≡ Some ifi.now) }
    {
        xapi_properties::is_actor(&self.tree, ifi)
    }

    /// Whether who has that identifier takes part in it, as actor or object or as a member of one; with the related
    /// roles also as authority, instructor, team, and in a SubStatement.
    pub fn has_agent(&self, ifi: &Ifi, related: bool) -> bool
        ensures { result ≡ has_agent ifi.now related (view self.now.tree) }
    {
        xapi_properties::has_agent(&self.tree, ifi, related)
    }

    /// Whether its object is the Activity of that id; with the related roles also whether its context activities, or
    /// those of a SubStatement, hold it.
    pub fn has_activity(&self, id: &str, related: bool) -> bool
        ensures { result ≡ has_activity id.now related (view self.now.tree) }
    {
        xapi_properties::has_activity(&self.tree, id, related)
    }

    /// Whether the category activities of its context hold the Activity of that id.
    pub fn category(&self, id: &str) -> bool
        ensures { result ≡ has_context_activity (codes "category") id.now (view self.now.tree) }
    {
        xapi_properties::has_context_activity(&self.tree, "category", id)
    }

    /// Whether the grouping activities of its context hold the Activity of that id.
    pub fn grouping(&self, id: &str) -> bool
        ensures { result ≡ has_context_activity (codes "grouping") id.now (view self.now.tree) }
    {
        xapi_properties::has_context_activity(&self.tree, "grouping", id)
    }

    /// What the extension of its context of that name holds.
    pub fn extension(&self, id: &str) -> Option<&Tree>
        ensures { option_map (λ t. view t.now) result ≡ extension_of id.now (view self.now.tree) }
    {
        xapi_properties::extension_of(&self.tree, id)
    }

    /// The scaled score of its result.
    pub fn scaled(&self) -> Option<Decimal>
        ensures { MatchOption result
            ((s : List ℕ) → scaled_of (view self.now.tree) ≡ Some s → is_decimal s ≡ false)
            (λ d. IsSomeAnd (scaled_of (view self.now.tree)) (λ s. HasValue d s)) }
    {
        xapi_properties::scaled_of(&self.tree)
    }

    /// Whether its result says that it was a success.
    pub fn success(&self) -> Option<bool>
        ensures { result ≡ result_boolean (codes "success") (view self.now.tree) }
    {
        xapi_properties::result_boolean(&self.tree, "success")
    }

    /// Whether its result says that what it is about was completed.
    pub fn completion(&self) -> Option<bool>
        ensures { result ≡ result_boolean (codes "completion") (view self.now.tree) }
    {
        xapi_properties::result_boolean(&self.tree, "completion")
    }

    /// Whether its result has a duration.
    pub fn has_duration(&self) -> bool
        ensures { result ≡ has_duration (view self.now.tree) }
    {
        xapi_properties::has_duration(&self.tree)
    }
}
