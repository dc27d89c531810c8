// What the program posts itself, and how many statements are listed then.
ghost use Rattle.std.specs.Prelude.{◌≡◌};
ghost use Rattle.lrs_fold.specs.Posted.{post_of};
ghost use Rattle.lrs_learning.specs.LrsPartsParts.{state_of};
ghost use Rattle.lrs_reads.specs.XapiPagesListings.{listed_of_all};

use crate::Fold;
use lrs_command::Command;
use lrs_json::{Items, Tree};
use lrs_reads::{Submission, count_listed};
use lrs_record::Write;

/// The post of statements. Their form is judged when it is answered.
pub fn post_of(statements: Items<Tree>) -> Submission
    ensures { result ≡ post_of statements }
{
    Submission::unjudged(Command::Write(Write::Post { statements }))
}

impl Fold {
    /// How many statements a query without filters lists to an admin.
    pub fn listed(&self) -> u64
        ensures { result ≡ listed_of_all (state_of self.now.parts).statements }
    {
        count_listed(&self.parts.statements)
    }
}
