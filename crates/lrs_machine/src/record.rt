use lrs_record::Entry;
use std::marker::Model;
use std::snapshot::Snapshot;

/// What became of an act that changed the journal. Clauses see the entry that it made; at run time there is none.
#[derive(Drop)]
pub struct Record {
    pub(crate) made: Option<Snapshot<Entry>>,
    pub(crate) acknowledged: bool,
    pub(crate) landed: bool,
    pub(crate) moment: u64,
}

impl Model for Record {
    ghost use Rattle.std.specs.Prelude.{option_map};
    ghost use Rattle.std.specs.Coded.{codes};
    ghost use Rattle.lrs_json.specs.contracts.tree.Tree as tree;
    ghost use Rattle.lrs_machine.specs.Line.{Record as SpecRecord};

    ghost Value = { SpecRecord };

    ghost coded = { Prim.hlevel (codes, tree.the_row.coded) };

    ghost view = { λ r. record {
      made = option_map (λ s. s.value) r.made;
      acknowledged = r.acknowledged;
      landed = r.landed;
      moment = r.moment;
    } };
}
