ghost use Rattle.lrs_http.specs.OneList.{OneItem, OneList};

/// A stream spells one list of requests, and ends in one way. So two links that hold one stream give the same, however
/// they are cut.
pub fn law_of_one_list()
    ensures item { OneItem }
    ensures list { OneList }
{}
