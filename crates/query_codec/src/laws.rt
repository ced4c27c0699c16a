ghost use Rattle.query_codec.specs.Laws.{QueriesStandApart, RepliesStandApart};

/// No query's body begins another one, and no reply's body begins another one, under the same parameters: where one ends is
/// told by its own bytes. It does nothing: the clauses are what it is for.
pub fn no_body_begins_another()
    ensures queries { QueriesStandApart }
    ensures replies { RepliesStandApart }
{}
