//! Laws of frames, and of what serves requests.
ghost use Rattle.psi_frames.specs.Feeds.{PiecesDoNotMatter};
ghost use Rattle.psi_frames.specs.Frames.{FramesAreOne, NoReplyBeginsAnother, NoRequestBeginsAnother};
ghost use Rattle.psi_frames.specs.OneLane.{LaneRepliesAreOfOneLane, OneLaneNeverMoves, OneTextIsOfOneLane};
ghost use Rattle.psi_frames.specs.ReplyTexts.{RepliesAreOne, RepliesAreTheirText, TextsAreReadBack};
ghost use Rattle.psi_frames.specs.Rounds.{RoundsAreOne};
ghost use Rattle.psi_frames.specs.Served.{HistoryIsOne};

/// From each start that counts no entries, and behind each history that is legal from it, exactly one text serves rounds of
/// requests as one lane does, if each refusal among them has a code below 7, as bytes decide it; it is that of the one-thread
/// sender's replies. It does nothing: the clauses are what it is for.
pub fn one_text_is_of_one_lane()
    ensures one { OneTextIsOfOneLane }
    ensures lane { LaneRepliesAreOfOneLane }
{}

/// No frame of a reply begins that of another one, so a text of replies is read in one way. It does nothing: the clause
/// is what it is for.
pub fn no_reply_begins_another()
    ensures { NoReplyBeginsAnother }
{}

/// No frame of a request begins that of another one, so a text of requests is read in one way. It does nothing: the
/// clause is what it is for.
pub fn no_request_begins_another()
    ensures { NoRequestBeginsAnother }
{}

/// What a feed has after some bytes, taken or not, is the same in whatever pieces they came. It does nothing: the clause
/// is what it is for.
pub fn pieces_do_not_matter()
    ensures { PiecesDoNotMatter }
{}

/// The bytes of an input are read in one way: by each table they have one list of whole frames, and one fault behind these or
/// none; and frames fall into one list of rounds. It does nothing: the clauses are what it is for.
pub fn an_input_is_read_in_one_way()
    ensures frames { FramesAreOne }
    ensures rounds { RoundsAreOne }
{}

/// Served rounds have one history behind a given one. Of all that serves, only that the places of each round follow on is
/// needed. It does nothing: the clause is what it is for.
pub fn served_rounds_have_one_history()
    ensures { HistoryIsOne }
{}

/// Bytes are read as replies in one way, and they are the text of these; the text of replies that can be sent, their numbers
/// in the ranges of their fields, is read as these. It does nothing: the clauses are what it is for.
pub fn a_text_of_replies_is_read_in_one_way()
    ensures one { RepliesAreOne }
    ensures text { RepliesAreTheirText }
    ensures read_back { TextsAreReadBack }
{}

/// One lane never tells Moved, from a start without entries and stamps, behind whatever history: a Repack's `from` is its own
/// place, and no bundle was changed behind that. It does nothing: the clause is what it is for.
pub fn one_lane_never_moves()
    ensures { OneLaneNeverMoves }
{}
