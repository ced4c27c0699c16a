//! The law of short replies.
ghost use Rattle.reply_switch.specs.Laws.{
  CarriedRepliesOpen,
  RepliesOpen,
  ReplySlotsEvaluate,
  RoundingsAreSmall,
  ShortenedAreShort,
};

/// What short ciphertexts are and what a reply's ciphertexts open to, full or short by the form of the reply. It does nothing: the
/// clauses are what it is for.
pub fn short_replies_open()
    ensures shortened_are_short { ShortenedAreShort }
    ensures roundings_are_small { RoundingsAreSmall }
    ensures carried_replies_open { CarriedRepliesOpen }
    ensures replies_open { RepliesOpen }
    ensures slots_evaluate { ReplySlotsEvaluate }
{}
