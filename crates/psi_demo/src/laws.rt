//! Laws for who serves a script.
ghost use Rattle.psi_demo.specs.Laws.{RepliesAreCounted, ScriptsAskThrice, ServedBodiesAreReplies, ServedTextsAreShort, ShortTextsFit};

/// What serves the rounds of a script has a summary, unless memory runs out: a text of at most 196608015 bytes is whole reply
/// frames, the bodies of its answers are replies under the parameters of the demonstration where the sets of the history
/// are sound, and then neither `Torn` nor `Codec` comes. It does nothing: the clauses are what it is for.
pub fn served_replies_are_counted()
    ensures fit { ShortTextsFit }
    ensures bodies { ServedBodiesAreReplies }
    ensures counted { RepliesAreCounted }
{}

/// The text that serves the first rounds of a script, or all of them, has at most 15,744,057 bytes, where the sets of the
/// history are sound: each of its 441 requests adds 35 bytes at most, and each of its three Asks 5,242,874 more. It does
/// nothing: the clauses are what it is for.
pub fn served_scripts_are_short()
    ensures short { ServedTextsAreShort }
    ensures asks { ScriptsAskThrice }
{}
