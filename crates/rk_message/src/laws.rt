//! What the format says of every ask, every reply and every body.

ghost use Rattle.rk_message.specs.Table.{asks, replies};
ghost use Rattle.rk_message.specs.Laws.{AsksAreTold, AsksReadBack, RepliesAreTold, RepliesReadBack, SpellsAsk, SpellsReply, ReadsOrFails};

/// Two asks with the same spelling are the same ask, and the spelling of an ask reads back as it. Each
/// body either spells an ask and has no fault, or spells none and has exactly one. It does nothing
/// when it runs: a proof calls it for what it ensures.
pub fn asks_have_one_reading()
    ensures told { AsksAreTold }
    ensures back { AsksReadBack }
    ensures whole { ReadsOrFails SpellsAsk asks }
{}

/// The same of replies.
pub fn replies_have_one_reading()
    ensures told { RepliesAreTold }
    ensures back { RepliesReadBack }
    ensures whole { ReadsOrFails SpellsReply replies }
{}
