//! What holds of every run of the machine.
ghost use Rattle.std.specs.Prelude.{◌≡◌, ◌≤◌, ℕ, true, List};
ghost use Rattle.rk_names.specs.declared.numbers.SessionId.{SessionId};
ghost use Rattle.rk_machine.specs.Event.{Event};
ghost use Rattle.rk_machine.specs.declared.event.Answer.{Answer};
ghost use Rattle.rk_machine.specs.World.{World, empty_world};
ghost use Rattle.rk_machine.specs.Steps.{Beginning, Past, Run, Step};
ghost use Rattle.rk_machine.specs.Views.{is_owed};
ghost use Rattle.rk_machine.specs.Owing.{owed, owed_to, ends_owed, ends_owed_to, constructions, closes};
ghost use Rattle.rk_machine.specs.Recording.{Reached, Recording};
ghost use Rattle.rk_machine.specs.Laws.{EachOnce, EachOutcome, EachOwn, EachRooted, NeverCircle, NeverDeep, EachEffectiveOrMisuse};

/// The laws of every run, from the empty world on, whatever its steps are; running it does nothing.
///
/// *One construction*: each key has at most one start, one launch, one completion and one ending, in this order. But after a piped handler failed,
/// which happens at most once and only before completion, one more launch may come. *One outcome*: all collects that end a wait on a key have one
/// answer, its serial or the error of a key. A collect is put off only before the key's ending; that of a session that did not start it, only
/// before its completion. *Own authority*: a completion of a key is an ask of the handler that makes it, and the latest ASSUME of that handler
/// that was answered 0 named that key. *First requester*: a handler gets the uid, the gid and the rings of the last HELLO before the client's ask
/// that led to its start, over however many handlers. It gets 0 for a ring that no client has any more. *No circle*: at no point does a session
/// wait, over the handlers of the keys on which others wait, for itself. *No deep chain*: at no point do more than 8 starts lead to a handler. A
/// launch, an end or a client's end counts if it is effective; any other is answered as misuse, but for an end that another handler follows.
pub fn every_run()
    ensures one_construction { (from : Beginning) (past : List Past) (w : World) → Run from past w → EachOnce past }
    ensures one_outcome { (from : Beginning) (past : List Past) (w : World) → Run from past w → EachOutcome past }
    ensures own_authority { (from : Beginning) (past : List Past) (w : World) → Run from past w → EachOwn past }
    ensures first_requester { (from : Beginning) (past : List Past) (w : World) → Run from past w → EachRooted past }
    ensures no_circle { (from : Beginning) (past : List Past) (w : World) → Run from past w → NeverCircle past }
    ensures no_deep_chain { (from : Beginning) (past : List Past) (w : World) → Run from past w → NeverDeep past }
    ensures effective { (from : Beginning) (past : List Past) (w : World) → Run from past w → EachEffectiveOrMisuse past }
{}

/// What is owed in every run, for which whoever records its steps keeps places; running it does nothing.
///
/// In the beginning nothing is owed. Each step changes what is owed only by what is owed to the client or construction that its event is about,
/// and by a construction that starts. A step that is owed takes no place more than it had, and is answered neither by out of memory nor by
/// bytes. Nobody is owed more than all together, and there are no more constructions than places owed.
pub fn every_step_owed()
    ensures beginning { (negative first stride : ℕ) → let w = empty_world negative first stride in (owed w ≡ 0) × (ends_owed w ≡ 0) × (constructions w ≡ 0) }
    ensures steps { (old : World) (now : ℕ) (event : Event) (answer : Answer) (new : World) → Reached old
        → Step old now event answer new → Recording old event answer new }
    ensures part { (w : World) (s : SessionId) → (owed_to w s ≤ owed w) × (ends_owed_to w s ≤ ends_owed w) }
    ensures constructions { (w : World) → constructions w ≤ owed w }
    ensures closing { (w : World) (event : Event) → is_owed w event ≡ true → closes event ≤ constructions w }
{}
