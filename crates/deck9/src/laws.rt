//! The laws of the deck, each the contract of a function that does nothing: that the definitions of drifts, steps and runs
//! mean what was meant.
ghost use Rattle.std.specs.Prelude.{◌≡◌, ◌≢◌, ◌↔◌, ◌⊎◌, ◌<◌, ◌+◌, ◌||◌, ℕ, Bool, true, false, None, Option, Some, List, [], ◌∷◌, ◌++◌, length, slice_get};
ghost use Rattle.std.specs.List.{All};
ghost use Rattle.block9.specs.Command.{is_nak, name_of};
ghost use Rattle.block9.specs.declared.block.Block.{Block};
ghost use Rattle.block9.specs.declared.command.Command.{Command};
ghost use Rattle.block9.specs.declared.exchange.Exchange.{Exchange};
ghost use Rattle.deck9.specs.Contradict.{CanPass, HasBelieving};
ghost use Rattle.deck9.specs.declared.deck.Deck.{Deck as ADeck};
ghost use Rattle.deck9.specs.declared.going.Going.{Going as AGoing};
ghost use Rattle.deck9.specs.Going.{nothing_on, on_at_first};
ghost use Rattle.deck9.specs.Drift.{Drift, DriftsTo};
ghost use Rattle.deck9.specs.Laws.{AreAnswered, ForgetsNoMore, ForgetsNothingBeside, GoesOnNoMore, IsNoMore, IsRightReply, NamesNoMore, PassesNoMore, SaysNoMore, SetsInDay, ShowJust};
ghost use Rattle.deck9.specs.Local.{may_ignore};
ghost use Rattle.deck9.specs.Mode.{index_of, is_mode};
ghost use Rattle.deck9.specs.Run.{Ends, HasRun, on_through};
ghost use Rattle.deck9.specs.State.{IsFirst, IsState};
ghost use Rattle.deck9.specs.Status.{may_show};
ghost use Rattle.deck9.specs.Effect.{Does, Forgets};
ghost use Rattle.deck9.specs.Step.{AreReached, DeckStep, Goes};

use crate::deck::Forgotten;
use crate::effect::Effect;
use crate::mode::Mode;
use crate::mode_set::ModeSet;
use crate::profile::Profile;
use crate::state::{Hands, State};
use tc25::Rate;

/// All modes are the ten, each at its place.
pub fn modes_in_their_order()
    ensures ten { length Mode.ALL ≡ 10 }
    ensures place { (m : Mode) → slice_get Mode.ALL (index_of m) ≡ Some m }
{}

/// A deck need not drift, and a drift after a drift is one.
pub fn drifts_join()
    ensures none { (p : Profile) (on : AGoing) (s : State) → Drift p on s s }
    ensures more { (p : Profile) (on : AGoing) (s t u : State) → Drift p on s t → Drift p on t u → Drift p on s u }
{}

/// A drift, any finite number of moves, comes to one of these pairs of goal and shown mode: the goal with the mode shown before, with
/// itself, or with a mode on the way to it; STOP with itself, or with a mode on the way to it; or either with a mode that may be going
/// on. Of the registers each that may be lost stays or is clear. Or where hands are allowed and the panel is on, it comes to any state
/// with the panel on.
pub fn a_drift_by_pairs()
    ensures { (p : Profile) (on : AGoing) (s t : State) → Drift p on s t ↔ DriftsTo p on s t }
{}

/// A NAK, whatever its reasons and whatever was asked, leads from a state to the same state and to no other.
pub fn a_nak_changes_nothing()
    ensures { (p : Profile) (command : Command) (reply : Block) (s t : State) → is_nak reply ≡ true → (DeckStep p command reply s t ↔ (t ≡ s)) }
{}

/// A deck in LOCAL may ignore listed commands alone.
pub fn local_ignores_listed_commands()
    ensures { (command : Command) → may_ignore command ≡ true → name_of command ≢ None }
{}

/// What a deck that nobody touches can reply, a deck that somebody may touch can reply too.
pub fn hands_explain_no_less()
    ensures { (rate : Rate) (deck : Option ADeck) (es : List Exchange) → HasRun (record { rate = rate; hands = Hands.None; deck = deck }) es → HasRun (record { rate = rate; hands = Hands.Allowed; deck = deck }) es }
{}

/// A deck at which each command does no more than at another, beside which no more is forgotten, that has no more modes on the way to
/// each goal, and where no more may be going on, has a run only where the other has one, and each state in which its runs end is one in
/// which runs of the other do.
pub fn a_sheet_that_forgets_less()
    ensures runs { (p : Profile) (less more : Option ADeck) (es : List Exchange) → ForgetsNoMore p less more → PassesNoMore less more → GoesOnNoMore less more
        → HasRun (record p { deck = less }) es → HasRun (record p { deck = more }) es }
    ensures ends { (p : Profile) (less more : Option ADeck) (es : List Exchange) (t : State) → ForgetsNoMore p less more → PassesNoMore less more → GoesOnNoMore less more
        → Ends (record p { deck = less }) es t → Ends (record p { deck = more }) es t }
{}

/// In a sheet's own words: nothing is at most motion, that at most tape, that at most everything, and registers are at most tape; fewer
/// goals are at most more, nothing is at most some goals, and these at most motion. A deck whose sheet says no more at each command,
/// and beside each, forgets no more.
pub fn a_sheet_that_says_less()
    ensures { (p : Profile) (less more : Option ADeck) → SaysNoMore less more → ForgetsNoMore p less more }
{}

/// In a sheet's own words: where what it names for each command is a part of what another sheet names for it, no more may be going on.
/// For a command for which it names nothing the other may name anything, if that command leaves nothing without a name, and else all
/// that the sheet names.
pub fn a_sheet_that_names_less()
    ensures { (less more : Option ADeck) → NamesNoMore less more → GoesOnNoMore less more }
{}

/// A command that may lead to some goals, and forgets this beside that, does no more than one that forgets the motion and this.
pub fn goals_lead_to_no_more()
    ensures { (p : Profile) (goals : ModeSet) (beside all : Forgotten) (s u t : State) → IsState p.rate s → IsNoMore Forgotten.Motion all → IsNoMore beside all
        → Does p (Effect.KeepOr goals) s u → Forgets p beside u t → Forgets p all s t }
{}

/// Without an exchange, the states in which runs end are the first states. One exchange more leads from the states in which
/// runs end to exactly those in which the longer runs end.
pub fn states_after_one_more()
    ensures none { (p : Profile) (s : State) → Ends p [] s ↔ IsFirst p s }
    ensures more { (p : Profile) (es : List Exchange) (e : Exchange)
        → AreReached (Ends p es) (Goes p (on_through p (on_at_first p.deck) es) e) (Ends p (es ++ e ∷ [])) }
{}

/// There is a state in which runs end exactly where there is a run.
pub fn no_state_without_a_run()
    ensures { (p : Profile) (es : List Exchange) → ((s : State) × Ends p es s) ↔ HasRun p es }
{}

/// What is left of an explainable capture without its first exchanges is explainable.
pub fn rest_has_a_run()
    ensures { (p : Profile) (es fs : List Exchange) → HasRun p (es ++ fs) → HasRun p fs }
{}

/// A deck is never stuck: in each state each command has a right reply that is no NAK, and a step with it. A preset has to
/// carry a time of the day for that, as each does that was read at the deck's rate.
pub fn never_stuck()
    ensures { (p : Profile) (command : Command) (s : State) → SetsInDay p.rate command → IsState p.rate s
        → (reply : Block) × IsRightReply p.rate command reply × (is_nak reply ≡ false) × (t : State) × DeckStep p command reply s t }
{}

/// Where its reply is not known, a command may do what it may do with some right reply: nothing, or its effect.
pub fn some_reply_passes()
    ensures { (p : Profile) (command : Command) (s t : State)
        → CanPass p command s t ↔ ((reply : Block) × IsRightReply p.rate command reply × DeckStep p command reply s t) }
{}

/// Replies that contradict one another no deck can have given, whatever it answered to everything else. Replies that do not some
/// deck can have given with some other answers, unless something is forgotten beside a command's effect, or may be going on: a deck in
/// REMOTE whose reply is not believed may have left a command undone and forgotten, and no reply shows that; nor does one show that a
/// command was done and what went on before it goes on.
pub fn whatever_else_was_answered()
    ensures contradict { (p : Profile) (is_believed : ℕ → Bool) (es fs : List Exchange)
        → AreAnswered p.rate is_believed es fs → HasRun p fs → HasBelieving p is_believed es }
    ensures answered { (p : Profile) (is_believed : ℕ → Bool) (es : List Exchange) → ForgetsNothingBeside p.deck → on_at_first p.deck ≡ nothing_on
        → HasBelieving p is_believed es → (fs : List Exchange) × AreAnswered p.rate is_believed es fs × HasRun p fs }
{}

/// A run that believes all replies is an ordinary run.
pub fn believing_all_is_a_run()
    ensures { (p : Profile) (es : List Exchange) → HasBelieving p (λ k. true) es ↔ HasRun p es }
{}

/// Believing fewer replies loses no run.
pub fn believing_fewer_is_no_harder()
    ensures { (p : Profile) (more fewer : ℕ → Bool) (es : List Exchange) → ((k : ℕ) → fewer k ≡ true → more k ≡ true)
        → HasBelieving p more es → HasBelieving p fewer es }
{}

/// What comes before the first reply that is believed may be left out.
pub fn before_the_first_believed()
    ensures { (p : Profile) (is_believed : ℕ → Bool) (es fs : List Exchange)
        → ((k : ℕ) → k < length es → is_believed k ≡ false)
        → (HasBelieving p is_believed (es ++ fs) ↔ HasBelieving p (λ k. is_believed (length es + k)) fs) }
{}

/// A status can tell each mode but CUED: there are data 1 and 2 that fit that mode alone. What fits CUED fits STOP or EJECT
/// too: some data fit just CUED and STOP, and some just CUED and EJECT.
pub fn a_status_tells_a_mode()
    ensures alone { (m : Mode) → m ≢ Mode.Cued → ShowJust (is_mode m) }
    ensures cued_or_stop { ShowJust (λ m. is_mode Mode.Cued m || is_mode Mode.Stop m) }
    ensures cued_or_eject { ShowJust (λ m. is_mode Mode.Cued m || is_mode Mode.Eject m) }
    ensures cued { (datum1 datum2 : ℕ) → may_show (Some datum1) (Some datum2) Mode.Cued ≡ true
        → (may_show (Some datum1) (Some datum2) Mode.Stop ≡ true) ⊎ (may_show (Some datum1) (Some datum2) Mode.Eject ≡ true) }
{}
