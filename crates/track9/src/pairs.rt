//! Sets of pairs of a goal and a shown mode.
ghost use Rattle.std.specs.Prelude.{◌≡◌, IfNone, IfSome, true};
ghost use Rattle.deck9.specs.Drift.{PairReaches};
ghost use Rattle.deck9.specs.ModeSet.{has};
ghost use Rattle.track9.specs.Tracker.{has_pair, shown_with};
ghost use Rattle.track9.specs.Working.Pattern.{Is, IsPairOf, PairRunsTo};
ghost use Rattle.track9.specs.Working.Touched.{touched_pairs};
ghost use Rattle.deck9.specs.ModeCalls.{is_some};
ghost use Rattle.track9.specs.Working.Parts.{gone_pairs, kept_or_gone};
ghost use Rattle.track9.specs.Working.Pairs.{all_pairs, drifted, drifted_with, all_shown, gone, gone_with, goal_if_shown, goals_of, halted, joined, kept_goal, masked, no_pairs, pairs_of, shown_if, some_pair};
ghost use Rattle.deck9.specs.declared.mode.Mode.{Mode as AMode};

use crate::acting::Acting;
use crate::start::known_modes;
use deck9::{Mode, ModeSet};

/// The modes that may be shown with each goal, in the order of the modes.
#[derive(Clone, Copy, PartialEq, Eq)]
pub(crate) struct Pairs([ModeSet; 10]);

/// A goal and a shown mode.
#[derive(Clone, Copy, PartialEq, Eq)]
pub(crate) struct Pair {
    pub(crate) goal: Mode,
    pub(crate) shown: Mode,
}

impl Pairs {
    /// No pair.
    pub(crate) fn none() -> Pairs
        ensures { result.0 ≡ no_pairs }
    {
        Pairs([ModeSet::NONE; 10])
    }

    /// Every pair.
    pub(crate) fn all() -> Pairs
        ensures { result.0 ≡ all_pairs }
    {
        Pairs([ModeSet::ALL; 10])
    }

    /// Each of these goals with each of these modes shown.
    pub(crate) fn of(goals: ModeSet, shown: ModeSet) -> Pairs
        ensures { result.0 ≡ pairs_of goals shown }
    {
        Pairs([
            shown_if(goals, shown, Mode::Stop),
            shown_if(goals, shown, Mode::Play),
            shown_if(goals, shown, Mode::Rec),
            shown_if(goals, shown, Mode::FastForward),
            shown_if(goals, shown, Mode::Rewind),
            shown_if(goals, shown, Mode::Shuttle),
            shown_if(goals, shown, Mode::Jog),
            shown_if(goals, shown, Mode::Var),
            shown_if(goals, shown, Mode::Cued),
            shown_if(goals, shown, Mode::Eject),
        ])
    }

    /// The modes that may be shown with a goal.
    pub(crate) fn shown(&self, goal: Mode) -> ModeSet
        ensures { result ≡ shown_with self.now.0 goal }
    {
        self.0[goal.index()]
    }

    /// All modes that may be shown, with any goal.
    pub(crate) fn all_shown(&self) -> ModeSet
        ensures { result ≡ all_shown self.now.0 }
    {
        let [a, b, c, d, e, f, g, h, i, j] = self.0;
        a.or(b).or(c).or(d).or(e).or(f).or(g).or(h).or(i).or(j)
    }

    /// The goals that a mode may be shown with.
    pub(crate) fn goals(&self) -> ModeSet
        ensures { result ≡ goals_of self.now.0 }
    {
        Pairs([
            self.goal_if_shown(Mode::Stop),
            self.goal_if_shown(Mode::Play),
            self.goal_if_shown(Mode::Rec),
            self.goal_if_shown(Mode::FastForward),
            self.goal_if_shown(Mode::Rewind),
            self.goal_if_shown(Mode::Shuttle),
            self.goal_if_shown(Mode::Jog),
            self.goal_if_shown(Mode::Var),
            self.goal_if_shown(Mode::Cued),
            self.goal_if_shown(Mode::Eject),
        ])
        .all_shown()
    }

    /// The goal alone, where a mode may be shown with it.
    fn goal_if_shown(&self, goal: Mode) -> ModeSet
        ensures { result ≡ goal_if_shown self.now.0 goal }
    {
        if self.shown(goal).is_some() {
            ModeSet::just(goal)
        } else {
            ModeSet::NONE
        }
    }

    /// Whether there is a pair.
    pub(crate) fn is_some(&self) -> bool
        ensures { result ≡ some_pair self.now.0 }
    {
        self.all_shown().is_some()
    }

    /// The pairs that a drift of the mechanics reaches.
    #[inline(always)] // so that what `drift` has asked is not asked again
    pub(crate) fn drifted(&self, acting: &Acting) -> Pairs
        ensures { result.0 ≡ drifted acting.now self.now.0 }
    {
        let [a, b, c, d, e, f, g, h, i, j] = *acting.reach();
        let halted = self.halted(acting.at_halt());
        Pairs([
            self.kept(Mode::Stop, a).or(halted),
            self.kept(Mode::Play, b),
            self.kept(Mode::Rec, c),
            self.kept(Mode::FastForward, d),
            self.kept(Mode::Rewind, e),
            self.kept(Mode::Shuttle, f),
            self.kept(Mode::Jog, g),
            self.kept(Mode::Var, h),
            self.kept(Mode::Cued, i),
            self.kept(Mode::Eject, j),
        ])
    }

    /// A drift of the mechanics. It answers whether there is a pair.
    #[inline(always)] // each exchange drifts two sets of pairs
    pub(crate) fn drift(&mut self, acting: &Acting) -> bool
        ensures drifted { self.new.0 ≡ drifted acting.now self.old.0 }
        ensures some { result ≡ some_pair self.new.0 }
    {
        let some = self.is_some();
        if some {
            *self = self.drifted(acting);
        }
        some
    }

    /// The modes that a drift can show with a goal that it keeps, with these in its reach.
    fn kept(&self, goal: Mode, reach: ModeSet) -> ModeSet
        ensures { result ≡ kept_goal (shown_with self.now.0 goal) reach }
    {
        let shown = self.shown(goal);
        if shown.is_some() {
            shown.or(reach)
        } else {
            shown
        }
    }

    /// The modes that a deck can show that has come to a halt, with these in the reach of STOP.
    fn halted(&self, reach: ModeSet) -> ModeSet
        ensures { result ≡ halted self.now.0 reach }
    {
        if self.is_some() { reach } else { ModeSet::NONE }
    }

    /// A pair from which a drift of the mechanics reaches one of these goals with one of these modes shown: None
    /// exactly where there is none.
    pub(crate) fn origin(&self, acting: &Acting, goals: ModeSet, shown: ModeSet) -> Option<Pair>
        ensures some { IfSome result (λ p. IsPairOf self.now.0 p × PairRunsTo acting.now goals shown p.goal p.shown) }
        ensures none { IfNone result (¬ ((f n : AMode) × (has_pair self.now.0 f n ≡ true) × PairRunsTo acting.now goals shown f n)) }
    {
        let reached = self.drifted(acting).masked(shown);
        let goals = reached.goals().and(goals);
        if !goals.is_some() {
            return None;
        }
        let goal = goals.first();
        Some(self.source(acting, goal, reached.shown(goal).first()))
    }

    /// A pair with what is known of goal and shown mode: None exactly where there is none.
    pub(crate) fn pick(&self, goal: Option<Mode>, shown: Option<Mode>) -> Option<Pair>
        ensures some { IfSome result (λ p. IsPairOf self.now.0 p × Is goal p.goal × Is shown p.shown) }
        ensures none { IfNone result (¬ ((g m : AMode) × (has_pair self.now.0 g m ≡ true) × Is goal g × Is shown m)) }
    {
        let left = self.masked(known_modes(shown));
        let goals = left.goals().and(known_modes(goal));
        if !goals.is_some() {
            return None;
        }
        let goal = goals.first();
        Some(Pair {
            goal,
            shown: left.shown(goal).first(),
        })
    }

    /// A pair from which a drift of the mechanics reaches this one. There is one.
    fn source(&self, acting: &Acting, goal: Mode, shown: Mode) -> Pair
        requires { has (drifted_with acting.now self.now.0 goal).0 shown ≡ true }
        ensures { IsPairOf self.now.0 result × PairReaches acting.now.deck acting.now.on result.goal result.shown goal shown }
    {
        let kept = self.shown(goal);
        if kept.has(shown) {
            return Pair { goal, shown };
        }
        if kept.is_some() && acting.reach_with(goal).has(shown) {
            return Pair {
                goal,
                shown: kept.first(),
            };
        }
        let goal = self.goals().first();
        Pair {
            goal,
            shown: self.shown(goal).first(),
        }
    }

    /// The pairs with this goal in place of theirs, and where `may_stay` as they are too.
    #[inline(always)] // many commands are of the transport
    pub(crate) fn go(&mut self, may_stay: bool, goal: Mode)
        ensures { self.new.0 ≡ gone_pairs may_stay goal self.old.0 }
    {
        let shown = self.all_shown();
        if may_stay {
            self.0[goal.index()] = self.shown(goal).or(shown);
        } else {
            *self = Pairs::none();
            self.0[goal.index()] = shown;
        }
    }

    /// The pairs as they are, and with each of these goals in place of theirs.
    pub(crate) fn keep_or_go(&mut self, goals: ModeSet)
        ensures { self.new.0 ≡ kept_or_gone goals self.old.0 }
    {
        let [a, b, c, d, e, f, g, h, i, j] = self.0;
        let [k, l, m, n, o, p, q, r, s, t] = Pairs::of(goals, self.all_shown()).0;
        *self = Pairs([
            a.or(k),
            b.or(l),
            c.or(m),
            d.or(n),
            e.or(o),
            f.or(p),
            g.or(q),
            h.or(r),
            i.or(s),
            j.or(t),
        ]);
    }

    /// The pairs after a move of a hand: where it keeps goal or shown mode alone, each of those with any of the other.
    pub(crate) fn touched(&self, keeps_goal: bool, keeps_shown: bool) -> Pairs
        ensures { result.0 ≡ touched_pairs keeps_goal keeps_shown self.now.0 }
    {
        match (keeps_goal, keeps_shown) {
            (true, true) => *self,
            (true, false) => Pairs::of(self.goals(), ModeSet::ALL),
            (false, true) => Pairs::of(ModeSet::ALL, self.all_shown()),
            (false, false) => Pairs::all(),
        }
    }

    /// The pairs with one of these modes shown.
    pub(crate) fn masked(&self, mask: ModeSet) -> Pairs
        ensures { result.0 ≡ masked mask self.now.0 }
    {
        let [a, b, c, d, e, f, g, h, i, j] = self.0;
        let only = |shown: ModeSet| shown.and(mask);
        Pairs([
            only(a),
            only(b),
            only(c),
            only(d),
            only(e),
            only(f),
            only(g),
            only(h),
            only(i),
            only(j),
        ])
    }
}

/// These modes, where the goal is one of those.
fn shown_if(goals: ModeSet, shown: ModeSet, goal: Mode) -> ModeSet
    ensures { result ≡ shown_if goals shown goal }
{
    if goals.has(goal) {
        shown
    } else {
        ModeSet::NONE
    }
}
