//! The laws of the definitions that contracts cite, each the contract of a function that does nothing: what
//! carries a verdict from a record to the next.
ghost use Rattle.std.specs.Prelude.{◌≡◌, ◌==◌, ◌≤◌, ◌+◌, ◌↔◌, map, ℕ, if◌then◌else◌, List, [], ◌∷◌, ◌++◌, drop, length, Option, Result, Some};
ghost use Rattle.block9.specs.Exchange.{Cut, IsKept};
ghost use Rattle.block9.specs.Line.{last_time};
ghost use Rattle.block9.specs.Reason.{IsReason};
ghost use Rattle.block9.specs.declared.exchange.Exchange.{Exchange};
ghost use Rattle.capture9.specs.Rows.{Rows};
ghost use Rattle.judge9.specs.Beginning.{Rest, judged_from};
ghost use Rattle.judge9.specs.Renumbered.{renumbered_break, renumbered_part, renumbered_rest, renumbered_totals};
ghost use Rattle.judge9.specs.Judging.{Answer, IsAnswer};
ghost use Rattle.judge9.specs.Judging.Answer.{judged};
ghost use Rattle.judge9.specs.Report.{IsText, Told, by_verdict};
ghost use Rattle.judge9.specs.Retimed.{AreRetimed, AreSameParts, IsSamePart, NoneIsLate, untimed};
ghost use Rattle.judge9.specs.Parts.{AreParts, AreTotals, BrokenPart, Event, IsPart, Part, events_of, in_parts, late_replies, number_of};
ghost use Rattle.judge9.specs.Parts.Event.{late_reply};
ghost use Rattle.judge9.specs.Verdict.{AreCounts, Breaks, IsFirstBreak, IsOk, Terms, counting, line_rules};
ghost use Rattle.report9.specs.Writing.{AppendsPart};
ghost use Rattle.report9.specs.declared.verdict.Extent.TheVariants as AnExtent;
ghost use Rattle.std.specs.List.{All};
ghost use Rattle.std.specs.List.Sorted.{IsNonDecreasingBy};
ghost use Rattle.deck9.specs.Run.{Ends, HasRun};
ghost use Rattle.block9.specs.Replies.{TakesNoMore};
ghost use Rattle.deck9.specs.Deck.{replies_of};
ghost use Rattle.deck9.specs.Laws.{ForgetsNoMore, GoesOnNoMore, PassesNoMore};
ghost use Rattle.deck9.specs.declared.deck.Deck.{Deck as ADeck};

use block9::{LineRules, Reason};
use capture9::LineByte;
use deck9::{Hands, Profile, State};
use report9::{Beginning, JudgeError, Totals, Verdict, View};
use tc25::Rate;

/// A list of records has at most one cut into exchanges and a tail.
pub fn one_cut()
    ensures { (rules : LineRules) (records : List LineByte) (some others : List Exchange) (tail rest : List LineByte)
        → Cut rules records some tail → Cut rules records others rest → (some ≡ others) × (tail ≡ rest) }
{}

/// Records that keep the rules together with a next one keep them without it.
pub fn prefix_is_ok()
    ensures { (terms : Terms) (records : List LineByte) (next : LineByte) → IsOk terms (records ++ next ∷ []) → IsOk terms records }
{}

/// Whether the next record breaks a rule of blocks, pairing or timing depends on the tail of the records alone, and
/// where it does, so does the reason.
pub fn tail_decides()
    ensures kept { (rules : LineRules) (records : List LineByte) (exchanges : List Exchange) (tail : List LineByte) (next : LineByte)
        → Cut rules records exchanges tail → (IsKept rules (records ++ next ∷ []) ↔ IsKept rules (tail ++ next ∷ [])) }
    ensures reason { (terms : Terms) (records : List LineByte) (exchanges : List Exchange) (tail : List LineByte)
        → Cut (line_rules terms) records exchanges tail → HasRun terms.profile exchanges → (next : LineByte) → ¬ IsKept (line_rules terms) (records ++ next ∷ [])
        → (reason : Reason) → (Breaks terms records next reason ↔ IsReason (line_rules terms) tail next reason) }
{}

/// Where records keep the rules, and with a next one that is not earlier they do not, some reason applies; and
/// never more than one does.
pub fn some_reason_applies()
    ensures some { (terms : Terms) (records : List LineByte) (next : LineByte) → IsOk terms records → last_time records ≤ next.time_us
        → ¬ IsOk terms (records ++ next ∷ []) → (reason : Reason) × Breaks terms records next reason }
    ensures one { (terms : Terms) (records : List LineByte) (next : LineByte) (reason other : Reason)
        → Breaks terms records next reason → Breaks terms records next other → reason ≡ other }
{}

/// At most one answer is right for a text.
pub fn one_answer()
    ensures { (profile : Profile) (past : ℕ) (rows : Rows) (answer other : Answer) → IsAnswer profile past rows answer → IsAnswer profile past rows other → answer ≡ other }
{}

/// Whatever the result of a judging up to the first break, what was written is a first part of the whole text of the report.
pub fn first_part_of_the_text()
    ensures { (view : View) (beginning : Beginning) (profile : Profile) (rows : Rows) (result : Result Verdict JudgeError) (old new : Option (List ℕ)) (whole : List ℕ)
        → Told view (record { extent = AnExtent.FirstBreak; beginning = beginning }) profile (Some rows) (by_verdict result) old new
        → IsText view (record { extent = AnExtent.FirstBreak; beginning = beginning }) profile rows whole → AppendsPart old new whole }
{}

/// Who may touch the deck explains no less: a yes without hands is the same yes with them, and where both are a no, that
/// with hands is at no earlier record.
pub fn hands_judge_no_harder()
    ensures yes { (rate : Rate) (deck : Option ADeck) (past : ℕ) (rows : Rows) (records exchanges tail : ℕ) → IsAnswer (record { rate = rate; hands = Hands.None; deck = deck }) past rows (judged (Verdict.Yes records exchanges tail))
        → IsAnswer (record { rate = rate; hands = Hands.Allowed; deck = deck }) past rows (judged (Verdict.Yes records exchanges tail)) }
    ensures no { (rate : Rate) (deck : Option ADeck) (past : ℕ) (rows : Rows) (at other : ℕ) (reason another : Reason) → IsAnswer (record { rate = rate; hands = Hands.None; deck = deck }) past rows (judged (Verdict.No at reason))
        → IsAnswer (record { rate = rate; hands = Hands.Allowed; deck = deck }) past rows (judged (Verdict.No other another)) → at ≤ other }
{}

/// A deck at which each command does no more than at another and takes no more replies, that has no more modes on the way to each goal,
/// and where no more may be going on, is held to no less: its yes is the same yes of the other, and where both are a no, that of the
/// other is at no earlier record.
pub fn a_sheet_that_allows_less_judges_no_easier()
    ensures yes { (p : Profile) (less more : Option ADeck) (past : ℕ) (rows : Rows) (records exchanges tail : ℕ) → ForgetsNoMore p less more → TakesNoMore p.rate (replies_of less) (replies_of more) → PassesNoMore less more → GoesOnNoMore less more
        → IsAnswer (record p { deck = less }) past rows (judged (Verdict.Yes records exchanges tail)) → IsAnswer (record p { deck = more }) past rows (judged (Verdict.Yes records exchanges tail)) }
    ensures no { (p : Profile) (less more : Option ADeck) (past : ℕ) (rows : Rows) (at other : ℕ) (reason another : Reason) → ForgetsNoMore p less more → TakesNoMore p.rate (replies_of less) (replies_of more) → PassesNoMore less more → GoesOnNoMore less more
        → IsAnswer (record p { deck = less }) past rows (judged (Verdict.No at reason)) → IsAnswer (record p { deck = more }) past rows (judged (Verdict.No other another)) → at ≤ other }
{}

/// Where judging begins at record 1 and nothing breaks, the totals are the counts of a yes, and no record is passed over.
pub fn parts_without_a_break()
    ensures { (profile : Profile) (items : List LineByte) (left : Rest) (last : Part) (totals : Totals)
        → AreParts (in_parts profile) (record { past = 0; records = items }) [] left → IsPart (in_parts profile) last → last.records ≡ left.records
        → AreTotals (length items) [] last totals → totals.breaks ≡ 0
        → AreCounts (counting profile) items totals.records totals.exchanges totals.tail × (totals.passed_over ≡ 0) }
{}

/// Wherever its judging begins, a capture has the parts of the capture that begins there. Only the numbers of their records differ,
/// and the records before them count as passed over.
pub fn the_parts_of_the_capture_that_begins_there()
    ensures { (beginning : Beginning) (profile : Profile) (items : List LineByte) (broken : List BrokenPart) (left : Rest) (last : Part) (totals : Totals)
        → AreParts (in_parts profile) (record { past = 0; records = (judged_from beginning items).records }) broken left → IsPart (in_parts profile) last
        → AreTotals (length (judged_from beginning items).records) broken last totals
        → AreParts (in_parts profile) (judged_from beginning items) (map (renumbered_break (judged_from beginning items).past) broken) (renumbered_rest (judged_from beginning items).past left)
        × IsPart (in_parts profile) (renumbered_part (judged_from beginning items).past last)
        × AreTotals (length items) (map (renumbered_break (judged_from beginning items).past) broken) (renumbered_part (judged_from beginning items).past last)
        (renumbered_totals (judged_from beginning items).past totals) }
{}

/// A capture has one list of parts, of which the last keeps the rules and has all that is left, and one set of totals.
pub fn one_list_of_parts()
    ensures parts { (profile : Profile) (rest left remaining : Rest) (broken others : List BrokenPart) (last other : Part)
        → AreParts (in_parts profile) rest broken left → IsPart (in_parts profile) last → last.past ≡ left.past → last.records ≡ left.records
        → AreParts (in_parts profile) rest others remaining → IsPart (in_parts profile) other → other.past ≡ remaining.past → other.records ≡ remaining.records
        → (broken ≡ others) × (last ≡ other) }
    ensures totals { (records : ℕ) (broken : List BrokenPart) (last : Part) (totals others : Totals)
        → AreTotals records broken last totals → AreTotals records broken last others → totals ≡ others }
{}

/// Where judging begins at record 1, the first break is the no of the whole capture, as it is judged without going on: a late reply
/// before which none is late, or the record that ends the first part, where no reply of it is late before.
pub fn the_first_break_is_the_verdict()
    ensures late { (profile : Profile) (items after : List LineByte) (part : Part) (front more : List Event) (at : ℕ) (asked : List LineByte) (r : LineByte)
        → items ≡ part.records ++ after → part.past ≡ 0 → IsPart (in_parts profile) part → part.events ≡ front ++ late_reply at asked r ∷ more → late_replies front ≡ 0
        → IsFirstBreak (counting profile) 0 items at Reason.LateReply }
    ensures end { (profile : Profile) (items : List LineByte) (b : BrokenPart) (broken : List BrokenPart) (left : Rest)
        → AreParts (in_parts profile) (record { past = 0; records = items }) (b ∷ broken) left → late_replies b.part.events ≡ 0
        → IsFirstBreak (counting profile) 0 items (number_of b) (if late_replies b.events == 0 then b.reason else Reason.LateReply) }
{}

/// Where the reply limit is left aside, each part that breaks is the no of the capture from its first record on, with the number that
/// the record has in the whole; the first is the no of the whole capture. A part of which no reply is late before its end is also the
/// no of these records as they are judged up to the first break, where the limit counts.
pub fn each_part_is_a_no()
    ensures each { (profile : Profile) (items : List LineByte) (broken : List BrokenPart) (left : Rest)
        → AreParts (in_parts profile) (record { past = 0; records = items }) broken left
        → All (λ b. IsFirstBreak (in_parts profile) b.part.past (drop b.part.past items) (number_of b) b.reason) broken }
    ensures in_time { (profile : Profile) (items : List LineByte) (broken : List BrokenPart) (left : Rest)
        → AreParts (in_parts profile) (record { past = 0; records = items }) broken left
        → All (λ b. late_replies b.part.events ≡ 0
        → IsFirstBreak (counting profile) b.part.past (drop b.part.past items) (number_of b) (if late_replies b.events == 0 then b.reason else Reason.LateReply)) broken }
    ensures first { (profile : Profile) (items : List LineByte) (b : BrokenPart) (broken : List BrokenPart) (left : Rest)
        → AreParts (in_parts profile) (record { past = 0; records = items }) (b ∷ broken) left → IsFirstBreak (in_parts profile) 0 items (number_of b) b.reason }
{}

/// How long after its command a reply begins decides whether it is late, and nothing else. Where the records of a capture come at
/// other times, but in the same order, and those that follow one another on one wire as far apart as they did, the parts break at the
/// same records and for the same reasons, their exchanges have the same blocks, and of the totals only the breaks differ, by the late
/// replies. What is known of the deck after exchanges with the same blocks is the same. No reply is late where no record of the deck
/// comes later than the reply limit after one of the controller. A capture, in which times never fall, has such other times.
pub fn a_late_reply_is_nothing_else()
    ensures same { (profile : Profile) (items others : List LineByte) (broken : List BrokenPart) (left : Rest) (last : Part) (totals : Totals)
        → AreParts (in_parts profile) (record { past = 0; records = items }) broken left → IsPart (in_parts profile) last → last.past ≡ left.past → last.records ≡ left.records
        → AreTotals (length items) broken last totals → AreRetimed items others
        → (parts : List BrokenPart) × (behind : Rest) × (end : Part) × AreParts (in_parts profile) (record { past = 0; records = others }) parts behind × IsPart (in_parts profile) end
        × (end.past ≡ behind.past) × (end.records ≡ behind.records) × AreSameParts broken parts × IsSamePart last end
        × AreTotals (length others) parts end (record totals { breaks = length broken + late_replies (events_of parts ++ end.events) }) }
    ensures known { (profile : Profile) (es fs : List Exchange) → map untimed es ≡ map untimed fs → (s : State) → Ends profile es s ↔ Ends profile fs s }
    ensures in_time { (profile : Profile) (items : List LineByte) (broken : List BrokenPart) (left : Rest) (last : Part)
        → AreParts (in_parts profile) (record { past = 0; records = items }) broken left → IsPart (in_parts profile) last → last.records ≡ left.records → NoneIsLate items
        → late_replies (events_of broken ++ last.events) ≡ 0 }
    ensures there_is_one { (items : List LineByte) → IsNonDecreasingBy (λ r. r.time_us) items → (others : List LineByte) × AreRetimed items others × NoneIsLate others }
{}
