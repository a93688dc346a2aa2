//! A capture that is asked with all terms, one after another.
ghost use Rattle.std.specs.Prelude.{◌≡◌, ℕ, List, None, Option, Some, IfOk, IfSome};
ghost use Rattle.deck9.specs.declared.deck.Deck.{Deck as ADeck};
ghost use Rattle.report9.specs.declared.verdict.Scope.{Scope};
ghost use Rattle.asking9.specs.Asking.{AreAnswers, all_terms, profile_with};
ghost use Rattle.show9.specs.Showing.{IsChecked};

use crate::answer::{Answer, check};
use crate::every_terms::every_terms;
use crate::terms::Terms;
use deck9::{Hands, Profile};
use program9::text_again;
use report9::{JudgeError, Scope};
use seen9::Ending;
use std::alloc::{AllocError, Global};
use std::io::Read;
use tc25::Rate;

/// A capture that is asked.
#[derive(Drop)]
struct Asking<'a> {
    alloc: Global,
    /// Its text.
    text: &'a [u8],
    scope: Scope,
    /// A deck that does what the rules say of every deck, at the rate and with the hands that were asked with last.
    plain: Profile,
    /// The same of one that does what the sheet says, where there is one.
    with_sheet: Profile,
}

/// The answers to all terms, in the order of the lines, of one whose own rate and sheet these are. The text is read where a reader of this
/// type would be.
pub fn answers_to<R: Read + Drop>(
    alloc: Global,
    text: &[u8],
    scope: Scope,
    own: Profile,
) -> Result<Vec<Answer>, AllocError>
    ensures { IfOk result (λ answers. AreAnswers scope own.deck text.now (all_terms own) answers.items) }
{
    let all = every_terms(alloc, &own)?;
    let mut asking = Asking {
        alloc,
        text,
        scope,
        plain: Profile::at(Rate::Fps25, Hands::None),
        with_sheet: own,
    };
    asking.ask_with_each::<R>(all.as_slice())
}

impl Asking<'_> {
    /// Asks with each of these terms.
    fn ask_with_each<R: Read + Drop>(&mut self, all: &[Terms]) -> Result<Vec<Answer>, AllocError>
        requires { self.old.plain.deck ≡ None }
        ensures { IfOk result (λ answers. AreAnswers self.old.scope self.old.with_sheet.deck self.old.text.now all.now answers.items) }
    {
        let mut answers = Vec::new(self.alloc);
        for terms in all {
            let answer = self.ask::<R>(*terms, answers.last());
            answers.push(answer)?;
        }
        Ok(answers)
    }

    /// Asks with these terms, after this answer: what is a yes without hands is not judged again with them.
    fn ask<R: Read + Drop>(&mut self, terms: Terms, before: Option<&Answer>) -> Answer
        requires plain { self.old.plain.deck ≡ None }
        requires before { IfSome before (λ a. IsChecked self.old.scope (profile_with self.old.with_sheet.deck a.now.terms) (Some self.old.text.now) a.now.ended) }
        ensures terms { result.terms ≡ terms }
        ensures checked { IsChecked self.old.scope (profile_with self.old.with_sheet.deck terms) (Some self.old.text.now) result.ended }
        ensures plain { self.new.plain.deck ≡ None }
        ensures deck { self.new.with_sheet.deck ≡ self.old.with_sheet.deck }
        ensures scope { self.new.scope ≡ self.old.scope }
        ensures text { self.new.text ≡ self.old.text }
    {
        if let Some(yes) = yes_with_hands(before, terms) {
            return yes;
        }
        let (alloc, reader, scope) = (self.alloc, text_again::<R>(self.text), self.scope);
        let ended = if terms.has_sheet {
            check_with(alloc, reader, scope, &mut self.with_sheet, terms)
        } else {
            check_with(alloc, reader, scope, &mut self.plain, terms)
        };
        Answer { terms, ended }
    }
}

/// The answer with hands, where the one before is a yes on the same terms without them: the same yes, since somebody who may touch the
/// deck need not touch it.
fn yes_with_hands(before: Option<&Answer>, terms: Terms) -> Option<Answer>
    ensures terms { IfSome result (λ answer. answer.terms ≡ terms) }
    ensures checked { (scope : Scope) (deck : Option ADeck) (text : Option (List ℕ))
        → IfSome before.entry (λ a. IsChecked scope (profile_with deck a.now.terms) text a.now.ended)
        → IfSome result (λ answer. IsChecked scope (profile_with deck terms) text answer.ended) }
{
    let before = before?;
    if !terms.adds_hands_to(&before.terms) {
        return None;
    }
    let yes = before.yes()?;
    Some(Answer {
        terms,
        ended: Ok(Ending::Verdict(yes)),
    })
}

/// Judges a capture as `check` does, of a deck with the rate and the hands of these terms.
fn check_with<R: Read + Drop>(
    alloc: Global,
    reader: R,
    scope: Scope,
    profile: &mut Profile,
    terms: Terms,
) -> Result<Ending, JudgeError>
    ensures checked { IsChecked scope (record { rate = terms.rate; hands = terms.hands; deck = profile.old.deck }) (R.remaining reader) result }
    ensures deck { profile.new.deck ≡ profile.old.deck }
{
    profile.rate = terms.rate;
    profile.hands = terms.hands;
    check(alloc, reader, scope, profile)
}
