//! What an empty sheet means, and what the text of an error is: each the contract of a function that does nothing.
ghost use Rattle.std.specs.Prelude.{◌≡◌, ◌↔◌, ℕ, true, List, None, Some, IsOkAnd};
ghost use Rattle.std.specs.List.{list_all};
ghost use Rattle.std.specs.BTreeMap.{get};
ghost use Rattle.std.specs.Ordering.{nat_cmp};
ghost use Rattle.block9.specs.Command.{fits};
ghost use Rattle.block9.specs.Replies.{takes};
ghost use Rattle.block9.specs.declared.block.Block.{Block};
ghost use Rattle.block9.specs.declared.command.Command.{Command};
ghost use Rattle.block9.specs.declared.exchange.Exchange.{Exchange};
ghost use Rattle.capture9.specs.Shown.{is_printable};
ghost use Rattle.deck9.specs.declared.deck.Deck.{Deck};
ghost use Rattle.deck9.specs.declared.profile.Profile.{Profile};
ghost use Rattle.deck9.specs.Run.{Ends};
ghost use Rattle.deck9.specs.declared.state.State.{State};
ghost use Rattle.toml.specs.Data.{no_members};
ghost use Rattle.sheet9.specs.declared.refusal.SheetError.{SheetError};
ghost use Rattle.sheet9.specs.Sheet.{IsDeckOf, document_of, sheet_of};
ghost use Rattle.sheet9.specs.Text.{error_text};

/// The text of an error is printable ASCII, whatever the sheet's keys hold: so it stays on one line, and has no control characters.
pub fn errors_are_printable()
    ensures { (error : SheetError) → list_all is_printable (error_text error) ≡ true }
{}

/// A document with no keys is a sheet. A deck that does what it says ends its runs in exactly the states in which a deck without one
/// does, takes to each command the replies that fit it, and has no name for any.
pub fn an_empty_sheet_changes_nothing()
    ensures ends { (text : List ℕ) (p : Profile) (es : List Exchange) (t : State) → document_of text ≡ Some no_members → IsOkAnd (sheet_of text)
        (λ sheet. (deck : Deck) → IsDeckOf sheet deck → Ends (record p { deck = Some deck }) es t ↔ Ends (record p { deck = None }) es t) }
    ensures replies { (text : List ℕ) (block : Block) (c : Command) (reply : Block) → document_of text ≡ Some no_members → IsOkAnd (sheet_of text)
        (λ sheet. (deck : Deck) → IsDeckOf sheet deck → takes (Some deck.replies) block c reply ≡ fits c reply) }
    ensures names { (text : List ℕ) (head : ℕ) → document_of text ≡ Some no_members → IsOkAnd (sheet_of text)
        (λ sheet. (deck : Deck) → IsDeckOf sheet deck → get nat_cmp deck.names head ≡ None) }
{}
