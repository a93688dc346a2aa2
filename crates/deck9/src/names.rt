//! What reports call a command.
use crate::deck_ref::DeckRef;
use crate::profile::Profile;
use block9::Command;

impl Profile {
    ghost use Rattle.std.specs.Prelude.{◌≡◌, option_map};
    ghost use Rattle.deck9.specs.Names.{name_told};

    /// The name that reports give a command: its own where it is listed, and else the one that the deck has for it, if it has one.
    #[tactic(auto, unfolding(crate::specs::Names::name_told))]
    pub fn name_of<'a>(&'a self, command: &Command) -> Option<&'a [u8]>
        ensures { option_map (λ name. name.now) result ≡ name_told self.now.deck command.now }
    {
        match command {
            Command::Unlisted { head } => self.deck_ref().name_for(*head),
            _ => match command.name() {
                Some(name) => Some(name.as_bytes()),
                None => None,
            },
        }
    }
}

impl<'a> DeckRef<'a> {
    ghost use Rattle.std.specs.Prelude.{◌≡◌, option_map};
    ghost use Rattle.deck9.specs.Names.{named_for};

    /// The name that it has for the command with this head, which is not listed.
    fn name_for(&self, head: u32) -> Option<&'a [u8]>
        ensures { option_map (λ name. name.now) result ≡ named_for self.now head }
    {
        match self.0?.names.get(&head) {
            Some(name) => Some(name.as_slice()),
            None => None,
        }
    }
}
