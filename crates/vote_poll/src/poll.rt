//! The poll: its options, its quorum and its roll of voters.
ghost use Rattle.std.specs.Prelude.{◌≡◌, ◌≤◌, ◌<◌, ◌+◌, ◌-◌, Some, IfSome, IsTrue, slice_get, option_map};
ghost use Rattle.vote_poll.specs.Names.{IsNameOf, place_of};
ghost use Rattle.vote_poll_text.specs.Names.{is_voter_name};
ghost use Rattle.vote_poll.specs.Options.{IsOption};
ghost use Rattle.vote_poll.specs.PollContent.{option_count, elector_count, last_in_time, ratio_of};
ghost use Rattle.vote_poll_text.specs.declared.lines.TheConstants.{MAX_LINES};

use crate::names::place_of;
use crate::wording::Wording;
use crate::{MAX_ELECTORS, MAX_LINES, MAX_OPTIONS};
use indexmap::IndexSet;
use std::marker::Model;

/// What a poll file says. Contracts see it as a `PollContent`. Options are numbered from 1, and the last is the default
/// option of A.5 of the Constitution's Appendix A. Voters are numbered from 0, by their position on the roll. No two
/// options and no two voters have the same name.
#[derive(Drop)]
pub struct Poll {
    pub(crate) title: String,
    pub(crate) options: Vec<String>,
    pub(crate) ratios: Vec<u8>,
    pub(crate) quorum_multiple: u8,
    pub(crate) roll: IndexSet<String>,
    pub(crate) last_envelope: Option<u32>,
    pub(crate) wording: Wording,
}

impl Model for Poll {
    ghost use Rattle.vote_poll.specs.PollContent.{PollContent};

    ghost Value = { PollContent };

    ghost use Rattle.vote_poll.specs.PollView.{content};
    ghost use Rattle.vote_poll.specs.PollContent.{IsPoll};

    ghost view = { content };

    ghost invariant = { λ p. IsPoll (content p) };
}

impl Poll {
    /// The number of options, the default among them. It is the number of the default option, too.
    pub fn options(&self) -> u8
        ensures number { result ≡ option_count self.now }
        ensures at_least { 2 ≤ result }
        ensures at_most { result ≤ MAX_OPTIONS }
    {
        self.options.len() as u8
    }

    /// The number of electors, which is the number of names on the roll. Section 4.2 of the Constitution takes the square
    /// root of it.
    pub fn electors(&self) -> usize
        ensures number { result ≡ elector_count self.now }
        ensures at_least { 1 ≤ result }
        ensures at_most { result ≤ MAX_ELECTORS }
    {
        self.roll.len()
    }

    /// The quorum as a multiple of Q, 0 to [`MAX_QUORUM_MULTIPLE`](crate::MAX_QUORUM_MULTIPLE); 0 is no quorum. Section
    /// 4.2 of the Constitution has 3 for general resolutions; that a poll sets it is this project's own.
    pub fn quorum_multiple(&self) -> u8
        ensures multiple { result ≡ self.now.quorum_multiple }
        ensures at_most { result ≤ 10 }
    {
        self.quorum_multiple
    }

    /// The number of the last envelope that is not late, 0 to [`MAX_LINES`](crate::MAX_LINES), or `None` if no envelope is
    /// late. That a poll can refuse late envelopes is this project's own.
    pub fn last_envelope(&self) -> Option<u32>
        ensures last { result ≡ self.now.last_envelope }
        ensures at_most { IfSome result (λ last. last ≤ MAX_LINES) }
    {
        self.last_envelope
    }

    /// The greatest number of an envelope that is not late: the poll's last envelope, or [`MAX_LINES`](crate::MAX_LINES)
    /// if the poll has none, which is the greatest number that an envelope can have.
    pub fn last_in_time(&self) -> u32
        ensures number { result ≡ last_in_time self.now }
        ensures at_most { result ≤ MAX_LINES }
    {
        match self.last_envelope {
            Some(last) => last,
            None => MAX_LINES as u32,
        }
    }

    /// How the poll words a majority. `at_least` is the wording of A.5 of the Constitution's Appendix A, and `more_than`
    /// is this project's own.
    pub fn wording(&self) -> Wording
        ensures { result ≡ self.now.wording }
    {
        self.wording
    }

    /// The title of the poll: 1 to [`MAX_TITLE`](crate::MAX_TITLE) printable ASCII bytes.
    pub fn title(&self) -> &str
        ensures { result.now ≡ self.now.title }
    {
        self.title.as_str()
    }

    /// The majority ratio of an option other than the default, 1 to [`MAX_RATIO`](crate::MAX_RATIO). By A.5 of the
    /// Constitution's Appendix A it is S if the option needs a supermajority of S to 1, and else 1.
    #[tactic(auto, using(crate::proofs::OptionLaws::options))]
    pub fn ratio(&self, option: u8) -> u8
        requires first { 1 ≤ option }
        requires below_default { option < option_count self.now }
        ensures ratio { result ≡ ratio_of self.now option }
        ensures range { (1 ≤ result) × (result ≤ 10) }
    {
        self.ratios[option as usize - 1]
    }

    /// The name of an option, which may be the default option: 1 to [`MAX_OPTION_NAME`](crate::MAX_OPTION_NAME) printable
    /// ASCII bytes.
    pub fn option_name(&self, option: u8) -> &str
        requires { IsOption (option_count self.now) option }
        ensures { slice_get self.now.options (option - 1) ≡ Some result.now }
    {
        self.options[option as usize - 1].as_str()
    }

    /// The number (from 1) of the option with this name, or `None` if no option has it.
    #[tactic(auto, using(crate::proofs::NamesLaws::name_laws))]
    pub fn option_of(&self, name: &[u8]) -> Option<u8>
        ensures { result ≡ option_map (λ place. place + 1) (place_of name.now self.now.options) }
    {
        let place = place_of(&self.options, name)?;
        Some(place as u8 + 1)
    }

    /// The number (from 0) of the voter with this name, which is the position on the roll, or `None` if no voter has it.
    /// The bytes may be anything. The roll is hashed, so a look-up takes no longer on a longer roll.
    pub fn voter_of(&self, name: &[u8]) -> Option<usize>
        ensures place { result ≡ place_of name.now self.now.roll }
        ensures name { IfSome result (λ _. IsTrue (is_voter_name name.now)) }
    {
        match std::str::from_utf8(name) {
            Ok(name) => self.roll.get_index_of(name),
            Err(_) => None,
        }
    }

    /// The name of the voter with this number (from 0), if there is one. No other voter has it.
    pub fn voter_name(&self, voter: usize) -> Option<&[u8]>
        ensures found { option_map (λ name. name.now) result ≡ slice_get self.now.roll voter }
        ensures name { IfSome result (λ name. IsNameOf self.now.roll voter name.now) }
    {
        let name = self.roll.get_index(voter)?;
        Some(name.as_str().as_bytes())
    }
}
