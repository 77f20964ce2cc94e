//! Why a poll file is refused, and the words for it.
ghost use Rattle.std.specs.Prelude.{◌≡◌, Some};
ghost use Rattle.vote_poll_keys.specs.FaultWords.{fault_line, fault_words};
ghost use Rattle.vote_poll_keys.specs.Keys.{key_name, key_named};
ghost use Rattle.vote_poll_keys.specs.declared.fault.PollFault.TheVariants.{Memory};

use std::alloc::{AllocError, AllocFailed};
use std::fmt;
use thiserror::Error;

/// A key of a poll file, in the order in which keys are looked for. It is displayed as the file writes it.
#[derive(Clone, Copy, Debug, PartialEq, Eq)]
pub enum PollKey {
    /// `title`, a text.
    Title,
    /// `options`, a list of texts: the names of all options but the default.
    Options,
    /// `ratios`, a list of whole numbers: the majority ratio of each of these options.
    Ratios,
    /// `default`, a text: the name of the default option.
    DefaultOption,
    /// `quorum`, a whole number: the multiple of Q.
    Quorum,
    /// `roll`, a list of texts: the names of the voters.
    Roll,
    /// `last_envelope`, a whole number: the last envelope that is not late. This key may be missing.
    LastEnvelope,
    /// `wording`, a text: how the poll words a majority, as one of `Wording` in vote_poll. This key may be missing.
    Wording,
}

impl PollKey {
    /// The keys, in the order in which they are looked for.
    pub const ALL: [PollKey; 8] = [
        PollKey::Title,
        PollKey::Options,
        PollKey::Ratios,
        PollKey::DefaultOption,
        PollKey::Quorum,
        PollKey::Roll,
        PollKey::LastEnvelope,
        PollKey::Wording,
    ];

    /// The key as the file writes it.
    pub fn name(self) -> &'static str
        ensures { result.now ≡ key_name self }
    {
        match self {
            PollKey::Title => "title",
            PollKey::Options => "options",
            PollKey::Ratios => "ratios",
            PollKey::DefaultOption => "default",
            PollKey::Quorum => "quorum",
            PollKey::Roll => "roll",
            PollKey::LastEnvelope => "last_envelope",
            PollKey::Wording => "wording",
        }
    }

    /// The key with this name, if there is one.
    pub fn named(name: &str) -> Option<PollKey>
        ensures { result ≡ key_named name.now }
    {
        for key in PollKey::ALL {
            if key.name() == name {
                return Some(key);
            }
        }
        None
    }
}

impl fmt::Display for PollKey {
    ghost output = { λ key. Some (key_name key) };

    fn fmt<W: fmt::Write>(&self, f: &mut fmt::Formatter<W>) -> fmt::Result {
        f.write_str(self.name())
    }
}

/// Why a poll file is refused. If it has several faults, the first in this order is returned; only
/// [`PollFault::Memory`] can come instead. The limits named here are constants that vote_poll exports. A fault is
/// displayed as its fault line.
#[derive(Clone, Copy, Debug, PartialEq, Eq, Error)]
pub enum PollFault {
    /// The text is not UTF-8, or not a TOML document.
    Syntax,
    /// The key is missing although it is required, or it is of the wrong kind, or an entry of its list is.
    Key(PollKey),
    /// The title has no byte, or more than `MAX_TITLE` bytes, or a byte outside 0x20 to 0x7E.
    Title,
    /// There are fewer than 2 options, or more than `MAX_OPTIONS`, with the default option.
    OptionCount,
    /// The name of the option with this number (from 1) is malformed, or an earlier option has the same name. A name
    /// has 1 to `MAX_OPTION_NAME` bytes from 0x20 to 0x7E, without a space at either end.
    OptionName(usize),
    /// There is not exactly one ratio for each option but the default, or a ratio is not from 1 to `MAX_RATIO`.
    Ratio,
    /// The multiple of Q is not from 0 to `MAX_QUORUM_MULTIPLE`.
    Quorum,
    /// The roll has no name, or more than `MAX_ELECTORS`.
    RollSize,
    /// The name of the voter at this position of the roll (from 0) is malformed, or an earlier voter has the same
    /// name. A name has 1 to `MAX_VOTER_NAME` bytes of `a` to `z`, `0` to `9`, `.` and `-`.
    VoterName(usize),
    /// The last envelope is not from 0 to `MAX_LINES`.
    LastEnvelope,
    /// The wording is neither `at_least` nor `more_than`.
    Wording,
    /// Memory was asked for and refused. This fault can come in place of any other result.
    Memory,
}

impl PollFault {
    /// The words of the fault, which follow `poll refused: ` in its fault line.
    pub fn words(self) -> FaultWords
        ensures { result.fault ≡ self }
    {
        FaultWords { fault: self }
    }
}

/// The words of a fault, without `poll refused: `.
#[derive(Clone, Copy)]
pub struct FaultWords {
    pub fault: PollFault,
}

impl fmt::Display for FaultWords {
    ghost output = { λ words. Some (fault_words words.fault) };

    fn fmt<W: fmt::Write>(&self, f: &mut fmt::Formatter<W>) -> fmt::Result {
        match self.fault {
            PollFault::Syntax => f.write_str("syntax"),
            PollFault::Key(key) => write!(f, "key {key}"),
            PollFault::Title => f.write_str("title"),
            PollFault::OptionCount => f.write_str("number of options"),
            PollFault::OptionName(option) => write!(f, "name of option {option}"),
            PollFault::Ratio => f.write_str("ratios"),
            PollFault::Quorum => f.write_str("quorum"),
            PollFault::RollSize => f.write_str("size of roll"),
            PollFault::VoterName(place) => write!(f, "voter at position {place}"),
            PollFault::LastEnvelope => f.write_str("last envelope"),
            PollFault::Wording => f.write_str("wording"),
            PollFault::Memory => f.write_str("out of memory"),
        }
    }
}

impl fmt::Display for PollFault {
    ghost output = { λ fault. Some (fault_line fault) };

    fn fmt<W: fmt::Write>(&self, f: &mut fmt::Formatter<W>) -> fmt::Result {
        match *self {
            PollFault::Memory => write!(f, "{}", self.words()),
            _ => write!(f, "poll refused: {}", self.words()),
        }
    }
}

impl From<AllocError> for PollFault {
    ghost from_gives = { λ _ e. e ≡ Memory };

    fn from(_error: AllocError) -> PollFault {
        PollFault::Memory
    }
}

impl<T: Drop> From<AllocFailed<T>> for PollFault {
    ghost from_gives = { λ _ e. e ≡ Memory };

    fn from(_error: AllocFailed<T>) -> PollFault {
        PollFault::Memory
    }
}
