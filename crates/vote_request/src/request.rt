//! The kinds of request, and the files of each.

ghost use Rattle.std.specs.Prelude.{◌≡◌};
ghost use Rattle.vote_request.specs.Requests.{ballot_file, poll_file, purpose_on, request_on, sheet_file};

/// What a count is for.
#[derive(Clone, Copy)]
pub enum Purpose<T> {
    /// The result sheet.
    Sheet,
    /// The outcome as a graph for Graphviz.
    Picture,
    /// Whether this file is a sheet of the count, with any casting vote or none.
    Verification(T),
}

/// What is listed about the ballots. One desk casts them in their order.
#[derive(Clone, Copy)]
pub enum Listing {
    /// The reply to each ballot.
    Steps,
    /// The ballots that count: the last valid ballot of each elector.
    Standing,
}

/// A request on files that are known by a `T`: their names, or their bytes.
#[derive(Clone, Copy)]
pub enum Request<'a, T> {
    /// Count the ballots, and print what the purpose asks for.
    Count {
        poll: T,
        ballots: T,
        /// From 1 to [`MAX_DESKS`](crate::MAX_DESKS).
        desks: u8,
        /// The name of the option that the casting vote chooses in a tie.
        casting: Option<&'a [u8]>,
        purpose: Purpose<T>,
    },
    /// Print a listing of the ballots.
    List {
        poll: T,
        ballots: T,
        listing: Listing,
    },
    /// Check the poll file.
    Check {
        poll: T,
    },
    /// Print all that is wrong with the poll and, if they are given, with the ballots.
    Explain {
        poll: T,
        ballots: Option<T>,
        /// The name of the ballot file, for a command that repairs it.
        file: Option<&'a str>,
        /// The name of the poll file, for a command that repairs it.
        poll_name: Option<&'a str>,
    },
}

impl<T: Copy> Purpose<T> {
    /// The same purpose; if a sheet is compared, with this sheet instead.
    fn with_sheet<U: Copy>(&self, sheet: U) -> Purpose<U>
        ensures { result ≡ purpose_on self.now sheet }
    {
        match self {
            Purpose::Sheet => Purpose::Sheet,
            Purpose::Picture => Purpose::Picture,
            Purpose::Verification(_) => Purpose::Verification(sheet),
        }
    }
}

impl<'a, T: Copy> Request<'a, T> {
    /// The poll file.
    pub fn poll(&self) -> T
        ensures { result ≡ poll_file self.now }
    {
        match self {
            Request::Count { poll, .. }
            | Request::List { poll, .. }
            | Request::Check { poll }
            | Request::Explain { poll, .. } => *poll,
        }
    }

    /// The ballot file, if there is one.
    pub fn ballots(&self) -> Option<T>
        ensures { result ≡ ballot_file self.now }
    {
        match self {
            Request::Count { ballots, .. } | Request::List { ballots, .. } => Some(*ballots),
            Request::Explain { ballots, .. } => *ballots,
            Request::Check { .. } => None,
        }
    }

    /// The published sheet, if one is compared.
    pub fn sheet(&self) -> Option<T>
        ensures { result ≡ sheet_file self.now }
    {
        match self {
            Request::Count {
                purpose: Purpose::Verification(sheet),
                ..
            } => Some(*sheet),
            _ => None,
        }
    }

    /// The same request on these files.
    pub fn on<U: Copy>(&self, poll: U, ballots: U, sheet: U) -> Request<'a, U>
        ensures { result ≡ request_on self.now poll ballots sheet }
    {
        match self {
            Request::Count {
                desks,
                casting,
                purpose,
                ..
            } => Request::Count {
                poll,
                ballots,
                desks: *desks,
                casting: *casting,
                purpose: purpose.with_sheet(sheet),
            },
            Request::List { listing, .. } => Request::List {
                poll,
                ballots,
                listing: *listing,
            },
            Request::Check { .. } => Request::Check { poll },
            Request::Explain {
                ballots: given,
                file,
                poll_name,
                ..
            } => Request::Explain {
                poll,
                ballots: match given {
                    Some(_) => Some(ballots),
                    None => None,
                },
                file: *file,
                poll_name: *poll_name,
            },
        }
    }
}
