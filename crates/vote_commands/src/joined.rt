//! A poll and its ballots in one input, with the line `%%` between them.

ghost use Rattle.std.specs.Prelude.{◌≡◌, ◌<◌, drop, length};
ghost use Rattle.vote_commands.specs.Joined.{AreParts, has_separator, is_separator_at, joined_parts};

/// Whether these bytes begin with the line `%%`.
fn has_separator(rest: &[u8]) -> bool
    ensures { result ≡ has_separator rest.now }
{
    rest.starts_with(b"%%\n") || rest == b"%%".as_slice()
}

/// Whether the line `%%` begins at this index.
#[tactic(auto, unfolding(crate::specs::Joined::is_separator_at))]
fn is_separator_at(input: &[u8], at: usize) -> bool
    requires { at < length input.now }
    ensures { result ≡ is_separator_at input.now at }
{
    let begins_line = at == 0 || input[at - 1] == b'\n';
    begins_line && has_separator(&input[at..])
}

/// The bytes from this index on, if any.
fn bytes_from(input: &[u8], at: usize) -> &[u8]
    ensures { result.now ≡ drop at input.now }
{
    if at < input.len() { &input[at..] } else { &[] }
}

/// Returns the poll and the ballots of a joined input: the bytes before and after the first line that is `%%`. Without such a line
/// all bytes are the poll, and there are no ballots.
pub fn split_joined(input: &[u8]) -> (&[u8], &[u8])
    ensures parts { AreParts input.now result.0.now result.1.now }
    ensures same { (result.0.now, result.1.now) ≡ joined_parts input.now }
{
    for at in 0..input.len() {
        if is_separator_at(input, at) {
            return (&input[..at], bytes_from(&input[at..], 3));
        }
    }
    (input, &[])
}
