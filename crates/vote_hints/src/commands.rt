//! A shell command that mends a file.

ghost use Rattle.std.specs.Prelude.{◌≡◌, not, option_copied};
ghost use Rattle.std.specs.List.{list_any};
ghost use Rattle.vote_poll_text.specs.Adding.{Adds};
ghost use Rattle.vote_hints.specs.Commands.{command_text, is_plain, is_tellable, mending_text, shell_word};

use std::alloc::AllocError;
use vote_poll_text::is_printable;

/// Whether a shell takes a byte as it is, without quotes.
fn is_plain(byte: u8) -> bool
    ensures { result ≡ is_plain byte }
{
    matches!(byte, b'a'..=b'z' | b'A'..=b'Z' | b'0'..=b'9' | b'.' | b'/' | b'_' | b'-')
}

/// Whether a shell needs quotes around a name.
fn needs_quotes(name: &[u8]) -> bool
    ensures { result ≡ list_any (λ b. not (is_plain b)) name.now }
{
    name.iter().any(|byte| !is_plain(*byte))
}

/// Whether a byte may be in single quotes on one line: it is printable and not a single quote.
fn is_tellable(byte: u8) -> bool
    ensures { result ≡ is_tellable byte }
{
    is_printable(byte) && byte != b'\''
}

/// Whether a name has a byte that may not be in single quotes.
fn is_untold(name: &[u8]) -> bool
    ensures { result ≡ list_any (λ b. not (is_tellable b)) name.now }
{
    name.iter().any(|byte| !is_tellable(*byte))
}

/// Appends a file's name as a word for a shell, in single quotes if it needs them.
#[tactic(auto, unfolding(crate::specs::Commands::shell_word))]
fn push_shell_word(text: &mut String, name: &str) -> Result<(), AllocError>
    ensures { Adds result text.old (shell_word name.now) text.new }
{
    if !needs_quotes(name.as_bytes()) {
        return text.push_str(name);
    }
    text.push_str("'")?;
    text.push_str(name)?;
    text.push_str("'")
}

/// Appends the command that writes a changed copy of a file: `first < name`, then `next`, then ` >
/// name.new`.
#[tactic(auto, unfolding(crate::specs::Commands::command_text))]
fn push_command(text: &mut String, first: &str, next: &str, name: &str) -> Result<(), AllocError>
    ensures { Adds result text.old (command_text first.now next.now name.now) text.new }
{
    text.push_str(first)?;
    text.push_str(" < ")?;
    push_shell_word(text, name)?;
    text.push_str(next)?;
    text.push_str(" > ")?;
    push_shell_word(text, name)?;
    text.push_str(".new")
}

/// Appends how to mend a file, and the command for it if single quotes can hold the file's name.
#[tactic(auto, unfolding(crate::specs::Commands::mending_text))]
pub fn push_mending(
    text: &mut String,
    cure: &str,
    first: &str,
    next: &str,
    file: Option<&str>,
) -> Result<(), AllocError>
    ensures { Adds result text.old (mending_text cure.now first.now next.now (option_copied file.entry)) text.new }
{
    text.push_str(cure)?;
    match file {
        Some(name) if !is_untold(name.as_bytes()) => {
            text.push_str(" with ")?;
            push_command(text, first, next, name)
        }
        _ => Ok(()),
    }
}
