//! A poll file read once, for the poll and for all that is wrong with it.
ghost use Rattle.std.specs.Prelude.{◌≡◌, ◌≢◌, Ok, Err, IfOk, string_bytes};
ghost use Rattle.toml.specs.View.{table_view};
ghost use Rattle.vote_poll_keys.specs.FoundView.{found_view};
ghost use Rattle.vote_poll_keys.specs.KeyFaults.{found_in};
ghost use Rattle.vote_poll_keys.specs.Keys.{document};
ghost use Rattle.vote_poll.specs.PollFaults.{faults_in};
ghost use Rattle.vote_poll.specs.PollFile.{poll_in, poll_in_table};
ghost use Rattle.vote_explain_poll.specs.Findings.{AreFindings, AreFindingsOf};
ghost use Rattle.vote_poll_keys.specs.declared.fault.PollFault.TheVariants.{Memory, Syntax};

use crate::findings::{Hints, push_fault_line, push_key_line};
use crate::syntax::syntax_finding;
use crate::unread::unread_keys;
use std::alloc::{AllocError, Global};
use toml::Table;
use vote_poll::{Poll, push_faults};
use vote_poll_keys::{FoundKeys, PollFault};

/// What a poll file says, and all that is wrong with it.
#[derive(Drop)]
pub struct ExplainedPoll {
    /// A line for each finding; it is empty where there is none. `docs/FORMATS.md` has the lines.
    pub findings: String,
    /// The poll, or the first of its faults, which is never [`PollFault::Memory`].
    pub outcome: Result<Poll, PollFault>,
}

/// The findings of a table with these faults: a line for each, and for each key that is not read.
fn findings_of(
    alloc: Global,
    poll: &[u8],
    table: &Table,
    keys: &FoundKeys<'_>,
    faults: &[PollFault],
) -> Result<String, AllocError>
    requires { found_view keys.now ≡ found_in (table_view table.now) }
    ensures { IfOk result (λ findings. AreFindings faults.now (table_view table.now) (string_bytes findings)) }
{
    let unread = unread_keys(alloc, table)?;
    let hints = Hints::of(alloc, poll, table, keys, &unread)?;
    let mut findings = String::new(alloc);
    for fault in faults {
        push_fault_line(alloc, &mut findings, *fault, &hints)?;
    }
    for key in &unread {
        push_key_line(alloc, &mut findings, key, &hints)?;
    }
    Ok(findings)
}

/// What a poll file with this table says, and all that is wrong with it: it is judged as [`Poll::from_text`] judges it.
fn explain_table(alloc: Global, poll: &[u8], table: &Table) -> Result<ExplainedPoll, AllocError>
    ensures findings { IfOk result (λ told. AreFindings (faults_in (Ok (table_view table.now))) (table_view table.now) (string_bytes told.findings)) }
    ensures outcome { IfOk result (λ told. told.outcome ≡ poll_in_table (table_view table.now)) }
    ensures known { IfOk result (λ told. told.outcome ≢ Err Memory) }
{
    let keys = FoundKeys::of_table(alloc, table)?;
    let mut faults = keys.key_faults(alloc, table)?;
    push_faults(alloc, &mut faults, &keys)?;
    let findings = findings_of(alloc, poll, table, &keys, &faults)?;
    match Poll::unless_faulty(alloc, &keys, &faults) {
        Err(PollFault::Memory) => Err(AllocError),
        outcome => Ok(ExplainedPoll { findings, outcome }),
    }
}

/// Reads a poll file as [`Poll::from_text`] does, and says all that is wrong with it: each fault, judged by itself, with what was
/// found; and each key that is not read. `file` is the name of the file for a command that mends it, where it has one.
///
/// # Errors
///
/// Memory ran out.
pub fn explain_poll(
    alloc: Global,
    text: &[u8],
    file: Option<&str>,
) -> Result<ExplainedPoll, AllocError>
    ensures findings { IfOk result (λ told. AreFindingsOf text.now (document text.now) (string_bytes told.findings)) }
    ensures outcome { IfOk result (λ told. told.outcome ≡ poll_in text.now) }
    ensures known { IfOk result (λ told. told.outcome ≢ Err Memory) }
{
    match toml::table_from_slice(alloc, text) {
        Ok(table) => explain_table(alloc, text, &table),
        Err(error) if error.is_memory() => Err(AllocError),
        Err(error) => Ok(ExplainedPoll {
            findings: syntax_finding(alloc, text, &error, file)?,
            outcome: Err(PollFault::Syntax),
        }),
    }
}
