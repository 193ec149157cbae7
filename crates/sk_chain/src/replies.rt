//! Results as the replies of a journal.

ghost use Rattle.std.specs.Prelude.{◌≡◌, IfOk, Some};
ghost use Rattle.sk_model.specs.declared.call.EngineReply.TheVariants.{Done, Found, Rows, Number, Commits};
ghost use Rattle.sk_chain.specs.Promise.{refused, replied};

use sk_model::{CommitList, EngineFault, EngineReply, KeyedRows};
use sk_rows::{Copies, NoMemory, Row};
use std::alloc::Global;

/// A refusal as a reply. Want of memory is none.
pub(crate) fn refused(fault: EngineFault) -> Option<EngineReply>
    ensures { result ≡ refused fault }
{
    match fault {
        EngineFault::NoMemory => None,
        _ => Some(EngineReply::Fault(fault)),
    }
}

pub(crate) fn done(answer: &Result<(), EngineFault>) -> Option<EngineReply>
    ensures { result ≡ replied (λ _. Done) answer.now }
{
    match answer {
        Ok(()) => Some(EngineReply::Done),
        Err(fault) => refused(*fault),
    }
}

pub(crate) fn number(answer: &Result<u32, EngineFault>) -> Option<EngineReply>
    ensures { result ≡ replied Number answer.now }
{
    match answer {
        Ok(n) => Some(EngineReply::Number(*n)),
        Err(fault) => refused(*fault),
    }
}

pub(crate) fn found(
    alloc: Global,
    answer: &Result<Option<Row>, EngineFault>,
) -> Result<Option<EngineReply>, NoMemory>
    ensures { IfOk result (λ reply. reply ≡ replied Found answer.now) }
{
    match answer {
        Ok(row) => Ok(Some(EngineReply::Found(row.copy(alloc)?))),
        Err(fault) => Ok(refused(*fault)),
    }
}

pub(crate) fn rows(
    alloc: Global,
    answer: &Result<KeyedRows, EngineFault>,
) -> Result<Option<EngineReply>, NoMemory>
    ensures { IfOk result (λ reply. reply ≡ replied Rows answer.now) }
{
    match answer {
        Ok(rows) => Ok(Some(EngineReply::Rows(rows.copy(alloc)?))),
        Err(fault) => Ok(refused(*fault)),
    }
}

pub(crate) fn commits(
    alloc: Global,
    answer: &Result<CommitList, EngineFault>,
) -> Result<Option<EngineReply>, NoMemory>
    ensures { IfOk result (λ reply. reply ≡ replied Commits answer.now) }
{
    match answer {
        Ok(commits) => Ok(Some(EngineReply::Commits(commits.copy(alloc)?))),
        Err(fault) => Ok(refused(*fault)),
    }
}
