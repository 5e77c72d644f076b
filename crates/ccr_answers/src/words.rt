// The words of answers, and the texts of refusals.
ghost use Rattle.std.specs.Prelude.{◌≡◌, IfOk, string_bytes};
ghost use Rattle.ccr_answers.specs.Words.{checkpoint, conflict_text, fault_word, pattern_word, phase_word, refusal_text, result_word, source_word};

use ccr_auto::AutoFault;
use ccr_doc::BadSource;
use ccr_journal::{Phase, Refusal, WriteResult};
use ccr_meta::MetaFault;
use ccr_op::Term;
use std::alloc::{AllocError, Global};

pub(crate) fn fault_word(fault: MetaFault) -> &'static str
    ensures { result.now ≡ fault_word fault }
{
    match fault {
        MetaFault::NoIndex => "NoIndex",
        MetaFault::IndexExists => "IndexExists",
        MetaFault::BadSetting => "BadSetting",
        MetaFault::IsFollower => "IsFollower",
        MetaFault::NotFollower => "NotFollower",
        MetaFault::NotPaused => "NotPaused",
        MetaFault::NoCluster => "NoCluster",
        MetaFault::SoftDeletesOff => "SoftDeletesOff",
        MetaFault::TooMany => "TooMany",
        MetaFault::Bootstrapping => "Bootstrapping",
        MetaFault::NoShard => "NoShard",
        MetaFault::ClusterExists => "ClusterExists",
        MetaFault::Memory => "Memory",
    }
}

pub(crate) fn pattern_word(fault: &AutoFault) -> &'static str
    ensures { result.now ≡ pattern_word fault.now }
{
    match fault {
        AutoFault::NameTaken => "NameTaken",
        AutoFault::BadPattern => "BadPattern",
        AutoFault::NoPattern => "NoPattern",
        AutoFault::Memory => "Memory",
    }
}

fn source_word(cause: BadSource) -> &'static str
    ensures { result.now ≡ source_word cause }
{
    match cause {
        BadSource::NotObject => "NotObject",
        BadSource::Number => "Number",
        BadSource::Nested => "Nested",
        BadSource::TooLarge => "TooLarge",
        BadSource::NotJson => "NotJson",
        BadSource::Memory => "Memory",
    }
}

pub(crate) fn result_word(found: WriteResult) -> &'static str
    ensures { result.now ≡ result_word found }
{
    match found {
        WriteResult::Created => "created",
        WriteResult::Updated => "updated",
        WriteResult::Deleted => "deleted",
        WriteResult::NotFound => "not_found",
    }
}

pub(crate) fn phase_word(phase: Phase) -> &'static str
    ensures { result.now ≡ phase_word phase }
{
    match phase {
        Phase::Leasing => "leasing",
        Phase::Opening => "opening",
        Phase::Fetching => "fetching",
        Phase::Active => "active",
        Phase::Paused => "paused",
        Phase::Missing => "missing",
        Phase::History => "history",
        Phase::Unfollowed => "unfollowed",
    }
}

/// The checkpoint of a count: the count less 1.
#[tactic(auto, unfolding(ccr_search::specs::Printed::checkpoint_text))]
pub(crate) fn checkpoint(alloc: Global, count: u64) -> Result<String, AllocError>
    ensures { IfOk result (λ text. string_bytes text ≡ checkpoint count) }
{
    if count == 0 {
        let none: i64 = -1;
        return none.to_string(alloc);
    }
    let checkpoint = count - 1;
    checkpoint.to_string(alloc)
}

fn conflict_text(alloc: Global, last: Option<(u64, Term)>) -> Result<String, AllocError>
    ensures { IfOk result (λ text. string_bytes text ≡ conflict_text last) }
{
    match last {
        None => String::from_str(alloc, "refused Conflict none"),
        Some((seq, term)) => format!(in alloc; "refused Conflict seq={seq} term={term}"),
    }
}

/// The text of a refusal.
pub(crate) fn refusal_text(alloc: Global, refusal: &Refusal) -> Result<String, AllocError>
    ensures { IfOk result (λ text. string_bytes text ≡ refusal_text refusal.now) }
{
    match refusal {
        Refusal::NoCopy { copy } => format!(in alloc; "refused NoCopy copy={copy}"),
        Refusal::IsPrimary { copy } => format!(in alloc; "refused IsPrimary copy={copy}"),
        Refusal::LastCopy { copy } => format!(in alloc; "refused LastCopy copy={copy}"),
        Refusal::NotReady { copy } => format!(in alloc; "refused NotReady copy={copy}"),
        Refusal::NoOperation { seq } => format!(in alloc; "refused NoOperation seq={seq}"),
        Refusal::TooMany => String::from_str(alloc, "refused TooMany"),
        Refusal::NoFrame { at } => format!(in alloc; "refused NoFrame at={at}"),
        Refusal::NoPoll { at } => format!(in alloc; "refused NoPoll at={at}"),
        Refusal::Wait { global } => {
            let checkpoint = checkpoint(alloc, *global)?;
            format!(in alloc; "refused Wait global={checkpoint}")
        }
        Refusal::NoRequest { at } => format!(in alloc; "refused NoRequest at={at}"),
        Refusal::NoBatch { write } => format!(in alloc; "refused NoBatch write={write}"),
        Refusal::OldEpoch { kept } => format!(in alloc; "refused OldEpoch kept={kept}"),
        Refusal::NotWritten { copy } => format!(in alloc; "refused NotWritten copy={copy}"),
        Refusal::NotActive => String::from_str(alloc, "refused NotActive"),
        Refusal::Bootstrapping => String::from_str(alloc, "refused Bootstrapping"),
        Refusal::Conflict { last } => conflict_text(alloc, *last),
        Refusal::Exists { seq } => format!(in alloc; "refused Exists seq={seq}"),
        Refusal::BadSource(cause) => {
            let word = source_word(*cause);
            format!(in alloc; "refused BadSource {word}")
        }
        Refusal::NotPaused => String::from_str(alloc, "refused NotPaused"),
        Refusal::SameName { .. } => String::from_str(alloc, "refused SameName"),
        Refusal::NoFollower { .. } => String::from_str(alloc, "refused NoFollower"),
        Refusal::NotSettled => String::from_str(alloc, "refused NotSettled"),
        Refusal::NoStale { copy } => format!(in alloc; "refused NoStale copy={copy}"),
    }
}
