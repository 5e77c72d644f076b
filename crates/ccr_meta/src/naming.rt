ghost use Rattle.std.specs.Prelude.{◌≡◌, IfOk};
ghost use Rattle.std.specs.List.{list_all};
ghost use Rattle.ccr_meta.specs.Names.{fits, index_uuid, is_first_byte, is_name, is_name_byte};
ghost use Rattle.ccr_meta.specs.NameGuards.{is_fit_to_create, is_fit_to_follow};

use crate::{Settings, uuid_of};
use ccr_op::{IndexName, Name};
use std::alloc::{AllocError, Global};
use uuid::Uuid;

/// The greatest number of milliseconds, or of operations, that a setting has.
const MOST: u64 = 9007199254740991;

/// Whether a cluster, an index or a pattern may have this name: 1 to 64 of `a-z 0-9 . _ -`, the first of
/// `a-z 0-9 .`.
pub fn is_name(name: &Name) -> bool
    ensures { result ≡ is_name name.now }
{
    is_name_text(name.as_str().as_bytes())
}

fn is_name_text(text: &[u8]) -> bool
    ensures { result ≡ is_name text.now }
{
    let Some((first, rest)) = text.split_first() else {
        return false;
    };
    is_first_byte(*first) && are_name_bytes(rest) && rest.len() <= 63
}

fn are_name_bytes(text: &[u8]) -> bool
    ensures { result ≡ list_all is_name_byte text.now }
{
    text.iter().all(|byte| is_name_byte(*byte))
}

fn is_first_byte(byte: u8) -> bool
    ensures { result ≡ is_first_byte byte }
{
    matches!(byte, b'a'..=b'z' | b'0'..=b'9' | b'.')
}

fn is_name_byte(byte: u8) -> bool
    ensures { result ≡ is_name_byte byte }
{
    is_first_byte(byte) || matches!(byte, b'_' | b'-')
}

fn is_fit_count(value: Option<u32>, least: u32, most: u32) -> bool
    ensures { result ≡ fits least most value }
{
    match value {
        None => true,
        Some(n) => least <= n && n <= most,
    }
}

fn is_fit_number(value: Option<u64>, least: u64, most: u64) -> bool
    ensures { result ≡ fits least most value }
{
    match value {
        None => true,
        Some(n) => least <= n && n <= most,
    }
}

// Whether an index of this name can be created with these settings.
pub(crate) fn is_fit_to_create(index: &IndexName, settings: &Settings) -> bool
    ensures { result ≡ is_fit_to_create index.now settings.now }
{
    is_name(&index.index)
        && !settings.bad
        && is_fit_count(settings.shards, 1, 16)
        && is_fit_count(settings.replicas, 0, 7)
        && is_fit_number(settings.retention, 0, MOST)
        && is_fit_number(settings.period, 1, MOST)
}

// Whether a follower of this name and leader can be made with these settings.
pub(crate) fn is_fit_to_follow(index: &IndexName, leader: &IndexName, settings: &Settings) -> bool
    ensures { result ≡ is_fit_to_follow index.now leader.now settings.now }
{
    is_name(&index.index)
        && !settings.bad
        && is_fit_count(settings.replicas, 0, 7)
        && settings.shards.is_none()
        && settings.soft_deletes.is_none()
        && settings.retention.is_none()
        && settings.period.is_none()
        && !index.cluster.is(&leader.cluster)
}

// The UUID of an index.
pub(crate) fn index_uuid(alloc: Global, index: &IndexName) -> Result<Uuid, AllocError>
    ensures { IfOk result (λ uuid. uuid ≡ index_uuid index.now) }
{
    let mut text = String::from_str(alloc, "index:")?;
    text.push_str(index.cluster.as_str())?;
    text.push_str("/")?;
    text.push_str(index.index.as_str())?;
    Ok(uuid_of(text.as_str()))
}
