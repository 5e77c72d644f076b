// The settings of an index, and the parameters of a follower.
ghost use Rattle.std.specs.Prelude.{◌≡◌, ◌≤◌, ◌<◌, ◌-◌, ◌^◌, IfSome, option_map};
ghost use Rattle.serde_json.specs.View.{view};
ghost use Rattle.ccr_script.specs.Settings.{line_of, value_of as value_of_setting, given as given_setting, given_or as given_or_default, soft_deletes_in, is_one_of as is_one_of_these, is_known as is_known_of, are_known as are_known_of, are_members_known as are_members_known_of, create_settings as create_settings_of, follow_settings as follow_settings_of, are_params as are_params_of, params_of};

use crate::amounts::{Unit, amount};
use ccr_journal::{ParamValues, Params};
use ccr_meta::Settings;
use serde_json::Value;

const MOST_COUNT: u64 = 2_147_483_647;

const MOST_SIZE: u64 = 9_223_372_036_854_775_807;

const MOST_TIME: u64 = 9_007_199_254_740_991;

/// A setting or a parameter that is an amount.
#[derive(Clone, Copy, Debug, PartialEq, Eq)]
pub enum Setting {
    Shards,
    Replicas,
    Retention,
    Period,
    ReadCount,
    ReadSize,
    Reads,
    WriteCount,
    WriteSize,
    Writes,
    BufferCount,
    BufferSize,
    RetryDelay,
    PollTimeout,
    ChunkSize,
}

/// What a setting counts, and its range.
#[derive(Clone, Copy)]
struct Line {
    name: &'static str,
    unit: Unit,
    least: u64,
    most: u64,
}

fn make_line(name: &'static str, unit: Unit, least: u64, most: u64) -> Line
    ensures name { result.name.now ≡ name.now }
    ensures unit { result.unit ≡ unit }
    ensures least { result.least ≡ least }
    ensures most { result.most ≡ most }
{
    Line {
        name,
        unit,
        least,
        most,
    }
}

impl Setting {
    fn line(self) -> Line
        ensures name { result.name.now ≡ (line_of self).name }
        ensures unit { result.unit ≡ (line_of self).unit }
        ensures least { result.least ≡ (line_of self).least }
        ensures most { result.most ≡ (line_of self).most }
        ensures bounds { result.most ≤ 2 ^ 63 - 1 }
    {
        match self {
            Setting::Shards => make_line("index.number_of_shards", Unit::Count, 1, 16),
            Setting::Replicas => make_line("index.number_of_replicas", Unit::Count, 0, 7),
            Setting::Retention => make_line(
                "index.soft_deletes.retention.operations",
                Unit::Count,
                0,
                MOST_TIME,
            ),
            Setting::Period => make_line(
                "index.soft_deletes.retention_lease.period",
                Unit::Time,
                1,
                MOST_TIME,
            ),
            Setting::ReadCount => make_line(
                "max_read_request_operation_count",
                Unit::Count,
                1,
                MOST_COUNT,
            ),
            Setting::ReadSize => make_line("max_read_request_size", Unit::Size, 1, MOST_SIZE),
            Setting::Reads => make_line(
                "max_outstanding_read_requests",
                Unit::Count,
                1,
                MOST_COUNT,
            ),
            Setting::WriteCount => make_line(
                "max_write_request_operation_count",
                Unit::Count,
                1,
                MOST_COUNT,
            ),
            Setting::WriteSize => make_line("max_write_request_size", Unit::Size, 1, MOST_SIZE),
            Setting::Writes => make_line(
                "max_outstanding_write_requests",
                Unit::Count,
                1,
                MOST_COUNT,
            ),
            Setting::BufferCount => make_line("max_write_buffer_count", Unit::Count, 1, MOST_COUNT),
            Setting::BufferSize => make_line("max_write_buffer_size", Unit::Size, 1, MOST_SIZE),
            Setting::RetryDelay => make_line("max_retry_delay", Unit::Time, 1, MOST_TIME),
            Setting::PollTimeout => make_line("read_poll_timeout", Unit::Time, 1, MOST_TIME),
            Setting::ChunkSize => make_line("chunk_size", Unit::Size, 1, 16_777_216),
        }
    }
}

/// The setting's amount, where the value is one in the setting's range.
fn value_of(setting: Setting, value: &Value) -> Option<u64>
    ensures value { result ≡ value_of_setting setting (view value.now) }
    ensures bounds { IfSome result (λ n. ((line_of setting).least ≤ n) × (n ≤ (line_of setting).most)) }
{
    let line = setting.line();
    let amount = amount(line.unit, value)?;
    if line.least <= amount && amount <= line.most {
        Some(amount)
    } else {
        None
    }
}

/// The setting's amount in an object, where it is there and in its range.
fn given(setting: Setting, object: Option<&Value>) -> Option<u64>
    ensures value { result ≡ given_setting setting (option_map (λ v. view v.now) object.entry) }
    ensures bounds { IfSome result (λ n. ((line_of setting).least ≤ n) × (n ≤ (line_of setting).most)) }
{
    value_of(setting, object?.get(setting.line().name)?)
}

// As `given`, of a setting below 2^32.
fn small_given(setting: Setting, object: Option<&Value>) -> Option<u32>
    requires { (line_of setting).most < 2 ^ 32 }
    ensures { result ≡ given_setting setting (option_map (λ v. view v.now) object.entry) }
{
    let amount = given(setting, object)?;
    Some(amount as u32)
}

fn given_or(setting: Setting, object: Option<&Value>, default: u64) -> u64
    requires least { (line_of setting).least ≤ default }
    requires most { default ≤ (line_of setting).most }
    ensures value { result ≡ given_or_default setting (option_map (λ v. view v.now) object.entry) default }
    ensures bounds { ((line_of setting).least ≤ result) × (result ≤ (line_of setting).most) }
{
    match given(setting, object) {
        Some(amount) => amount,
        None => default,
    }
}

const SOFT_DELETES: &str = "index.soft_deletes.enabled";

fn soft_deletes_given(object: Option<&Value>) -> Option<bool>
    ensures { result ≡ soft_deletes_in (option_map (λ v. view v.now) object.entry) }
{
    object?.get(SOFT_DELETES)?.as_bool()
}

#[tactic(auto, using(crate::proofs::Members::setting_rules))]
// Whether the name is that of one of the settings, and the value is in its range.
fn is_one_of(settings: &[Setting], name: &str, value: &Value) -> bool
    ensures { result ≡ is_one_of_these settings.now name.now (view value.now) }
{
    for setting in settings {
        if name == setting.line().name {
            return value_of(*setting, value).is_some();
        }
    }
    false
}

// Whether it is one of these, or `index.soft_deletes.enabled` where that is taken.
fn is_known(settings: &[Setting], truths: bool, name: &str, value: &Value) -> bool
    ensures { result ≡ is_known_of settings.now truths name.now (view value.now) }
{
    if truths && name == SOFT_DELETES {
        return value.as_bool().is_some();
    }
    is_one_of(settings, name, value)
}

fn are_known(settings: &[Setting], truths: bool, object: Option<&Value>) -> bool
    ensures { result ≡ are_known_of settings.now truths (option_map (λ v. view v.now) object.entry) }
{
    let Some(object) = object else {
        return true;
    };
    are_members_known(settings, truths, object)
}

#[tactic(auto, using(crate::proofs::Members::member_rules))]
fn are_members_known(settings: &[Setting], truths: bool, object: &Value) -> bool
    ensures { result ≡ are_members_known_of settings.now truths (view object.now) }
{
    let Some(members) = object.as_object() else {
        return false;
    };
    for (name, member) in members.iter() {
        if !is_known(settings, truths, name.as_str(), member) {
            return false;
        }
    }
    true
}

/// The settings of a new index.
pub fn create_settings(object: Option<&Value>) -> Settings
    ensures { result ≡ create_settings_of (option_map (λ v. view v.now) object.entry) }
{
    let known = [
        Setting::Shards,
        Setting::Replicas,
        Setting::Retention,
        Setting::Period,
    ];
    Settings {
        shards: small_given(Setting::Shards, object),
        replicas: small_given(Setting::Replicas, object),
        soft_deletes: soft_deletes_given(object),
        retention: given(Setting::Retention, object),
        period: given(Setting::Period, object),
        bad: !are_known(&known, true, object),
    }
}

/// The settings of a new follower, which takes the number of replicas alone.
pub fn follow_settings(object: Option<&Value>, params: Option<&Value>) -> Settings
    ensures { result ≡ follow_settings_of (option_map (λ v. view v.now) object.entry) (option_map (λ v. view v.now) params.entry) }
{
    let known = [Setting::Replicas];
    Settings {
        shards: None,
        replicas: small_given(Setting::Replicas, object),
        soft_deletes: None,
        retention: None,
        period: None,
        bad: !are_known(&known, false, object) || !are_params(params),
    }
}

fn are_params(object: Option<&Value>) -> bool
    ensures { result ≡ are_params_of (option_map (λ v. view v.now) object.entry) }
{
    let known = [
        Setting::ReadCount,
        Setting::ReadSize,
        Setting::Reads,
        Setting::WriteCount,
        Setting::WriteSize,
        Setting::Writes,
        Setting::BufferCount,
        Setting::BufferSize,
        Setting::RetryDelay,
        Setting::PollTimeout,
        Setting::ChunkSize,
    ];
    are_known(&known, false, object)
}

/// The parameters of a new follower: each that is absent or out of its range has its default.
pub fn params(object: Option<&Value>) -> Params
    ensures { result ≡ params_of (option_map (λ v. view v.now) object.entry) }
{
    let values = ParamValues {
        max_read_request_operation_count: given_or(Setting::ReadCount, object, 5_120),
        max_read_request_size: given_or(Setting::ReadSize, object, 33_554_432),
        max_outstanding_read_requests: given_or(Setting::Reads, object, 12),
        max_write_request_operation_count: given_or(Setting::WriteCount, object, 5_120),
        max_write_request_size: given_or(Setting::WriteSize, object, MOST_SIZE),
        max_outstanding_write_requests: given_or(Setting::Writes, object, 9),
        max_write_buffer_count: given_or(Setting::BufferCount, object, MOST_COUNT),
        max_write_buffer_size: given_or(Setting::BufferSize, object, 536_870_912),
        max_retry_delay: given_or(Setting::RetryDelay, object, 500),
        read_poll_timeout: given_or(Setting::PollTimeout, object, 60_000),
        chunk_size: given_or(Setting::ChunkSize, object, 1_048_576),
    };
    match Params::new(values) {
        Some(params) => params,
        None => unreachable!(),
    }
}
