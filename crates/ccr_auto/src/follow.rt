ghost use Rattle.std.specs.Prelude.{◌≡◌, ◌≤◌, ◌&&◌, ◌+◌, ◌++◌, [], length, filter, IfOk, IfErr, OnOk, OnErr, MatchOption, MatchResult, Ok, Err, string_bytes};
ghost use Rattle.std.specs.List.{list_any, list_all};
ghost use Rattle.std.specs.Str.{bytes_eq};
ghost use Rattle.std.specs.Ordering.{is_lt, nat_cmp};
ghost use Rattle.std.specs.Cmp.Lexicographic.{slice_cmp};
ghost use Rattle.ccr_auto.specs.Follow.{Ascend, HasMarker, IsGap, IsPlace, MarksOnce, applies, is_pattern_byte, is_pattern_text, pattern_of, place_of, some_match, with_pattern, without, name_for};
ghost use Rattle.ccr_auto.specs.Patterns.{is_match};
ghost use Rattle.ccr_auto.specs.Answers.{IsJudged, decision_of};

use crate::pattern::matches;
use ccr_op::Name;
use std::alloc::{AllocError, Global};
use std::marker::Model;
use std::sync::ArcStr;
use thiserror::Error;

/// What stands in the follow name of a pattern for the name of the leader index.
const MARKER: &str = "{{leader_index}}";

/// Why a call on the patterns was refused.
#[derive(Debug, Drop, Error)]
pub enum AutoFault {
    /// There is a pattern of that name.
    #[error("the name is taken")]
    NameTaken,
    /// The pattern is not well formed.
    #[error("the pattern is not well formed")]
    BadPattern,
    /// There is no pattern of that name.
    #[error("there is no such pattern")]
    NoPattern,
    /// Memory ran out.
    #[error("out of memory")]
    Memory,
}

/// What the patterns say of an index of a remote cluster.
#[derive(Debug, Drop)]
pub enum Decision {
    /// No pattern matches: it is not followed.
    None,
    /// One pattern matches: it is followed under this name.
    Follow { name: Name },
    /// Several patterns match, of which these are the two least names: it is not followed.
    Conflict { first: Name, second: Name },
}

// A pattern, with its follow name cut where the name of the leader index goes.
#[derive(Debug, Drop)]
struct Entry {
    name: Name,
    remote: Name,
    patterns: Vec<Name>,
    exclude: Vec<Name>,
    front: String,
    back: String,
}

impl Model for Entry {
    ghost use Rattle.std.specs.Prelude.{◌++◌, string_bytes};
    ghost use Rattle.ccr_auto.specs.Follow.{FollowPattern, MarksOnce, marker};

    ghost Value = { FollowPattern };

    ghost view = { λ a. record { name = a.name; remote = a.remote; patterns = a.patterns.items; exclude = a.exclude.items; follow = string_bytes a.front ++ (marker ++ string_bytes a.back) } };

    ghost invariant = { λ a. MarksOnce (string_bytes a.front ++ (marker ++ string_bytes a.back)) (string_bytes a.front) (string_bytes a.back) };
}

impl Entry {
    fn is_before(&self, name: &Name) -> bool
        ensures { result ≡ is_lt (slice_cmp nat_cmp self.now.name name.now) }
    {
        self.name.as_str() < name.as_str()
    }

    fn has_name(&self, name: &Name) -> bool
        ensures { result ≡ bytes_eq self.now.name name.now }
    {
        self.name.is(name)
    }

    fn copy_name(&self, alloc: Global) -> Result<Name, AllocError>
        ensures { IfOk result (λ name. name ≡ self.now.name) }
    {
        let name = self.name.copy(alloc)?;
        Ok(name)
    }

    fn applies(&self, remote: &Name, index: &Name) -> bool
        ensures { result ≡ applies remote.now index.now self.now }
    {
        self.remote.is(remote)
            && matches_any(self.patterns.as_slice(), index)
            && !matches_any(self.exclude.as_slice(), index)
    }

    fn follow_name(&self, alloc: Global, index: &Name) -> Result<Name, AllocError>
        ensures { IfOk result (λ name. name ≡ name_for index.now self.now.follow) }
    {
        let mut name = String::from_str(alloc, self.front.as_str())?;
        name.push_str(index.as_str())?;
        name.push_str(self.back.as_str())?;
        Ok(Name::new(ArcStr::from_string(name)?))
    }
}

/// The auto-follow patterns of a cluster, each under its name, in ascending order of the bytes of the
/// names.
#[derive(Debug, Drop)]
pub struct AutoFollow {
    alloc: Global,
    list: Vec<Entry>,
}

impl Model for AutoFollow {
    ghost use Rattle.std.specs.Prelude.{List};
    ghost use Rattle.ccr_auto.specs.Follow.{FollowPattern, Ascend};

    ghost Value = { List FollowPattern };

    ghost view = { λ a. a.list.items };

    ghost invariant = { λ a. Ascend a.list.items };
}

impl AutoFollow {
    /// No patterns.
    pub fn new(alloc: Global) -> AutoFollow
        ensures { result ≡ [] }
    {
        AutoFollow {
            alloc,
            list: Vec::new(alloc),
        }
    }

    /// Puts a pattern under a name: indices of the remote cluster that match one of the patterns and none
    /// of the exclusions are to be followed under the follow name, in which `{{leader_index}}` stands for
    /// the name of the index.
    ///
    /// Refused is `NameTaken` exactly where there is a pattern of that name. Otherwise `BadPattern` exactly
    /// where there are no patterns, where a pattern or an exclusion has a byte other than
    /// `a-z 0-9 . _ - *`, or where the follow name does not have `{{leader_index}}` exactly once. A refused
    /// call changes nothing.
    #[tactic(auto, using(crate::proofs::Ordered::taken_answer, crate::proofs::Ordered::free_answer))]
    pub fn put(
        &mut self,
        name: Name,
        remote: Name,
        patterns: Vec<Name>,
        exclude: Vec<Name>,
        follow: Name,
    ) -> Result<(), AutoFault>
        ensures answer { MatchOption (pattern_of name self.old) (IsJudged patterns.items exclude.items follow result) (λ taken. result ≡ Err AutoFault.NameTaken) }
        ensures ok { OnOk result (self.new ≡ with_pattern (record { name = name; remote = remote; patterns = patterns.items; exclude = exclude.items; follow = follow }) self.old) }
        ensures err { OnErr result (self.new ≡ self.old) }
    {
        let place = match search(self.list.as_slice(), &name) {
            Ok(_) => return Err(AutoFault::NameTaken),
            Err(place) => place,
        };
        if patterns.is_empty() {
            return Err(AutoFault::BadPattern);
        }
        if !are_pattern_texts(patterns.as_slice()) {
            return Err(AutoFault::BadPattern);
        }
        if !are_pattern_texts(exclude.as_slice()) {
            return Err(AutoFault::BadPattern);
        }
        let Some((front, back)) = split_follow(follow.as_str()) else {
            return Err(AutoFault::BadPattern);
        };
        let Ok(front) = String::from_str(self.alloc, front) else {
            return Err(AutoFault::Memory);
        };
        let Ok(back) = String::from_str(self.alloc, back) else {
            return Err(AutoFault::Memory);
        };
        let entry = Entry {
            name,
            remote,
            patterns,
            exclude,
            front,
            back,
        };
        if self.list.insert(place, entry).is_err() {
            return Err(AutoFault::Memory);
        }
        Ok(())
    }

    /// Takes the pattern of a name away. Refused is `NoPattern`, exactly where there is none; then nothing
    /// changes. It takes no memory.
    #[tactic(auto, using(crate::proofs::Ordered::taken_answer, crate::proofs::Ordered::free_answer))]
    pub fn delete(&mut self, name: &Name) -> Result<(), AutoFault>
        ensures answer { MatchOption (pattern_of name.now self.old) (result ≡ Err AutoFault.NoPattern) (λ kept. result ≡ Ok tt) }
        ensures ok { OnOk result (self.new ≡ without name.now self.old) }
        ensures err { OnErr result (self.new ≡ self.old) }
    {
        let Ok(place) = search(self.list.as_slice(), name) else {
            return Err(AutoFault::NoPattern);
        };
        let _ = self.list.remove(place);
        Ok(())
    }

    /// What the patterns say of this index of that remote cluster: a pattern matches where it is of that
    /// remote cluster, one of its texts matches the index, and none of its exclusions does. It goes through the patterns in order of
    /// their names, and no further than the second that matches.
    pub fn decide(&self, alloc: Global, remote: &Name, index: &Name) -> Result<Decision, AllocError>
        ensures answer { IfOk result (λ decision. decision ≡ decision_of remote.now index.now self.now) }
        ensures order { Ascend self.now }
    {
        let mut first: Option<&Entry> = None;
        for entry in &self.list {
            if entry.applies(remote, index) {
                match first {
                    None => first = Some(entry),
                    Some(other) => {
                        let first = other.copy_name(alloc)?;
                        let second = entry.copy_name(alloc)?;
                        return Ok(Decision::Conflict { first, second });
                    }
                }
            }
        }
        match first {
            None => Ok(Decision::None),
            Some(entry) => {
                let name = entry.follow_name(alloc, index)?;
                Ok(Decision::Follow { name })
            }
        }
    }
}

// The place of the pattern of this name, or where it would stand.
fn search(list: &[Entry], name: &Name) -> Result<usize, usize>
    requires { Ascend list.now }
    ensures { MatchResult result (λ place. IsPlace name.now place list.now) (λ place. IsGap name.now place list.now) }
{
    let place = place_of(list, name);
    if place >= list.len() {
        return Err(place);
    }
    if !list[place].has_name(name) {
        return Err(place);
    }
    Ok(place)
}

// How many patterns have a smaller name.
fn place_of(list: &[Entry], name: &Name) -> usize
    requires { Ascend list.now }
    ensures place { result ≡ place_of name.now list.now }
    ensures bound { result ≤ length list.now }
{
    list.partition_point(|entry| entry.is_before(name))
}

// Whether the index matches one of the patterns.
fn matches_any(patterns: &[Name], index: &Name) -> bool
    ensures { result ≡ some_match index.now patterns.now }
{
    patterns
        .iter()
        .any(|pattern| matches(pattern.as_str(), index.as_str()))
}

// Whether each is of the bytes of a pattern.
fn are_pattern_texts(patterns: &[Name]) -> bool
    ensures { result ≡ list_all is_pattern_text patterns.now }
{
    patterns
        .iter()
        .all(|pattern| is_pattern_text(pattern.as_str()))
}

fn is_pattern_text(text: &str) -> bool
    ensures { result ≡ is_pattern_text text.now }
{
    text.as_bytes().iter().all(|byte| is_pattern_byte(*byte))
}

fn is_pattern_byte(byte: u8) -> bool
    ensures { result ≡ is_pattern_byte byte }
{
    matches!(byte, b'a'..=b'z' | b'0'..=b'9' | b'.' | b'_' | b'-' | b'*')
}

// The follow name before and after its marker, which has to stand there once.
fn split_follow(follow: &str) -> Option<(&str, &str)>
    ensures { MatchOption result (HasMarker follow.now → ⊥) (λ parts. MarksOnce follow.now parts.0.now parts.1.now) }
{
    let (front, back) = follow.split_once(MARKER)?;
    if back.contains(MARKER) {
        return None;
    }
    Some((front, back))
}
