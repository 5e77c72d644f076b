use ccr_auto::{AutoFollow, Decision, matches};
use ccr_op::Name;
use std::alloc::{AllocError, Global};
use std::sync::ArcStr;
use std::test::Fail;

/// In each line whether a pattern matches a name, and the pattern and the name behind bars.
const NAMES: &str = "\
yes||
no||a
yes|*|
yes|logs-*|logs-1
no|logs-*|logs
yes|*-3|logs-3
no|*-3|logs-33
yes|a*b*c|axbbxc
no|a*bc*c|abc
yes|*ab|aab";

/// Whether the pattern of a line matches its name as is said.
fn is_matched(line: &str) -> bool {
    let (want, rest) = line.split_once('|').unwrap_or(("", ""));
    let (pattern, name) = rest.split_once('|').unwrap_or(("", ""));
    matches(pattern, name) == (want == "yes")
}

#[test]
fn stars_stand_for_any_bytes(rt: HostRuntime) {
    for line in NAMES.lines() {
        assert!(rt; is_matched(line), "{line}");
    }
}

fn name(alloc: Global, text: &str) -> Result<Name, AllocError> {
    Ok(Name::new(ArcStr::from_str(alloc, text)?))
}

fn names(alloc: Global, words: &str) -> Result<Vec<Name>, AllocError> {
    let mut list = Vec::new(alloc);
    for word in words.split_whitespace() {
        list.push(name(alloc, word)?)?;
    }
    Ok(list)
}

/// Puts a pattern of the cluster `a`, and says what became of it.
fn put(
    patterns: &mut AutoFollow,
    alloc: Global,
    pattern: &str,
    texts: &str,
    exclude: &str,
) -> Result<String, AllocError> {
    let answer = patterns.put(
        name(alloc, pattern)?,
        name(alloc, "a")?,
        names(alloc, texts)?,
        names(alloc, exclude)?,
        name(alloc, "{{leader_index}}-copy")?,
    );
    match answer {
        Ok(()) => String::from_str(alloc, "ok"),
        Err(bad) => bad.to_string(alloc),
    }
}

fn as_text(alloc: Global, decision: &Decision) -> Result<String, AllocError> {
    match decision {
        Decision::None => String::from_str(alloc, "none"),
        Decision::Follow { name } => String::from_str(alloc, name.as_str()),
        Decision::Conflict { first, second } => {
            let (first, second) = (first.as_str(), second.as_str());
            format!(in alloc; "{first} and {second}")
        }
    }
}

fn decided(patterns: &AutoFollow, alloc: Global, index: &str) -> Result<String, AllocError> {
    let decision = patterns.decide(alloc, &name(alloc, "a")?, &name(alloc, index)?)?;
    as_text(alloc, &decision)
}

/// In each line an index, and behind a colon what the patterns say of it.
const DECISIONS: &str = "\
logs-1: logs-1-copy
logs-3: p1 and p2
logs-x1: none
logs-y: none
logs-y1: logs-y1-copy
m: m-copy";

fn is_decided(patterns: &AutoFollow, alloc: Global, line: &str) -> Result<bool, AllocError> {
    let (index, want) = line.split_once(": ").unwrap_or(("", ""));
    Ok(decided(patterns, alloc, index)?.as_str() == want)
}

#[test]
fn patterns_and_exclusions_decide(rt: HostRuntime) -> Result<(), Fail> {
    let mut patterns = AutoFollow::new(rt.alloc());
    put(&mut patterns, rt.alloc(), "p1", "logs-*", "logs-x* logs-y")?;
    put(&mut patterns, rt.alloc(), "p2", "*-3 m", "")?;
    for line in DECISIONS.lines() {
        assert!(rt; is_decided(&patterns, rt.alloc(), line)?, "{line}");
    }
    Ok(())
}

/// In each line the exclusions of a pattern, and behind a colon what becomes of it.
const EXCLUSIONS: &str = "\
logs-? x: the pattern is not well formed
Logs: the pattern is not well formed
logs-1 x*: ok";

fn is_judged(alloc: Global, line: &str) -> Result<bool, AllocError> {
    let (exclude, want) = line.split_once(": ").unwrap_or(("", ""));
    let mut patterns = AutoFollow::new(alloc);
    Ok(put(&mut patterns, alloc, "p", "*", exclude)?.as_str() == want)
}

#[test]
fn a_bad_exclusion_is_refused(rt: HostRuntime) -> Result<(), Fail> {
    for line in EXCLUSIONS.lines() {
        assert!(rt; is_judged(rt.alloc(), line)?, "{line}");
    }
    Ok(())
}
