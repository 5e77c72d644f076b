//! Tables of calls: a line is the name of a call, its arguments, and behind a bar what it comes to.
use ccr_journal::CopyStatuses;
use ccr_policy::Picks;
use std::alloc::{AllocError, Global};
use std::fmt::{Debug, Display};

/// The word of a line at this place, empty where there are not so many.
pub fn word(line: &str, at: usize) -> &str {
    line.split(' ').nth(at).unwrap_or("")
}

/// The number at this place, 0 where there is none.
pub fn number(line: &str, at: usize) -> u64 {
    word(line, at).parse().unwrap_or(0)
}

fn wanted(line: &str) -> &str {
    match line.split_once(" | ") {
        Some((_, want)) => want,
        None => "",
    }
}

/// Whether what stands behind the bar is how a value is printed for debugging.
pub fn is_told(alloc: Global, told: &impl Debug, line: &str) -> bool {
    match format!(in alloc; "{told:?}") {
        Ok(text) => text.as_str() == wanted(line),
        Err(_) => false,
    }
}

/// Whether what stands behind the bar is how a fault is printed.
pub fn is_refused(alloc: Global, fault: &impl Display, line: &str) -> bool {
    match format!(in alloc; "{fault}") {
        Ok(text) => text.as_str() == wanted(line),
        Err(_) => false,
    }
}

/// Whether a call came to what stands behind the bar.
pub fn comes_to<T: Debug + Drop, E: Display + Drop>(
    alloc: Global,
    outcome: Result<T, E>,
    line: &str,
) -> bool {
    match outcome {
        Ok(told) => is_told(alloc, &told, line),
        Err(fault) => is_refused(alloc, &fault, line),
    }
}

/// The first part of what a copy holds.
pub fn first_part(alloc: Global) -> Result<Picks, AllocError> {
    let mut places = Vec::new(alloc);
    places.push(0)?;
    Ok(Picks::of(places))
}

/// Whether the copies stand so: the number, the count, the global count, the floor and the held operations of each.
pub fn stands(alloc: Global, statuses: Result<CopyStatuses, AllocError>, line: &str) -> bool {
    match statuses {
        Ok(statuses) => are_standing(alloc, &statuses, line),
        Err(_) => false,
    }
}

fn are_standing(alloc: Global, statuses: &CopyStatuses, line: &str) -> bool {
    let mut list = Vec::new(alloc);
    for status in statuses.as_slice() {
        let one = (
            status.copy,
            status.count,
            status.global,
            status.floor,
            status.held,
        );
        if list.push(one).is_err() {
            return false;
        }
    }
    is_told(alloc, &list.as_slice(), line)
}
