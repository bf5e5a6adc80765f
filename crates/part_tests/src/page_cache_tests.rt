//! What no clause says: that memory suffices. The runs of calls and their answers come from a plain model with a list.
use page_cache::PageCache;
use std::alloc::{AllocError, Global};
use std::test::*;
use tab_ids::StateId;

// How many are kept, calls and their answers, for states 1 to 6: l leaves, t takes, f forgets, o is the oldest.
const RUNS: [(u32, &str, &str); 34] = [
    (2, "l1 l2 l3 o", "- - 1 2"),
    (2, "l1 l2 l1 l3", "- - - 2"),
    (
        1,
        "t2 l6 l1 l2 o t6 l4 f4 t4 l4 l4 l1 l5 t4 t6 o t5 o",
        "no - 6 1 2 no 2 yes no - - 4 1 no no 5 yes -",
    ),
    (
        0,
        "l1 t5 t1 l3 l6 l4 o l5 l5 l4 l2 f6 f3 o o",
        "1 no no 3 6 4 - 5 5 4 2 no no - -",
    ),
    (
        2,
        "l5 l5 l6 l6 f5 l3 l3 o o l5 o l2 o t5 o t2 o",
        "- - - - yes - - 6 6 6 3 3 5 yes 2 yes -",
    ),
    (
        0,
        "l2 l1 t3 t3 t2 t1 l6 l2 l3 l1 t3 l5 t2 l4 o",
        "2 1 no no no no 6 2 3 1 no 5 no 4 -",
    ),
    (
        3,
        "t4 l5 l3 l1 l6 l5 o l5 f6 l5 l2 l2 l4 l6 l3 l3 l6 o t4 o t3 o t6 o",
        "no - - - 5 3 1 - yes - - - 1 5 2 - - 4 yes 3 yes 6 yes -",
    ),
    (
        2,
        "l5 l5 l2 l4 f1 l2 l4 f2 t1 l5 f6 l6 f5 o t6 o",
        "- - - 5 no - - yes no - no 4 yes 6 yes -",
    ),
    (
        4,
        "f5 t3 f2 l2 l4 l1 l6 l6 l6 l4 o o t2 o t1 o t6 o t4 o",
        "no no no - - - - - - - 2 2 yes 1 yes 6 yes 4 yes -",
    ),
    (
        4,
        "l5 l3 o o l1 l5 l1 l4 l6 l1 o l6 l5 l6 l3 l2 f3 t5 o t6 o t2 o",
        "- - 5 5 - - - - 3 - 5 - - - 4 1 yes yes 6 yes 2 yes -",
    ),
    (
        2,
        "l4 t6 o l6 l6 t2 f5 o l2 l4 l4 l5 l3 o t5 o t3 o",
        "- no 4 - - no no 4 4 6 - 2 4 5 yes 3 yes -",
    ),
    (
        2,
        "l3 t2 l2 l5 f2 l5 o l4 l1 t1 l5 t1 l1 l6 l1 l4 f6 l5 o t4 o t5 o",
        "- no - 3 yes - 5 - 5 yes - no 4 5 - 6 no 1 4 yes 5 yes -",
    ),
    (
        0,
        "l6 l3 l1 l6 l1 l6 l5 l2 l6 l3 l5 l6 o",
        "6 3 1 6 1 6 5 2 6 3 5 6 -",
    ),
    (
        3,
        "t2 l3 t2 t6 l1 o l3 l3 l1 l1 o l2 o l3 l6 o t2 o t3 o t6 o",
        "no - no no - 3 - - - - 3 - 3 - 1 2 yes 3 yes 6 yes -",
    ),
    (
        3,
        "l5 l2 l2 l2 t2 l2 f1 f5 l4 t5 l6 f3 o l3 f2 l4 o o t6 o t3 o t4 o",
        "- - - - yes - no yes - no - no 2 2 no - 6 6 yes 3 yes 4 yes -",
    ),
    (
        3,
        "l5 o l4 f1 l4 l1 l5 l3 t6 l5 l6 l1 l4 l4 o t6 o t1 o t4 o",
        "- 5 - no - - - 4 no - 1 3 5 - 6 yes 1 yes 4 yes -",
    ),
    (
        3,
        "l5 l5 l3 l3 l4 l6 l4 l5 l3 t3 l6 o t4 o t5 o t6 o",
        "- - - - - 5 - 3 6 yes - 4 yes 5 yes 6 yes -",
    ),
    (
        1,
        "l1 l5 l4 l4 o l2 l1 f6 l5 l4 l3 t4 f6 l4 f3 o t4 o",
        "- 1 5 - 4 4 2 no 1 5 4 no no 3 no 4 yes -",
    ),
    (
        1,
        "l6 f3 f5 t2 o l2 o l5 l2 l6 t3 o t6 o",
        "- no no no 6 6 2 2 5 2 no 6 yes -",
    ),
    (
        1,
        "l1 f6 l3 l1 l6 l6 l5 l6 l1 l2 l3 o t3 o",
        "- no 1 3 1 - 6 5 6 1 2 3 yes -",
    ),
    (
        0,
        "l1 l5 o f6 t1 t5 l1 l6 l5 t6 l3 t6 l1 l1 f3 l2 o",
        "1 5 - no no no 1 6 5 no 3 no 1 1 no 2 -",
    ),
    (
        0,
        "l3 l5 l5 l4 l6 l2 l6 f2 l2 l4 l5 o f4 l5 l5 l4 o",
        "3 5 5 4 6 2 6 no 2 4 5 - no 5 5 4 -",
    ),
    (
        0,
        "o l5 l2 t6 l3 l5 l1 f3 l6 l6 t1 l4 l3 o",
        "- 5 2 no 3 5 1 no 6 6 no 4 3 -",
    ),
    (
        0,
        "t6 f4 l4 l5 l1 l6 o l6 f5 l5 l1 o",
        "no no 4 5 1 6 - 6 no 5 1 -",
    ),
    (
        0,
        "l1 o l2 l1 l3 t6 l4 l4 l6 l4 f5 l5 l5 o t4 o l1 o",
        "1 - 2 1 3 no 4 4 6 4 no 5 5 - no - 1 -",
    ),
    (
        3,
        "l3 l5 o l4 o l2 l3 o t5 l1 l5 f4 l6 l4 o l6 l1 l4 o t6 o t1 o t4 o",
        "- - 3 - 3 3 5 4 no 4 2 no 3 1 5 - 5 - 6 yes 1 yes 4 yes -",
    ),
    (
        0,
        "l2 l6 f3 l6 l4 l4 l5 l3 l5 o l5 l4 l3 l1 l2 f4 f1 l1 o",
        "2 6 no 6 4 4 5 3 5 - 5 4 3 1 2 no no 1 -",
    ),
    (
        2,
        "t4 l6 o t5 l4 f6 t2 l6 l2 f2 l5 o o t6 o t5 o",
        "no - 6 no - yes no - 4 yes - 6 6 yes 5 yes -",
    ),
    (
        1,
        "o l3 l2 o o l2 l4 l5 l2 l1 l6 l4 l5 o t5 o",
        "- - 3 2 2 - 2 4 5 2 1 6 4 5 yes -",
    ),
    (
        2,
        "f6 l1 t4 f4 l4 l3 l5 l1 o l6 t1 o t6 o",
        "no - no no - 1 4 3 5 5 yes 6 yes -",
    ),
    (
        4,
        "l1 l5 l5 f1 o l6 l3 l2 l3 o o l2 l5 l3 o t6 o t2 o t5 o t3 o",
        "- - - yes 5 - - - - 5 5 - - - 6 yes 2 yes 5 yes 3 yes -",
    ),
    (
        0,
        "l2 l1 t3 l5 l2 l3 l5 t5 l5 l6 l2 l6 l6 l5 l5 l5 o",
        "2 1 no 5 2 3 5 no 5 6 2 6 6 5 5 5 -",
    ),
    (
        1,
        "o l1 l6 l6 o l3 l4 l3 l6 l3 f4 l5 o l5 o t5 o",
        "- - 1 - 6 6 3 4 3 6 no 3 5 - 5 yes -",
    ),
    (
        2,
        "l3 o l1 l5 f6 t6 o l6 l2 o o t6 o t2 o",
        "- 3 - 3 no no 1 1 5 6 6 yes 2 yes -",
    ),
];

#[test]
fn answers_as_a_list_cut_at_keep(rt: HostRuntime) -> Result<(), Fail> {
    for (keep, calls, answers) in &RUNS {
        let said = run(rt.alloc(), *keep, calls)?;
        assert_eq!(rt; said.as_str(), *answers, "after {calls} with {keep}");
    }
    Ok(())
}

/// Does the calls, and writes down their answers.
fn run(alloc: Global, keep: u32, calls: &str) -> Result<String, Fail> {
    let mut cache = PageCache::new(alloc, keep)?;
    let mut said = String::new(alloc);
    for call in calls.split_whitespace() {
        if !said.is_empty() {
            said.push_str(" ")?;
        }
        let answer = answer(alloc, &mut cache, call)?;
        said.push_str(answer.as_str())?;
    }
    Ok(said)
}

fn answer(alloc: Global, cache: &mut PageCache, call: &str) -> Result<String, Fail> {
    let bytes = call.as_bytes();
    let number = bytes
        .get(1)
        .map_or(0, |digit| u32::from(digit.wrapping_sub(b'0')));
    let state = StateId(number);
    let text = match bytes.first() {
        Some(b'l') => shown(alloc, cache.leave(state)?)?,
        Some(b't') => told(alloc, cache.take(state))?,
        Some(b'f') => told(alloc, cache.forget(state))?,
        _ => shown(alloc, cache.oldest())?,
    };
    Ok(text)
}

fn shown(alloc: Global, state: Option<StateId>) -> Result<String, AllocError> {
    match state {
        Some(state) => format!(in alloc; "{}", state.0),
        None => String::from_str(alloc, "-"),
    }
}

fn told(alloc: Global, there: bool) -> Result<String, AllocError> {
    String::from_str(alloc, if there { "yes" } else { "no" })
}
