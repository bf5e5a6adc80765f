//! What no clause says: that memory suffices. The runs of calls and their answers come from a plain model with two lists.
use log_model::{Made, What};
use move_queue::{MoveQueue, QueueStep};
use std::alloc::{AllocError, Global};
use std::test::*;
use tab_ids::{DocId, Epoch, NavId, ReqId};

// Calls and their answers, for requests 1 to 4: t, r and l push a traversal, a reload and a ready load; b puts a traversal back; n is next, w withdraws, p parks, u unparks.
const RUNS: [(&str, &str); 35] = [
    ("t1 b2 n n n", "t2 t1 -"),
    ("b1 b2 r3 w1 n b4 n n n", "yes t2 t4 r3 -"),
    ("t1 r2 n n n", "t1 r2 -"),
    (
        "w4 r2 t1 r2 u w1 p4 p4 u w1 u n n n u",
        "no - yes 4 no 4 r2 r2 - -",
    ),
    (
        "n u r3 r1 w4 r1 w2 t4 n n n n n u",
        "- - no no r3 r1 r1 t4 - -",
    ),
    (
        "l2 t1 u r4 p3 w4 r2 r3 w4 u n w3 u u w2 t3 n n n u",
        "- yes no 3 l2 yes - - yes t1 t3 - -",
    ),
    (
        "n t4 n n l4 r2 t2 l3 r1 w3 l4 n p4 n n n n n u u",
        "- t4 - yes l4 r2 t2 r1 l4 - 4 -",
    ),
    (
        "p1 t3 r1 t1 u r4 r1 l1 r3 w1 n w3 t4 l1 n n n n n n n u",
        "1 yes t3 yes t1 r4 r1 l1 t4 l1 - -",
    ),
    ("l2 w4 p1 t2 n u w1 r4 n n n u", "no l2 1 no t2 r4 - -"),
    (
        "p1 u w4 n l1 p1 r2 t1 w4 u n n n n u",
        "1 no - no 1 l1 r2 t1 - -",
    ),
    (
        "l2 w4 u t3 n w4 n t4 w3 u w3 r2 u w3 l3 w4 n n n u",
        "no - l2 no t3 no - no - no yes r2 l3 - -",
    ),
    (
        "w3 p2 u n t4 n r3 n u n n n u n u w4 n u",
        "no 2 - t4 r3 - - - - - - - no - -",
    ),
    (
        "r4 t2 p1 r1 l3 t1 p4 n r3 n n n n n n u u u",
        "r4 t2 r1 l3 t1 r3 - 1 4 -",
    ),
    ("w1 t2 w1 n w2 n w1 u w4 n u", "no no t2 no - no - no - -"),
    (
        "l3 w2 p1 r2 t3 l3 l1 t1 l2 w3 n n n n n n n u u",
        "no yes r2 t3 l3 l1 t1 l2 - 1 -",
    ),
    (
        "u r1 r2 n l4 l2 r4 t4 n p3 u n n n n n u",
        "- r1 r2 3 l4 l2 r4 t4 - -",
    ),
    (
        "l3 n r3 u l4 r4 u n t1 w3 w4 t2 t1 l4 r4 r3 n n n n n n n n u",
        "l3 - - r3 no yes r4 t1 t2 t1 l4 r4 r3 - -",
    ),
    (
        "t3 w1 w1 u n w3 w4 w1 r3 t1 n u u n n p3 n u u",
        "no no - t3 no no no r3 - - t1 - - 3 -",
    ),
    (
        "p3 n u t4 p3 r1 w4 w4 w2 u r1 t3 n n n n u",
        "- 3 yes no no 3 r1 r1 t3 - -",
    ),
    (
        "r4 n r1 t4 l3 w1 t1 r3 n t2 w3 n n n n u",
        "r4 yes t4 yes t1 r3 t2 - -",
    ),
    (
        "p2 t1 u u r4 u t2 w4 t3 n n n n u",
        "2 - - yes t1 t2 t3 - -",
    ),
    (
        "l1 n u l2 t4 n n t4 l2 l1 u w2 t4 w4 n n n u",
        "l1 - l2 t4 - yes yes l1 t4 - -",
    ),
    (
        "w2 l4 r2 u l2 n l3 r3 t4 w2 n t3 w3 n r4 n n n n u",
        "no - l4 yes l2 yes r3 t4 t3 r4 - -",
    ),
    (
        "p1 u l1 t3 w4 r2 r1 p3 t1 l2 t1 w3 w3 u u n n n n n n n u",
        "1 no yes no 3 - l1 r2 r1 t1 l2 t1 - -",
    ),
    ("u n u p4 l1 u w3 w1 n u", "- - - 4 no yes - -"),
    (
        "l3 l3 w1 w3 t2 u n u t3 t2 w1 r2 l4 w2 l4 n n n n n n u",
        "no yes - l3 - no yes t3 t2 r2 l4 l4 - -",
    ),
    (
        "w1 u n u t1 p3 n r1 l4 p4 r2 n n n n u u u",
        "no - - - t1 r1 l4 r2 - 3 4 -",
    ),
    (
        "w2 w4 w4 r4 u r1 l2 p2 n n n n u u",
        "no no no - r4 r1 l2 - 2 -",
    ),
    (
        "r2 u w3 t2 u p3 r2 w1 r2 n l2 u n n n n n u",
        "- no - no r2 3 t2 r2 r2 l2 - -",
    ),
    (
        "w1 p3 t4 p4 p3 u n r1 w4 t3 w1 l1 u u t1 w2 n n n n u",
        "no 3 t4 no yes 4 3 no t3 l1 t1 - -",
    ),
    (
        "w3 u t2 l2 n p1 l1 r4 w2 u n n n u",
        "no - t2 yes 1 l1 r4 - -",
    ),
    (
        "w4 u w3 l1 n u n n t2 t2 w3 p3 w3 n n n u u",
        "no - no l1 - - - no no t2 t2 - 3 -",
    ),
    (
        "w4 p2 u t3 t3 w1 n t4 w2 t1 n n n n u",
        "no 2 no t3 no t3 t4 t1 - -",
    ),
    (
        "t3 w2 w2 u n u u w3 p4 w1 n u u",
        "no no - t3 - - no no - 4 -",
    ),
    (
        "l2 l4 p3 n w1 n p4 n w1 u l3 l2 n t4 u r2 n n n n u",
        "l2 no l4 - no 3 l3 4 l2 t4 r2 - -",
    ),
];

#[test]
fn answers_as_two_lists(rt: HostRuntime) -> Result<(), Fail> {
    for (calls, answers) in &RUNS {
        let said = run(rt.alloc(), calls)?;
        assert_eq!(rt; said.as_str(), *answers, "after {calls}");
    }
    Ok(())
}

/// Does the calls, and writes down their answers.
fn run(alloc: Global, calls: &str) -> Result<String, Fail> {
    let mut queue = MoveQueue::new(alloc);
    let mut said = String::new(alloc);
    for call in calls.split_whitespace() {
        let answer = answer(alloc, &mut queue, call)?;
        if !said.is_empty() && !answer.is_empty() {
            said.push_str(" ")?;
        }
        said.push_str(answer.as_str())?;
    }
    Ok(said)
}

fn answer(alloc: Global, queue: &mut MoveQueue, call: &str) -> Result<String, Fail> {
    let bytes = call.as_bytes();
    let number = bytes
        .get(1)
        .map_or(0, |digit| u32::from(digit.wrapping_sub(b'0')));
    let req = ReqId(number);
    match bytes.first() {
        Some(b't') => queue.push(QueueStep::Traverse(req, -1))?,
        Some(b'r') => queue.push(QueueStep::Reload(req, NavId(0)))?,
        Some(b'l') => queue.push(QueueStep::Ready(req, NavId(0)))?,
        Some(b'b') => queue.put_back(QueueStep::Traverse(req, -1))?,
        Some(b'p') => queue.park(Made {
            req,
            doc: DocId(1),
            epoch: Epoch(1),
            what: What::Edit,
        })?,
        Some(b'n') => return Ok(shown(alloc, queue.next())?),
        Some(b'w') => {
            let text = if queue.withdraw(req) { "yes" } else { "no" };
            return Ok(String::from_str(alloc, text)?);
        }
        _ => {
            return match queue.unpark() {
                Some(made) => Ok(format!(in alloc; "{}", made.req.0)?),
                None => Ok(String::from_str(alloc, "-")?),
            };
        }
    }
    Ok(String::new(alloc))
}

fn shown(alloc: Global, step: Option<QueueStep>) -> Result<String, AllocError> {
    match step {
        Some(QueueStep::Traverse(req, _)) => format!(in alloc; "t{}", req.0),
        Some(QueueStep::Reload(req, _)) => format!(in alloc; "r{}", req.0),
        Some(QueueStep::Ready(req, _)) => format!(in alloc; "l{}", req.0),
        None => String::from_str(alloc, "-"),
    }
}
