//! What no clause says: that memory suffices. The runs of calls and their answers come from a plain model with a list.
use address::Address;
use load_table::{Load, LoadTable, Phase};
use std::alloc::{AllocError, Global};
use std::test::*;
use tab_ids::{DocId, NavId, ReqId, StateId};

// Calls and their answers, for navigables 1 to 4 and documents 1 to 5; the loads are of requests 1, 2 and so on.
// b begins a load; p12 is that navigable 1's is populating with document 2; d is that a document was populated; r12 is that navigable 1's document was, and is 2; c cancels; o is the load of.
const RUNS: [(&str, &str); 35] = [
    ("b1 b2 p12 r13 r33 o1 o2 o3", "- - 1r3 2a -"),
    ("b1 b1 o1", "- 1 2a"),
    ("b1 b2 p12 d1 d2 o1 o2 c1 o1 o2", "- - - 1 1r2 2a 1 - 2a"),
    (
        "p42 b1 b2 b4 d4 p45 b4 d1 o3 p44 o1 b1 c4 o1 o2 o3 o4",
        "- - - - 3 - - 1a 1 4 5a 2a - -",
    ),
    (
        "p21 d5 b1 b4 b4 d5 p42 b1 o3 o4 o1 o2 o3 o4",
        "- - - 2 - 1 - 3p2 4a - - 3p2",
    ),
    (
        "p23 d5 o1 o2 b1 p23 b4 p34 b4 b1 b3 b4 b4 o1 o2 o3 o4",
        "- - - - - 2 1 - 3 6 4a - 5a 7a",
    ),
    (
        "p44 p15 b3 b1 d2 d2 c1 b2 p13 p33 b4 b1 o1 o2 o3 o4",
        "- - - - 2 - - - 5a 3a 1p3 4a",
    ),
    (
        "b3 d1 b2 d4 b1 o4 o4 o1 c4 d1 b1 b1 o1 o2 o3 o4",
        "- - - - - - - 3a - - 3 4 5a 2a 1a -",
    ),
    (
        "o1 p15 d5 b3 p21 p31 o3 b3 d3 o3 o1 o2 o3 o4",
        "- - - 1p1 1 - 2a - - 2a -",
    ),
    (
        "o3 o1 d4 c3 p45 p35 c3 b4 d3 b1 o3 b3 p33 o4 o1 o2 o3 o4",
        "- - - - - - - - - - 1a 2a - 3p3 1a",
    ),
    (
        "b2 o4 b2 d1 p12 c4 b1 b3 b4 o3 b2 p13 b1 o3 b1 o1 o2 o3 o4",
        "- - 1 - - - - - 4a 2 3 4a 7 8a 6a 4a 5a",
    ),
    (
        "b3 p15 b3 b2 p24 o1 d1 p23 o2 b1 o2 d3 b4 c1 o2 o1 o2 o3 o4",
        "- 1 - - - 3p3 - 3p3 3 - 4 3r3 - 3r3 2a 5a",
    ),
    (
        "b4 b2 b4 o3 p35 o4 o2 p42 p45 d2 c4 d1 p41 b3 p34 o1 o2 o3 o4",
        "- - 1 - 3a 2a - 3 - - - 2a 4p4 -",
    ),
    (
        "c2 b2 c2 c1 d5 o3 b3 d2 d5 p34 o1 o2 o3 o4",
        "- - 1 - - - - - - - - 2p4 -",
    ),
    (
        "o1 o3 b2 p43 d3 b3 d5 o3 p34 d1 d3 b1 o4 d2 d2 o1 o2 o3 o4",
        "- - - - - - 2a - - - - - - 3a 1a 2p4 -",
    ),
    (
        "b1 o3 b4 b1 b4 p31 b1 c3 b1 p31 p21 o1 d4 o4 p21 b3 p13 p21 o1 o2 o3 o4",
        "- - - 1 2 3 - 5 6a - 4a - 6p3 - 7a 4a",
    ),
    (
        "b4 o2 b4 p35 p14 b2 b4 o3 o1 p44 c3 b2 b2 p25 o1 o2 o3 o4",
        "- - 1 - 2 - - - 3 5 - 6p5 - 4p4",
    ),
    (
        "b4 b3 c3 d5 b2 p13 p33 b1 o4 c1 p21 b3 o4 o1 o2 o3 o4",
        "- - 2 - - - 1a 4 - 1a - 3p1 5a 1a",
    ),
    (
        "c2 b4 b1 b1 p34 o3 c2 o3 d5 b1 d4 o1 o2 o3 o4",
        "- - - 2 - - - - 3 - 4a - - 1a",
    ),
    (
        "d1 c2 o3 d5 b4 b3 o3 d4 c3 b4 p24 d1 o3 b4 d2 b4 c2 d4 o1 o2 o3 o4",
        "- - - - - - 2a - 2 1 - - 3 - 4 - - - - - 5a",
    ),
    (
        "d3 b4 b1 o3 p11 b4 c4 o2 p24 d5 o1 o2 o3 o4",
        "- - - - 1 3 - - 2p1 - - -",
    ),
    (
        "c1 d2 b2 d3 c2 d3 p12 d5 p32 b4 c1 b1 o2 p41 d1 p44 o1 o2 o3 o4",
        "- - - - 1 - - - - - - 2 3a - - 2p4",
    ),
    (
        "p42 p15 o1 d4 b3 b2 b4 d1 o1 b2 p31 b2 b3 o4 b1 p32 o1 o2 o3 o4",
        "- - - - - - - 2 4 1 3a - 7a 5a 6p2 3a",
    ),
    (
        "p21 p35 p25 p32 b3 d5 c3 b3 c2 b1 c2 p43 p32 p44 c2 o3 d5 o1 o1 o2 o3 o4",
        "- - 1 - - - - - 2p2 - 3a 3a - 2p2 -",
    ),
    (
        "d3 b1 d5 d1 o1 o1 p24 d4 d4 o4 o1 d4 d5 o1 o2 o1 o2 o3 o4",
        "- - - - 1a 1a - - - 1a - - 1a - 1a - - -",
    ),
    (
        "b4 p23 d5 b3 p45 p43 b4 b2 b2 b1 c2 b2 p12 o4 p15 o3 o2 o1 o1 o2 o3 o4",
        "- - - 1 - 4 - 5 - 3a 2a 7a 6p5 6p5 7a 2a 3a",
    ),
    (
        "p32 o1 p11 d3 p21 p43 p42 p41 b2 b4 d2 p33 p11 b4 o1 o2 o3 o4",
        "- - - - - 2 - 1a - 3a",
    ),
    (
        "b1 d2 d1 b3 b3 p35 p45 b2 b2 p11 p34 o1 o3 o1 o2 o3 o4",
        "- - - - 2 - 4 1p1 3p4 1p1 5a 3p4 -",
    ),
    (
        "d4 o4 b4 p34 p34 d2 b3 o1 b1 c2 d3 b1 d3 d5 d3 o1 o2 o3 o4",
        "- - - - - - - - - 3 - - - 4a - 2a 1a",
    ),
    (
        "b4 b1 o2 d5 b2 b2 d2 c2 p45 p12 c1 b2 o4 p31 o1 o2 o3 o4",
        "- - - - - 3 - 4 2 - 1p5 - 5a - 1p5",
    ),
    (
        "b3 p31 p31 d5 b4 o4 p45 o4 p35 p31 o1 o2 o3 o4",
        "- - - 2a 2p5 - - 1p1 2p5",
    ),
    (
        "o2 p21 p31 b4 c2 c4 b2 p33 b3 b4 b4 c2 b1 o1 o2 o3 o4",
        "- - - 1 - - - 4 2 - 6a - 3a 5a",
    ),
    (
        "d1 p24 o3 p42 b4 p31 p23 d1 d1 c4 b3 p22 p32 b1 o1 o2 o3 o4",
        "- - - - - 1 - - 3a - 2p2 -",
    ),
    (
        "d5 c1 b2 b2 o2 p23 p15 p12 c4 p22 c4 b4 c3 b1 d4 o1 o2 o3 o4",
        "- - - 1 2a - - - - - - 4a 2p2 - 3a",
    ),
    (
        "b1 b4 p15 p15 b4 p11 d4 p34 o4 p31 d2 o1 o2 o3 o4",
        "- - 2 - 3a - 1p1 - - 3a",
    ),
];

#[test]
fn answers_as_a_list_of_loads(rt: HostRuntime) -> Result<(), Fail> {
    for (calls, answers) in &RUNS {
        let said = run(rt.alloc(), calls)?;
        assert_eq!(rt; said.as_str(), *answers, "after {calls}");
    }
    Ok(())
}

/// Does the calls, and writes down their answers.
fn run(alloc: Global, calls: &str) -> Result<String, Fail> {
    let mut table = LoadTable::new(alloc);
    let mut said = String::new(alloc);
    let mut begun = 0u32;
    for call in calls.split_whitespace() {
        if call.starts_with("b") {
            begun = begun.wrapping_add(1);
        }
        let answer = answer(alloc, &mut table, call, ReqId(begun))?;
        if !said.is_empty() && !answer.is_empty() {
            said.push_str(" ")?;
        }
        said.push_str(answer.as_str())?;
    }
    Ok(said)
}

fn answer(alloc: Global, table: &mut LoadTable, call: &str, req: ReqId) -> Result<String, Fail> {
    let bytes = call.as_bytes();
    let number = digit(bytes.get(1));
    let nav = NavId(number);
    let text = match bytes.first() {
        Some(b'b') => {
            let load = asking(alloc, req, nav)?;
            shown(alloc, table.begin(load)?)?
        }
        Some(b'p') => {
            table.populating(nav, DocId(u64::from(digit(bytes.get(2)))));
            String::new(alloc)
        }
        Some(b'r') => {
            table.ready(nav, DocId(u64::from(digit(bytes.get(2)))));
            String::new(alloc)
        }
        Some(b'd') => shown(alloc, table.populated(DocId(u64::from(number))))?,
        Some(b'c') => shown(alloc, table.cancel(nav))?,
        _ => told(alloc, table.of(nav))?,
    };
    Ok(text)
}

fn digit(byte: Option<&u8>) -> u32 {
    byte.map_or(0, |digit| u32::from(digit.wrapping_sub(b'0')))
}

fn asking(alloc: Global, req: ReqId, nav: NavId) -> Result<Load, Fail> {
    let address = Address::read(alloc, b"http://a.test/")?;
    Ok(Load {
        req,
        nav,
        address,
        replace: false,
        state: StateId(1),
        phase: Phase::Asking,
    })
}

fn shown(alloc: Global, req: Option<ReqId>) -> Result<String, AllocError> {
    match req {
        Some(req) => format!(in alloc; "{}", req.0),
        None => String::from_str(alloc, "-"),
    }
}

fn told(alloc: Global, load: Option<&Load>) -> Result<String, AllocError> {
    match load {
        Some(load) => match load.phase {
            Phase::Asking => format!(in alloc; "{}a", load.req.0),
            Phase::Populating(doc) => format!(in alloc; "{}p{}", load.req.0, doc.0),
            Phase::Ready(doc) => format!(in alloc; "{}r{}", load.req.0, doc.0),
        },
        None => String::from_str(alloc, "-"),
    }
}
