//! What no clause says: that memory suffices. The runs of calls and their answers come from a plain model with lists.
use log_model::{Docs, Verdict};
use std::alloc::{AllocError, Global};
use std::test::*;
use tab_ids::{DocId, ReqId};
use unload_check::{Check, UnloadCheck};

// Calls and their answers, for requests 1 to 3 and documents 1 to 6.
// b123 begins the check of request 1 with documents 2 and 3; a12p: document 2 answers prompt, a12l: leave; d23: documents 2 and 3 died;
// u1s: the user stays, u1l: leaves; e1 ends; o1 is the outcome: w waiting, p2 prompt of document 2, g go, s stay; n123: what it would be were documents 2 and 3 to die.
const RUNS: [(&str, &str); 46] = [
    (
        "b123 n13 n123 o1 a12p n13 n12 n123 o1 a13l n12 o1",
        "w g w p2 w g w p2 p2",
    ),
    (
        "b112 b223 a12p n11 n22 n223 d1 o1 n12 o2 n32",
        "p2 w g p2 p2 w -",
    ),
    ("b12 a12p u1s n12 u1l n12 e1 n12", "yes s no s -"),
    ("b1 o1", "g"),
    ("b123 o1 a13p a12p o1 u1s o1 u1l e1 o1", "w p2 yes s no -"),
    (
        "b123 a12p d2 o1 a13l o1 b24 a24p o2 d4 o2 u2l o2",
        "w g p4 p4 yes g",
    ),
    (
        "b13 b222 a13l a22p a22p a11l u1s a25p a22l a15l o1 a13p u3s a13p e3 a13p d4 a34p o1 o2 o3",
        "no g no g p2 -",
    ),
    (
        "b141 b26 a11l u1s a11p e2 a13l a33p d1 a22p d1 a22l o1 o3 o2 a34l u2s a14p o1 o2 o3",
        "no w - - no p4 - -",
    ),
    (
        "b116 b251 u2s d3 a16p a16p e1 a31p o1 a13l u3l u3s o2 a11l a21p a21p u1l a15p u2l o1 o2 o3",
        "no - no no w no no - w -",
    ),
    (
        "b1 b225 a11p a11l o3 a15p a11p a33p a31p a16p d6 u2l a22p a13p d1 a22p d54 o1 o2 o3",
        "- no g p2 -",
    ),
    (
        "b1 b261 a13p u1s o1 o2 u2l u3s a16l a14p a26l o1 u1l e1 u3s o1 o2 o3",
        "no g w no no g no no - w -",
    ),
    (
        "b1611 b2245 u2l e1 u1l a25p o1 u1l a32p a12p o1 a12p o1 u2s o1 o2 o3",
        "no no - no - - no - w -",
    ),
    (
        "b164 b22 a14p o2 a22p a14p a16p d6 a22p a16l a16p o3 a22p u2l u3s a14p a22l o1 o2 o3",
        "w - yes no p4 g -",
    ),
    (
        "b1266 b262 a34p d3 e2 u2s o1 a22p u3s d31 o1 a35l u3l u2l o1 o2 o3",
        "no w no w no no w - -",
    ),
    (
        "b15 b221 b353 u3s a13p u2s o3 o2 a21l e2 a25p d14 a15p e1 a15l o1 a25p a35p u1s o1 o2 o3",
        "no no w w - no - - w",
    ),
    (
        "b12 b243 a32l a23p a24p o3 a11p o2 a12l d45 a23p a32p o1 a23p a12p a12p a12p o1 o1 o2 o3",
        "- p3 g g g p3 -",
    ),
    (
        "b1 b263 u2l o3 a15p u1l u1s a26p a31p a13p e3 u1s e1 o1 o2 o3",
        "no - no no no - w -",
    ),
    (
        "b1 b241 e1 a13l e1 d32 b315 a21p a24p a31p a21p a31p o2 a21p o1 o2 o3",
        "p1 - p1 w",
    ),
    (
        "b135 b2613 e1 o3 e1 b113 d5 a21l e2 o3 u2l o2 a26p a22l u1s a13l o1 o2 o3",
        "- - no - no w - -",
    ),
    (
        "b11 b252 a16p a11p a11p a34p u1s a36p a11p a36p u1l u2l o1 a11p a11p o1 a25l a32p a11p o2 o1 o2 o3",
        "yes no no s s w s w -",
    ),
    (
        "b1153 b21 u1l o2 a11p u2s a33l u2s u1l a21p a13p a11p e2 a15p o1 u1l a11p a34p o1 o2 o3",
        "no w no no no p1 yes g - -",
    ),
    (
        "b122 b2512 o2 a34p u2s a22l a12p u1l a21p a22p o3 o1 a12p a12l a22l o1 o2 o3",
        "w no yes - g g w -",
    ),
    (
        "b126 b25 u1s u2l a25p a12p u1l u1l e1 u2s a25p a16p a13p a15p o1 a11p o1 a34p u1l a25l o1 o2 o3",
        "no no no no yes - - no - s -",
    ),
    (
        "b135 b26 a26l a26p d64 a13p u1s a23p a26p a26p a22p u2s o2 e1 a15p a15p a26p u1s a15p u1s o1 o2 o3",
        "no no g no no - g -",
    ),
    (
        "b113 b25 a34p a25p a32p a25p u2s u1l a34p e1 a12p a16p d44 u3s o1 o2 o3",
        "yes no no - s -",
    ),
    (
        "b1623 b2353 a35p a35p a32p a23p a13l u1s a16p o1 d6 o1 u1l a33p d25 a32p e2 u1s o1 o2 o3",
        "no w w no no g - -",
    ),
    (
        "b14 b26 a14p o2 o2 a14p a14l u1s e2 o1 a25p d4 d11 o1 o2 o3",
        "w w yes s s - -",
    ),
    (
        "b1 b2261 a15p a15p a21p a15p u1l u1l a34p a36p u1s a26l a22p a13p u1s o1 o2 o3",
        "no no no no g p1 -",
    ),
    (
        "b12 b23 o1 u1s a12p d6 o1 a23p a12p u2s a23p a23p a31p o1 a12p a11p o1 o2 o3",
        "w no p2 yes p2 p2 s -",
    ),
    (
        "b1 b245 o2 a33p d16 u1s a34p a25p u1l a11l u1s e2 a24p a14p a11p u1l a14p a15p a15p o2 o1 o2 o3",
        "w no no no no - g - -",
    ),
    (
        "b153 b2641 a15p u2s u2s a15p o1 a21p o3 a13p a13p a15p u1s e2 e1 u1s o1 o2 o3",
        "no no w - yes no - - -",
    ),
    (
        "b166 b25 b316 o1 e1 a25p e2 a22l a25p e3 a31l a13p a16p a13p d12 a35p b1 a21p a26l a11p o1 o2 o3",
        "w g - -",
    ),
    (
        "b14 b214 a21p a24p d5 a24p a24p o3 a33p a24p a14p e2 a14p a23p u2s a23l a14p o1 o2 o3",
        "- no p4 - -",
    ),
    (
        "b14 b242 u1s a14p d2 u1s a35p o2 o2 a22p a14p u2l a14l u1s o1 o2 o3",
        "no yes w w no no s w -",
    ),
    (
        "b1 b262 u1l a12p d35 a36p u1s a22l u1l a12p o1 a13l a13p a13p u3s d2 o1 o2 o3",
        "no no no g no g w -",
    ),
    (
        "b125 b265 a12p a32p a12l a25l a15p a12p b3532 a31l o1 u1s o2 d63 a26p d3 u2s o1 o2 o3",
        "p5 yes w no s g w",
    ),
    (
        "b145 b222 u3s u1s o2 u3s a22l a14p a15p a22p o1 b262 a33p a15p a15p a15p o1 o2 o3",
        "no no w no p4 p4 w -",
    ),
    (
        "b13 b262 o2 u1l a13p u1s a22p a13l a13p e1 a13p a12l a13l e2 d3 u2l o1 o2 o3",
        "w no yes no - - -",
    ),
    (
        "b1 b236 a11p d4 a13p e2 u1l e1 a21p o2 a16p o1 a15p a22l a22p u1s a13p a33p u1l e2 o1 o2 o3",
        "no - - no no - - -",
    ),
    (
        "b12 b222 a14p a12p a22l e2 a22l u3s a12p a22p a34l a25p a22p a12p d1 u2l a22l b13 u2l o1 o2 o3",
        "no no no w - -",
    ),
    (
        "b136 b23 a16p a16p a13p d11 u1s u1s a23p u3s a13l a16p e1 o1 b162 a12l a33p a23p a12p o1 o2 o3",
        "yes no no - w p3 -",
    ),
    (
        "b1 b224 a24p a15p u2s a11p o1 u1l a36p u2l o3 d1 o1 a35l b12 a24p a12l o1 o2 o3",
        "no g no no - g g w -",
    ),
    (
        "b13 b24 u2s u3l u1s a24l a13p u1s a13p a13l o3 a13p a13p u1l a13p a34p a32p u1l o1 o2 o3",
        "no no no yes - no no s g -",
    ),
    (
        "b1 b22 a14p a22p o1 o2 a14p a22p u1s a25p a31p a36p a34p o2 e3 u2l o2 a16p a35p o1 o2 o3",
        "g p2 no p2 yes g g g -",
    ),
    (
        "b1 b224 a35p o1 a35p u1l a16p a24l a31p a14p a14p u2s a15p o2 b331 o1 o2 o3",
        "g no no w g w w",
    ),
    (
        "b143 b24 a36l a34l a14p a24p o1 o1 b15 a15p a15p u1s a15p a35p a24p o1 o2 o3",
        "w w yes s p4 -",
    ),
];

#[test]
fn answers_as_lists_of_documents(rt: HostRuntime) -> Result<(), Fail> {
    for (calls, answers) in &RUNS {
        let said = run(rt.alloc(), calls)?;
        assert_eq!(rt; said.as_str(), *answers, "after {calls}");
    }
    Ok(())
}

/// Does the calls, and writes down their answers.
fn run(alloc: Global, calls: &str) -> Result<String, Fail> {
    let mut checks = UnloadCheck::new(alloc);
    let mut said = String::new(alloc);
    for call in calls.split_whitespace() {
        let answer = answer(alloc, &mut checks, call.as_bytes())?;
        if !said.is_empty() && !answer.is_empty() {
            said.push_str(" ")?;
        }
        said.push_str(answer.as_str())?;
    }
    Ok(said)
}

fn answer(alloc: Global, checks: &mut UnloadCheck, call: &[u8]) -> Result<String, Fail> {
    let req = ReqId(digit(call.get(1)));
    match call.first() {
        Some(b'b') => checks.begin(req, docs_from(alloc, call, 2)?)?,
        Some(b'a') => {
            let doc = DocId(u64::from(digit(call.get(2))));
            let verdict = if call.get(3) == Some(&b'p') {
                Verdict::Prompt
            } else {
                Verdict::Leave
            };
            checks.answer(req, doc, verdict);
        }
        Some(b'd') => checks.died(&docs_from(alloc, call, 1)?),
        Some(b'e') => checks.end(req),
        Some(b'n') => {
            let docs = docs_from(alloc, call, 2)?;
            return Ok(shown(alloc, checks.outcome_after(alloc, req, &docs)?)?);
        }
        Some(b'u') => {
            let up = checks.user(req, call.get(2) == Some(&b's'));
            return Ok(String::from_str(alloc, if up { "yes" } else { "no" })?);
        }
        _ => return Ok(shown(alloc, checks.outcome(req))?),
    }
    Ok(String::new(alloc))
}

fn digit(byte: Option<&u8>) -> u32 {
    byte.map_or(0, |digit| u32::from(digit.wrapping_sub(b'0')))
}

/// The documents that a call names from a place on.
fn docs_from(alloc: Global, call: &[u8], first: usize) -> Result<Docs, Fail> {
    let mut docs = Docs::new(alloc);
    for byte in call.iter().skip(first) {
        docs.push(DocId(u64::from(digit(Some(byte)))))?;
    }
    Ok(docs)
}

fn shown(alloc: Global, outcome: Option<Check>) -> Result<String, AllocError> {
    match outcome {
        Some(Check::Waiting) => String::from_str(alloc, "w"),
        Some(Check::Prompt(doc)) => format!(in alloc; "p{}", doc.0),
        Some(Check::Go) => String::from_str(alloc, "g"),
        Some(Check::Stay) => String::from_str(alloc, "s"),
        None => String::from_str(alloc, "-"),
    }
}
