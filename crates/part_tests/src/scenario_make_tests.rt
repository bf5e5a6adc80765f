//! What no clause says: that memory suffices.
use scenario_make::make;
use std::test::*;

// Worked by hand from the first seven draws of 1: 16838, 5758, 10113, 17515, 31051, 5627 and 23010.
const BEGINNING: &str =
    "session 1\nkeep 2\nsite http://b.test 2\nsite http://c.test 3\npage http://b.test/p1 0\nopen http://a.test/\nframe 0 1\nsettle\ngo 1\nsettle\nanswer 2 leave\nsettle\ngo 1\nsettle\nanswer 3 leave\nsettle\nload 1 auto http://b.test/p3\nsettle\nanswer 4 leave\nsettle\npush 1 s /p2\nsettle\nanswer 5 leave\nsettle\n";

#[test]
fn the_first_turns_of_a_scenario(rt: HostRuntime) -> Result<(), Fail> {
    let scenario = make(rt.alloc(), 1)?;
    let text = scenario.print(rt.alloc())?;
    let text = str::from_utf8(text.bytes())?;
    assert!(rt; text.starts_with(BEGINNING), "the text begins otherwise");
    Ok(())
}
