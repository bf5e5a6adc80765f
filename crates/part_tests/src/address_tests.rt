//! Addresses that are read, resolved and compared with ample memory.
//!
//! The rows follow the URL Standard by hand.
use address::{Address, AddressError, Text, rewritable, same_base};
use std::alloc::Global;
use std::test::Fail;

// The type can be shared by threads.
fn is_shared<T: Send + Sync>(_: &T) {}

fn agrees(answer: Result<Address, AddressError>, want: Result<&str, AddressError>) -> bool {
    match (answer, want) {
        (Ok(address), Ok(text)) => address.text() == text.as_bytes(),
        (Err(error), Err(wanted)) => error == wanted,
        (Ok(_), Err(_)) | (Err(_), Ok(_)) => false,
    }
}

#[test]
fn a_text_is_read_or_refused_for_the_first_reason(rt: HostRuntime) {
    let alloc = rt.alloc();
    let rows = [
        ("HTTP://A.test", Ok("http://a.test/")),
        ("https://a.test:443/x?q#f", Ok("https://a.test/x?q#f")),
        ("about:blank#x", Ok("about:blank#x")),
        ("a", Err(AddressError::NotUrl)),
        ("http://a.test/\u{e9}", Ok("http://a.test/%C3%A9")),
        ("ftp://a.test/", Err(AddressError::BadScheme)),
        ("ftp://u@a.test/", Err(AddressError::BadScheme)),
        ("about:blank?q", Err(AddressError::BadScheme)),
        ("http://u@a.test/", Err(AddressError::HasUser)),
        ("http://:p@a.test/", Err(AddressError::HasUser)),
    ];
    for (text, want) in rows {
        assert!(rt;
            agrees(Address::read(alloc, text.as_bytes()), want),
            "{text}"
        );
    }
    let broken = Address::read(alloc, b"http://a.test/\xff");
    assert!(rt; agrees(broken, Err(AddressError::NotUrl)));
}

#[test]
fn a_long_text_is_refused(rt: HostRuntime) -> Result<(), Fail> {
    let alloc = rt.alloc();
    let mut text = Vec::from_slice(alloc, b"http://a.test/")?;
    text.resize(2048, b'a')?;
    assert!(rt; Address::read(alloc, &text).is_ok());
    text.push(b'a')?;
    assert!(rt; agrees(Address::read(alloc, &text), Err(AddressError::TooLong)));
    // 1,014 bytes that are written as 3,012.
    let mut spaces = Vec::from_slice(alloc, b"http://a.test/")?;
    spaces.resize(1013, b' ')?;
    spaces.push(b'x')?;
    assert!(rt; agrees(Address::read(alloc, &spaces), Err(AddressError::TooLong)));
    let short = Address::read(alloc, b"http://a.test/")?;
    assert!(rt; agrees(short.with_fragment(&text), Err(AddressError::TooLong)));
    assert!(rt; agrees(short.resolve(&text), Err(AddressError::TooLong)));
    Ok(())
}

#[test]
fn a_reference_and_a_fragment_change_an_address(rt: HostRuntime) -> Result<(), Fail> {
    let alloc = rt.alloc();
    let references = [
        ("http://a.test/x/y", "../z?q", Ok("http://a.test/z?q")),
        ("http://a.test/x/y", "//b.test", Ok("http://b.test/")),
        ("http://a.test/x/y", "", Ok("http://a.test/x/y")),
        (
            "http://a.test/x",
            "ftp://b.test",
            Err(AddressError::BadScheme),
        ),
        ("http://a.test/x", "//u@b.test", Err(AddressError::HasUser)),
        ("about:blank", "x", Err(AddressError::NotUrl)),
        ("about:blank", "#x", Ok("about:blank#x")),
    ];
    for (base, reference, want) in references {
        let base = Address::read(alloc, base.as_bytes())?;
        assert!(rt;
            agrees(base.resolve(reference.as_bytes()), want),
            "{reference}"
        );
    }
    let fragments = [
        ("http://a.test/", "f", "http://a.test/#f"),
        ("http://a.test/?q#old", "a b", "http://a.test/?q#a%20b"),
        ("about:blank", "", "about:blank#"),
    ];
    for (old, fragment, want) in fragments {
        let old = Address::read(alloc, old.as_bytes())?;
        assert!(rt;
            agrees(old.with_fragment(fragment.as_bytes()), Ok(want)),
            "{want}"
        );
        assert!(rt; agrees(old.with_fragment(b"\xff"), Err(AddressError::NotUrl)));
    }
    Ok(())
}

fn memo(alloc: Global) -> Result<Text, Fail> {
    Ok(Text::of(alloc, b"memo")?.copy()?)
}

fn with_all_parts(alloc: Global) -> Result<Address, Fail> {
    Ok(Address::read(alloc, b"http://a.test:81/x?q#f")?.copy()?)
}

#[test]
fn readers_take_an_address_apart(rt: HostRuntime) -> Result<(), Fail> {
    let text = memo(rt.alloc())?;
    let address = with_all_parts(rt.alloc())?;
    let blank = Address::blank(rt.alloc())?;
    is_shared(&text);
    is_shared(&address);
    let rows = [
        (address.base(), "http://a.test:81/x?q"),
        (address.origin(), "http://a.test:81"),
        (blank.text(), "about:blank"),
        (blank.base(), "about:blank"),
        (blank.origin(), ""),
        (text.bytes(), "memo"),
    ];
    for (bytes, want) in rows {
        assert_eq!(rt; bytes, want.as_bytes());
    }
    assert_eq!(rt; address.fragment(), Some("f".as_bytes()));
    assert_eq!(rt; blank.fragment(), None);
    Ok(())
}

#[test]
fn two_addresses_are_compared(rt: HostRuntime) -> Result<(), Fail> {
    // Two addresses, whether the first may be rewritten to the second, and whether they are the
    // same but for their fragments.
    let rows = [
        ("http://a.test/", "http://a.test:81/", false, false),
        ("http://a.test/", "https://a.test/", false, false),
        ("http://a.test/", "http://a.test/x?y#z", true, false),
        ("http://a.test/#y", "http://a.test/#z", true, true),
        ("about:blank", "about:blank#x", true, true),
        ("about:blank", "http://a.test/", false, false),
    ];
    for (from, to, may, same) in rows {
        let a = Address::read(rt.alloc(), from.as_bytes())?;
        let b = Address::read(rt.alloc(), to.as_bytes())?;
        assert_eq!(rt; rewritable(&a, &b), may, "{from} {to}");
        assert_eq!(rt; same_base(&a, &b), same, "{from} {to}");
    }
    Ok(())
}

#[test]
fn a_part_of_a_text_is_what_stands_there(rt: HostRuntime) -> Result<(), Fail> {
    let line = Text::from_vec(Vec::from_slice(rt.alloc(), b"push 0 memo")?)?;
    let memo = line.part(7, 11)?;
    assert_eq!(rt; memo.bytes(), b"memo".as_slice());
    assert_eq!(rt; memo.part(1, 3)?.copy()?.bytes(), b"em".as_slice());
    Ok(())
}
