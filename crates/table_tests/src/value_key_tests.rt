//! Keys and matches of values out of the Unicode Standard and its data files, which no clause of this crate repeats.
use no_memory::NoMemory;
use std::alloc::Global;
use std::process::Abort;
use std::test::Fail;
use value_key::{Keys, key_into, key_of, same_value};

// Whether a value has the key.
fn has_key(alloc: Global, keys: Keys, value: &str, want: Option<&str>) -> Result<bool, NoMemory> {
    let found = key_of(alloc, keys, value)?;
    match (&found, want) {
        (Some(key), Some(text)) => Ok(key.as_str() == text),
        (None, None) => Ok(true),
        _ => Ok(false),
    }
}

// Expects that a value has the key.
fn expect_key(
    rt: &(impl Abort + AllocGlobal),
    keys: Keys,
    value: &str,
    want: Option<&str>,
) -> Result<(), NoMemory> {
    assert!(rt; has_key(rt.alloc(), keys, value, want)?, "{value:?}");
    Ok(())
}

// Whether two values have one key, or both none.
fn same_key(alloc: Global, keys: Keys, a: &str, b: &str) -> Result<bool, NoMemory> {
    let left = key_of(alloc, keys, a)?;
    let right = key_of(alloc, keys, b)?;
    match (&left, &right) {
        (Some(one), Some(other)) => Ok(one.as_str() == other.as_str()),
        (None, None) => Ok(true),
        _ => Ok(false),
    }
}

// Expects that two values match or do not, either way round, and their keys as well.
fn expect_same(
    rt: &(impl Abort + AllocGlobal),
    keys: Keys,
    a: &str,
    b: &str,
    same: bool,
) -> Result<(), NoMemory> {
    let forth = same_value(rt.alloc(), keys, a, b)?;
    let back = same_value(rt.alloc(), keys, b, a)?;
    let by_keys = same_key(rt.alloc(), keys, a, b)?;
    assert_eq!(rt;
        (forth, back, by_keys),
        (same, same, same),
        "{a:?} and {b:?}"
    );
    Ok(())
}

// Each key is the folding that CaseFolding.txt gives (status C and F), decomposed as UnicodeData.txt says.
const CANONICAL: [(&str, &str); 18] = [
    (" Rome\t", "rome"),
    ("A-1 b", "a-1 b"),
    ("\u{B}x\u{C}", "x"),
    ("\u{1C}x", "\u{1C}x"),
    ("\u{E9}", "e\u{301}"),
    ("\u{C9}", "e\u{301}"),
    ("Stra\u{DF}e", "strasse"),
    ("\u{1E9E}", "ss"),
    ("\u{130}", "i\u{307}"),
    ("\u{131}", "\u{131}"),
    ("\u{3A3}\u{3AF}\u{3C2}", "\u{3C3}\u{3B9}\u{301}\u{3C3}"),
    ("\u{FF21}", "\u{FF41}"),
    ("\u{D55C}", "\u{1112}\u{1161}\u{11AB}"),
    ("\u{212A}", "k"),
    ("\u{212B}", "a\u{30A}"),
    ("\u{FB03}", "ffi"),
    ("\u{A0}\u{3000}x\u{2003}\u{A0}", "x"),
    ("\u{200B}x", "\u{200B}x"),
];

#[test]
fn keys_of_values(rt: HostRuntime) -> Result<(), Fail> {
    for (value, key) in CANONICAL {
        expect_key(&rt, Keys::Canonical, value, Some(key))?;
    }
    Ok(())
}

// The same, decomposed as UnicodeData.txt says for compatibility, and folded before and after that.
const COMPATIBILITY: [(&str, &str); 19] = [
    (" Rome\t", "rome"),
    ("\u{C9}", "e\u{301}"),
    ("Stra\u{DF}e", "strasse"),
    ("\u{130}", "i\u{307}"),
    ("\u{131}", "\u{131}"),
    ("\u{2460}", "1"),
    ("\u{FF21}", "a"),
    ("\u{B2}", "2"),
    ("\u{2167}", "viii"),
    ("\u{3392}", "mhz"),
    ("\u{2122}", "tm"),
    ("\u{1D2C}", "a"),
    ("\u{BD}", "1\u{2044}2"),
    ("\u{37A}", " \u{3B9}"),
    ("\u{3D4}", "\u{3C5}\u{308}"),
    ("\u{345}\u{FF9E}", "\u{3B9}\u{3099}"),
    ("\u{D55C}", "\u{1112}\u{1161}\u{11AB}"),
    ("\u{3131}\u{314F}", "\u{1100}\u{1161}"),
    ("a\u{A0}b", "a b"),
];

#[test]
fn compatibility_keys(rt: HostRuntime) -> Result<(), Fail> {
    for (value, key) in COMPATIBILITY {
        expect_key(&rt, Keys::Compatibility, value, Some(key))?;
    }
    Ok(())
}

const BLANKS: [&str; 5] = [
    "",
    " ",
    "\t\r\n",
    "\u{A0}\u{3000}",
    "\u{85}\u{1680}\u{2028}",
];

#[test]
fn blanks_have_no_key(rt: HostRuntime) -> Result<(), Fail> {
    for value in BLANKS {
        expect_key(&rt, Keys::Canonical, value, None)?;
        expect_key(&rt, Keys::Compatibility, value, None)?;
    }
    Ok(())
}

// A buffer holds the key of the last value alone: nothing is left of a longer one, of a blank, or of the way beyond ASCII. These
// keys are the same of either kind.
const TURNS: [(&str, Option<&str>); 9] = [
    ("  The Quick BROWN Fox ", Some("the quick brown fox")),
    ("Ox", Some("ox")),
    (" \t", None),
    ("Stra\u{DF}e \u{C9}", Some("strasse e\u{301}")),
    ("A", Some("a")),
    ("", None),
    ("ABC\u{130}", Some("abci\u{307}")),
    ("\u{A0}\u{3000}", None),
    ("ROME-1", Some("rome-1")),
];

// Expects that a buffer then holds this key of a value, or is empty if the value has none.
fn expect_next(
    rt: &(impl Abort + AllocGlobal),
    buffer: &mut String,
    keys: Keys,
    value: &str,
    key: Option<&str>,
) -> Result<(), NoMemory> {
    let found = key_into(rt.alloc(), keys, value, buffer)?;
    assert_eq!(rt; found, key.is_some(), "{value:?}");
    assert_eq!(rt; buffer.as_str(), key.unwrap_or(""), "{value:?}");
    Ok(())
}

#[test]
fn keys_in_turn(rt: HostRuntime) -> Result<(), Fail> {
    let mut buffer = String::new(rt.alloc());
    for (value, key) in TURNS {
        expect_next(&rt, &mut buffer, Keys::Canonical, value, key)?;
        expect_next(&rt, &mut buffer, Keys::Compatibility, value, key)?;
    }
    Ok(())
}

// Values that the canonical match and the compatibility match tell apart, or not, alike: The Unicode Standard, sections 3.13 and
// 5.18, UAX #15 and CaseFolding.txt. The keys agree.
const PAIRS: [(&str, &str, bool); 25] = [
    ("Oslo", " OSLO ", true),
    ("Oslo", "Oslo1", false),
    ("\u{E9}", "E\u{301}", true),
    ("\u{E9}", "e", false),
    ("MASSE", "Ma\u{DF}e", true),
    ("\u{1E9E}", "\u{DF}", true),
    ("\u{1E9E}", "ss", true),
    ("\u{130}", "i\u{307}", true),
    ("\u{130}", "i", false),
    ("I", "\u{131}", false),
    ("\u{3C3}\u{3C2}", "\u{3A3}\u{3A3}", true),
    ("\u{FF21}", "\u{FF41}", true),
    ("\u{D55C}", "\u{1112}\u{1161}\u{11AB}", true),
    ("\u{212A}", "K", true),
    ("\u{212B}", "\u{C5}", true),
    ("\u{FB01}", "FI", true),
    ("q\u{307}\u{323}", "Q\u{323}\u{307}", true),
    ("\u{3B1}\u{345}\u{301}", "\u{1FB4}", true),
    ("\u{345}", "\u{399}", true),
    ("\u{1FBC}", "\u{391}\u{399}", true),
    ("\u{A0}x\u{3000}", "X", true),
    ("\u{200B}x", "x", false),
    ("\u{2467}", "\u{2167}", false),
    ("", "\u{A0} \u{3000}", true),
    ("", "x", false),
];

#[test]
fn same_values(rt: HostRuntime) -> Result<(), Fail> {
    for (a, b, same) in PAIRS {
        expect_same(&rt, Keys::Canonical, a, b, same)?;
        expect_same(&rt, Keys::Compatibility, a, b, same)?;
    }
    Ok(())
}

// Values that match by compatibility alone, by the decompositions with a tag in UnicodeData.txt.
const COMPATIBLE: [(&str, &str); 14] = [
    ("\u{2460}", "1"),
    ("\u{FF21}", "a"),
    ("\u{B2}", "2"),
    ("\u{3392}", "MHz"),
    ("\u{2167}", "viii"),
    ("\u{2122}", "tm"),
    ("\u{1C4}", "D\u{17D}"),
    ("a\u{A0}b", "A b"),
    ("x\u{37A}", "X \u{345}"),
    ("\u{3D4}", "\u{3AB}"),
    ("\u{345}\u{FF9E}", "\u{3B9}\u{3099}"),
    ("\u{FF76}\u{FF9E}", "\u{30AC}"),
    ("\u{3131}", "\u{1100}"),
    ("\u{FFBE}\u{FFC2}", "\u{D558}"),
];

#[test]
fn compatible_values(rt: HostRuntime) -> Result<(), Fail> {
    for (a, b) in COMPATIBLE {
        expect_same(&rt, Keys::Canonical, a, b, false)?;
        expect_same(&rt, Keys::Compatibility, a, b, true)?;
    }
    Ok(())
}
