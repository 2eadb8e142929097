//! Names, tables, queries and rows that were worked out by hand, and keys that were chosen to collide.
use column_set::{Keys, Name, QueryRefused, QuerySet, Row, Rows, SharedTable, TableSets};
use csv_table::read_table;
use std::alloc::Global;
use std::cmp::Ordering;
use std::hash::{FoldHasher, Hasher};
use std::process::Abort;
use std::test::Fail;

// Returns the table with this name and these CSV bytes.
fn table(alloc: Global, name: &str, text: &str) -> Result<TableSets, Fail> {
    let name = Name::read(name.as_bytes()).ok_or("no name")?;
    let Ok(raw) = read_table(alloc, text.as_bytes(), 1_024) else {
        return Err(Fail::from("no table"));
    };
    let Ok(table) = TableSets::build(alloc, Keys::Canonical, name, &raw) else {
        return Err(Fail::from("no sets"));
    };
    Ok(table)
}

// Expects a table of this many columns, with this many keys in all of them.
fn expect_shape(rt: &impl Abort, table: &TableSets, columns: u32, members: u64) {
    assert_eq!(rt; table.columns(), columns);
    assert_eq!(rt; table.members(), members);
}

// Expects a column of this many keys at the place.
fn expect_size(rt: &impl Abort, table: &TableSets, place: u32, want: u32) {
    assert!(rt; place > 0 && place <= table.columns());
    assert_eq!(rt; table.size(place), want);
}

// Expects this key of the column at the place. Beyond its last key there is the empty text.
fn expect_key(rt: &impl Abort, table: &TableSets, place: u32, i: u32, want: &str) {
    assert!(rt; place > 0 && place <= table.columns());
    assert_eq!(rt; table.key(place, i), want);
}

// Expects that this many keys of a query are in the column at the place.
fn expect_overlap(rt: &impl Abort, table: &TableSets, place: u32, asked: &QuerySet, want: u32) {
    assert!(rt; place > 0 && place <= table.columns());
    assert_eq!(rt; table.overlap(place, asked), want);
}

// Expects whether a query has a key.
fn expect_has(rt: &impl Abort, asked: &QuerySet, key: &str, want: bool) {
    assert_eq!(rt; asked.has(key), want, "{key}");
}

// A name is not empty, and has no space, no control character and no byte beyond ASCII.
#[test]
fn names(rt: HostRuntime) {
    for other in ["", "a b", "a\n", "caf\u{e9}", "\u{7f}"] {
        assert!(rt; Name::read(other.as_bytes()).is_none(), "{other:?}");
    }
    assert!(rt; Name::read(b"t1").is_some());
}

// Names compare by their bytes, whether they differ among the first nine bytes, which are compared as one number, or only
// behind them.
#[test]
fn names_in_order(rt: HostRuntime) -> Result<(), Fail> {
    let rising = [
        "!",
        "A",
        "a",
        "aa",
        "ab",
        "abcdefgh",
        "abcdefghi",
        "abcdefghi!",
        "abcdefghij",
        "abcdefghj",
        "b",
        "~",
        "~~~~~~~~~",
        "~~~~~~~~~~",
    ];
    for i in 1..rising.len() {
        let lower = Name::read(rising[i - 1].as_bytes()).ok_or("no name")?;
        let higher = Name::read(rising[i].as_bytes()).ok_or("no name")?;
        assert_eq!(rt; lower.order(&higher), Ordering::Less, "{}", rising[i]);
        assert_eq!(rt; higher.order(&lower), Ordering::Greater, "{}", rising[i]);
        assert_eq!(rt;
            higher.order(&higher.copy()),
            Ordering::Equal,
            "{}",
            rising[i]
        );
    }
    Ok(())
}

// Returns the query of a body.
fn query(alloc: Global, body: &str) -> Result<QuerySet, Fail> {
    let Ok(query) = QuerySet::read(alloc, Keys::Canonical, body.as_bytes()) else {
        return Err(Fail::from("no query"));
    };
    Ok(query)
}

// A table of two columns, and a query of three values, two of which are in the second column.
#[test]
fn shared_values(rt: HostRuntime) -> Result<(), Fail> {
    let alloc = rt.alloc();
    let cities = table(alloc, "t1", "id,city\n1,Rome\n2,Oslo\n")?;
    let asked = query(alloc, "rome\nOSLO\nParis")?;
    expect_shape(&rt, &cities, 2, 4);
    assert_eq!(rt; cities.key_bytes(), 10);
    assert_eq!(rt; asked.len(), 3);
    expect_overlap(&rt, &cities, 1, &asked, 0);
    expect_overlap(&rt, &cities, 2, &asked, 2);
    expect_key(&rt, &cities, 2, 1, "oslo");
    expect_key(&rt, &cities, 2, 2, "");
    Ok(())
}

// Returns the query of the column at a place.
fn column_of(alloc: Global, table: &TableSets, place: u32) -> Result<QuerySet, Fail> {
    if place == 0 || place > table.columns() {
        return Err(Fail::from("no column"));
    }
    Ok(QuerySet::of_column(alloc, table, place)?)
}

// A column as a query has all of its keys, in order of first occurrence.
#[test]
fn column_asked(rt: HostRuntime) -> Result<(), Fail> {
    let alloc = rt.alloc();
    let cities = table(alloc, "t1", "id,city\n1,Rome\n2,Oslo\n3,Bern\n")?;
    let asked = column_of(alloc, &cities, 2)?;
    assert_eq!(rt; asked.len(), 3);
    expect_overlap(&rt, &cities, 2, &asked, 3);
    expect_has(&rt, &asked, "bern", true);
    expect_has(&rt, &asked, "1", false);
    Ok(())
}

// A table is shared.
#[test]
fn shares(rt: HostRuntime) -> Result<(), Fail> {
    let alloc = rt.alloc();
    let shared = SharedTable::new(alloc, table(alloc, "t1", "id\n")?)?;
    let other = shared.share()?;
    assert!(rt; other.table().name().text() == "t1");
    Ok(())
}

// A column of blank values has no key, and columns may have the same name, or an empty one.
#[test]
fn odd_columns(rt: HostRuntime) -> Result<(), Fail> {
    let odd = table(rt.alloc(), "odd", "a,a,\n,x,1\n  ,X,\n")?;
    expect_shape(&rt, &odd, 3, 2);
    Ok(())
}

// The fields of a table share one buffer: nothing of a longer field, a blank one or one beyond ASCII is left in the
// next key.
#[test]
fn keys_in_turn(rt: HostRuntime) -> Result<(), Fail> {
    let text = "a,b\nA long value,E\u{301}x\nOx,\u{C9}x\n \u{A0},oX\noX,a LONG value\n";
    let mixed = table(rt.alloc(), "mixed", text)?;
    expect_size(&rt, &mixed, 1, 2);
    expect_size(&rt, &mixed, 2, 3);
    expect_key(&rt, &mixed, 1, 0, "a long value");
    expect_key(&rt, &mixed, 1, 1, "ox");
    expect_key(&rt, &mixed, 2, 0, "e\u{301}x");
    expect_key(&rt, &mixed, 2, 1, "ox");
    expect_key(&rt, &mixed, 2, 2, "a long value");
    Ok(())
}

// Returns the number of keys in the query of a body, or the error for which the body is refused.
fn read(alloc: Global, body: &[u8]) -> Result<u32, QueryRefused> {
    Ok(QuerySet::read(alloc, Keys::Canonical, body)?.len())
}

// Blank lines have no key, the last line needs no line feed, and the error names the first line that is not UTF-8.
#[test]
fn lines(rt: HostRuntime) {
    let alloc = rt.alloc();
    for (body, want) in [
        ("", 0),
        ("\n", 0),
        ("\n\n\n", 0),
        ("\n \n\t\r\n", 0),
        ("rome\r\n\n ROME \noslo", 2),
        ("a\nb\n", 2),
    ] {
        assert_eq!(rt; read(alloc, body.as_bytes()), Ok(want), "{body:?}");
    }
    assert_eq!(rt;
        read(alloc, b"a\n\n\xFF\n\xFE"),
        Err(QueryRefused::NotUtf8 { line: 3 })
    );
}

// Expects a body to be refused for this line. The body is these two texts with a byte between them that no text has.
fn expect_fault(
    rt: &impl Abort,
    alloc: Global,
    before: &str,
    after: &str,
    line: u64,
) -> Result<(), Fail> {
    let mut body = Vec::new(alloc);
    body.extend_from_slice(before.as_bytes())?;
    body.push(0xFF)?;
    body.extend_from_slice(after.as_bytes())?;
    let refused = Err(QueryRefused::NotUtf8 { line });
    assert_eq!(rt; read(alloc, &body), refused, "{before:?}, {after:?}");
    Ok(())
}

// A line that is not UTF-8 is found where it is the first, one in the middle, or the last, with a line feed and without.
#[test]
fn faulty_lines(rt: HostRuntime) -> Result<(), Fail> {
    let long = "a line of more than sixty-four bytes, which are two steps of a search";
    let before = format!(in rt.alloc(); "{long}\n{long}\n")?;
    for (before, after, line) in [
        ("", "", 1),
        ("", "\n", 1),
        ("", "\nb\nc\n", 1),
        ("a", "b\nc", 1),
        ("a\n", "\nc\n", 2),
        ("a\n\nb", "c\n\nd", 3),
        ("a\nb\n", "", 3),
        ("a\nb\n", "\n", 3),
        (before.as_str(), "", 3),
        (before.as_str(), long, 3),
        (long, before.as_str(), 1),
    ] {
        expect_fault(&rt, rt.alloc(), before, after, line)?;
    }
    Ok(())
}

// A character that a line feed cuts is a fault of the line that has its first byte.
#[test]
fn cut_character(rt: HostRuntime) {
    assert_eq!(rt;
        read(rt.alloc(), b"a\n\xC3\n\xA9\n"),
        Err(QueryRefused::NotUtf8 { line: 2 })
    );
}

// Returns a line of each number of letters from 1 to `most`.
fn rising_lines(alloc: Global, most: u32) -> Result<String, Fail> {
    let mut line = String::new(alloc);
    let mut lines = String::new(alloc);
    for _ in 0..most {
        line.push('a')?;
        lines.push_str(line.as_str())?;
        lines.push('\n')?;
    }
    Ok(lines)
}

// Lines shorter and longer than 32 and 64 bytes are cut at their line feeds.
#[test]
fn long_lines(rt: HostRuntime) -> Result<(), Fail> {
    let lines = rising_lines(rt.alloc(), 130)?;
    let asked = query(rt.alloc(), lines.as_str())?;
    assert_eq!(rt; asked.len(), 130);
    for i in 0..asked.len() {
        assert_eq!(rt; asked.key(i).len(), i as usize + 1);
    }
    Ok(())
}

// Lines beyond ASCII are cut at their line feeds, also behind the first 64 bytes.
#[test]
fn lines_beyond_ascii(rt: HostRuntime) -> Result<(), Fail> {
    let asked = query(
        rt.alloc(),
        "日本\n東京\nМосква\nбезопасность и надёжность в работе\n\n大阪",
    )?;
    assert_eq!(rt; asked.len(), 5);
    expect_has(&rt, &asked, "日本", true);
    expect_has(&rt, &asked, "東京", true);
    expect_has(&rt, &asked, "москва", true);
    expect_has(&rt, &asked, "大阪", true);
    expect_has(&rt, &asked, "日本東京", false);
    Ok(())
}

// A row is kept with a share of its titles, alone and among others.
#[test]
fn rows(rt: HostRuntime) -> Result<(), Fail> {
    let alloc = rt.alloc();
    let cities = table(alloc, "t1", "id,city\n1,Rome\n")?;
    assert_eq!(rt; cities.columns(), 2);
    let row = Row {
        overlap: 1,
        titles: cities.titles(),
        place: 2,
    };
    let kept = row.keep()?;
    assert!(rt; kept.column() == "city");
    let mut list = Vec::new(alloc);
    list.push(row)?;
    let rows = Rows::new(list).keep_all(alloc)?;
    assert_eq!(rt; rows.list().len(), 1);
    Ok(())
}

// Expects that this many keys of a query, `1` and `a`, are in a column of a circled digit and a wide letter.
fn expect_shared(rt: &(impl Abort + AllocGlobal), keys: Keys, want: u32) -> Result<(), Fail> {
    let raw = read_table(rt.alloc(), "c\n\u{2460}\n\u{FF21}\n".as_bytes(), 1)?;
    let name = Name::read("t".as_bytes()).ok_or("no name")?;
    let table = TableSets::build(rt.alloc(), keys, name, &raw)?;
    let asked = QuerySet::read(rt.alloc(), keys, "1\na\n".as_bytes())?;
    expect_overlap(rt, &table, 1, &asked, want);
    Ok(())
}

// Values that only compatibility matching makes equal share a key only with keys of that kind.
#[test]
fn kinds_of_keys(rt: HostRuntime) -> Result<(), Fail> {
    expect_shared(&rt, Keys::Canonical, 0)?;
    expect_shared(&rt, Keys::Compatibility, 2)
}

// The first 24 bytes of keys of 32 bytes whose hash is 0. The hasher takes sixteen bytes at a time, and its state after
// the first sixteen bytes of these keys equals the next eight bytes, read as a little-endian number. The xor of the two
// is a factor of the hash, so the hash is 0 whatever the last eight bytes are.
const COLLIDING: &str = "joinablekewcbluzeevfwjbx";

// Returns the hash of a key by the hasher that queries and tables use.
fn hash_of(key: &str) -> u64 {
    let mut hasher = FoldHasher::default();
    hasher.write(key.as_bytes());
    hasher.finish()
}

// Returns one line for each of `count` keys that share a hash, each with this end, and then the same lines again.
fn colliding_lines(alloc: Global, count: u32, end: &str) -> Result<String, Fail> {
    let mut lines = String::new(alloc);
    for _ in 0..2 {
        for number in 0..count {
            lines.push_str(format!(in alloc; "{COLLIDING}{number:08}{end}\n")?.as_str())?;
        }
    }
    Ok(lines)
}

// Keys that collide are each in a query once, and are found.
#[test]
fn colliding_query(rt: HostRuntime) -> Result<(), Fail> {
    assert_eq!(rt; hash_of("joinablekewcbluzeevfwjbx00000007"), 0);
    let lines = colliding_lines(rt.alloc(), 300, "")?;
    let asked = query(rt.alloc(), lines.as_str())?;
    assert_eq!(rt; asked.len(), 300);
    assert_eq!(rt; asked.key(299), "joinablekewcbluzeevfwjbx00000299");
    expect_has(&rt, &asked, "joinablekewcbluzeevfwjbx00000000", true);
    expect_has(&rt, &asked, "joinablekewcbluzeevfwjbx00000299", true);
    expect_has(&rt, &asked, "joinablekewcbluzeevfwjbx00000300", false);
    expect_has(&rt, &asked, "rome", false);
    Ok(())
}

// The first 24 bytes of keys of 48 bytes whose hash depends only on their last sixteen bytes.
const GROUPED: &str = "avbjulvqvultacdyhalhncda";

// Returns one line for each of 2,000 keys, in groups of 100 that share a hash, and then the same lines again.
fn grouped_lines(alloc: Global) -> Result<String, Fail> {
    let mut lines = String::new(alloc);
    for _ in 0..2 {
        for number in 0..2_000u32 {
            let group = number % 20;
            lines.push_str(format!(in alloc; "{GROUPED}{number:08}{group:016}\n")?.as_str())?;
        }
    }
    Ok(lines)
}

// Keys that collide in groups, each smaller than the number of slots that a look-up visits at most, are each in a query
// once, and are found.
#[test]
fn grouped_query(rt: HostRuntime) -> Result<(), Fail> {
    assert_eq!(rt;
        hash_of("avbjulvqvultacdyhalhncda000000010000000000000001"),
        hash_of("avbjulvqvultacdyhalhncda000000210000000000000001")
    );
    let lines = grouped_lines(rt.alloc())?;
    let asked = query(rt.alloc(), lines.as_str())?;
    assert_eq!(rt; asked.len(), 2_000);
    assert_eq!(rt;
        asked.key(1_999),
        "avbjulvqvultacdyhalhncda000019990000000000000019"
    );
    expect_has(
        &rt,
        &asked,
        "avbjulvqvultacdyhalhncda000000000000000000000000",
        true,
    );
    expect_has(
        &rt,
        &asked,
        "avbjulvqvultacdyhalhncda000019990000000000000019",
        true,
    );
    expect_has(
        &rt,
        &asked,
        "avbjulvqvultacdyhalhncda000019990000000000000018",
        false,
    );
    expect_has(&rt, &asked, "rome", false);
    Ok(())
}

// Keys that collide are each in a column once, beside a column of other keys, and the column is used as a query.
#[test]
fn colliding_column(rt: HostRuntime) -> Result<(), Fail> {
    let alloc = rt.alloc();
    let mut text = String::from_str(alloc, "key,city\n")?;
    text.push_str(colliding_lines(alloc, 300, ",Rome")?.as_str())?;
    let flooded = table(alloc, "flooded", text.as_str())?;
    expect_shape(&rt, &flooded, 2, 301);
    assert_eq!(rt; flooded.key_bytes(), 9_604);
    expect_size(&rt, &flooded, 1, 300);
    expect_size(&rt, &flooded, 2, 1);
    expect_key(&rt, &flooded, 2, 0, "rome");
    let asked = column_of(alloc, &flooded, 1)?;
    expect_overlap(&rt, &flooded, 1, &asked, 300);
    expect_overlap(&rt, &flooded, 2, &asked, 0);
    let lines = colliding_lines(alloc, 200, "")?;
    let fewer = query(alloc, lines.as_str())?;
    expect_overlap(&rt, &flooded, 1, &fewer, 200);
    Ok(())
}
