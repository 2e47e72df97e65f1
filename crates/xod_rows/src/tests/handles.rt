//! Queries by their handles.
use super::{parted, query, text};
use sqlite_items::Boxed;
use std::alloc::Global;
use std::test::Fail;
use xod_base::{Bytes, Query};
use xod_handle::{Handle, is_named};

/// Queries, and behind a bar the texts of their handles.
const HANDLES: &str = r#"all T | all T
find T P "AbÜ" | find T P "abÜ"
find T P -7 | find T P -7
range T P true "Z" | range T P true "z"
range T P "Z" "A" | range T P "z" "a"
prefix T P "C\"\\" | prefix T P "c\"\\"
union all B all A | union all A all B
union all a all B | union all B all a
union all AB all A | union all A all AB
intersect with T P all T | intersect all T with T P
intersect withlink T L with T P | intersect with T P withlink T L
union linked T L 0-9 linked T L 0-10 | union linked T L 0-10 linked T L 0-9
union from 1-0 L from 0-5 L | union from 0-5 L from 1-0 L
union all A all A | union all A all A
union all A union all A all A | union all A all A
union find T P "B" find T P "b" | union find T P "b" find T P "b"
union all B union all A all B | union all A all B
union union all D all C union all B all A | union all A union all B union all C all D
intersect intersect all C all A all B | intersect all A intersect all B all C
intersect union all B all A all C | intersect all C union all A all B
union intersect all B all A intersect all A all B | union intersect all A all B intersect all A all B
intersect intersect all A union all B all A all A | intersect all A union all A all B
union all A intersect all A all A | union all A intersect all A all A
minus all B all A | minus all B all A
minus minus all B all A minus all A all A | minus minus all B all A minus all A all A
minus union all B all A all A | minus union all A all B all A
union minus all B all A all C | union all C minus all B all A
sort P down union all B all A | sort P down union all A all B
union sort P up all B sort P down all A | union sort P down all A sort P up all B
skip 2 take 3 intersect all B all A | skip 2 take 3 intersect all A all B
targets L targets M union all B all A | targets L targets M union all A all B
"#;

/// The handle of the query that words say.
fn handle(alloc: Global, words: &str) -> Result<Handle, Fail> {
    let query = query(alloc, words)?;
    let handle = Handle::of(alloc, &query)?;
    Ok(handle)
}

/// Whether words say a query with this text of its handle, which is its own handle.
fn has_handle(alloc: Global, words: &str, normal: &str) -> Result<bool, Fail> {
    let handle = handle(alloc, words)?;
    let again = Handle::of(alloc, handle.query())?;
    Ok(handle.bytes() == normal.as_bytes() && again.same(&handle))
}

#[test]
fn queries_have_these_handles(rt: HostRuntime) -> Result<(), Fail> {
    for line in HANDLES.lines() {
        let (words, normal) = parted(line)?;
        assert!(rt; has_handle(rt.alloc(), words, normal)?, "{line}");
    }
    Ok(())
}

/// The ids of the type with a number.
fn all(alloc: Global, number: u32) -> Result<Query, Fail> {
    let name = format!(in alloc; "T{number}")?;
    let kind = text(alloc, name.as_bytes())?;
    Ok(Query::All { kind })
}

/// The union of the types with numbers from 1000 on, the last one outermost.
fn falling(alloc: Global, last: u32) -> Result<Query, Fail> {
    let mut query = all(alloc, 1000)?;
    for number in 1001..=last {
        query = Query::Union {
            left: Boxed::new(alloc, all(alloc, number)?)?,
            right: Boxed::new(alloc, query)?,
        };
    }
    Ok(query)
}

/// The text of the union of these types, the first one outermost.
fn rising_text(alloc: Global, last: u32) -> Result<Bytes, Fail> {
    let mut bytes = Bytes::new(alloc);
    for number in 1000..last {
        let part = format!(in alloc; "union all T{number} ")?;
        bytes.extend(part.as_bytes())?;
    }
    let part = format!(in alloc; "all T{last}")?;
    bytes.extend(part.as_bytes())?;
    Ok(bytes)
}

#[test]
fn a_query_may_be_deeper_than_a_text_can_say(rt: HostRuntime) -> Result<(), Fail> {
    let alloc = rt.alloc();
    let deep = falling(alloc, 2023)?;
    assert!(rt; is_named(&deep));
    let handle = Handle::of(alloc, &deep)?;
    let wanted = rising_text(alloc, 2023)?;
    assert!(rt; handle.bytes() == wanted.as_slice());
    Ok(())
}

#[test]
fn a_query_whose_names_are_no_words_is_told(rt: HostRuntime) -> Result<(), Fail> {
    let alloc = rt.alloc();
    for (name, is_word) in [
        (b"_".as_slice(), true),
        (b"T9_z".as_slice(), true),
        (b"".as_slice(), false),
        (b"9T".as_slice(), false),
        (b"T-U".as_slice(), false),
        (b"a b".as_slice(), false),
        (b"\xc3\x9c".as_slice(), false),
        ([b'a'; 255].as_slice(), true),
        ([b'a'; 256].as_slice(), false),
    ] {
        let kind = text(alloc, name)?;
        let all = Query::All { kind };
        assert_eq!(rt; is_named(&all), is_word, "{name:?}");
        let deeper = Query::Skip {
            count: 1,
            of: Boxed::new(alloc, all)?,
        };
        assert_eq!(rt; is_named(&deeper), is_word, "deeper: {name:?}");
    }
    Ok(())
}
