//! Values: the limit of a short string, tables in the order of their keys, the kinds of field values, the texts of errors.
use lapin_tokens::table_of;
use lapin_values::{AMQPValue, FieldTable, NoMemory, ShortString, ShortStringError};
use std::test::Fail;

// Letters, one more than a short string holds.
const LETTERS: &str =
    "aaaaaaaaaaaaaaaaaaaaaaaaaaaaaaaaaaaaaaaaaaaaaaaaaaaaaaaaaaaaaaaaaaaaaaaaaaaaaaaaaaaaaaaaaaaaaaaaaaaaaaaaaaaaaaaaaaaaaaaaaaaaaaaaaaaaaaaaaaaaaaaaaaaaaaaaaaaaaaaaaaaaaaaaaaaaaaaaaaaaaaaaaaaaaaaaaaaaaaaaaaaaaaaaaaaaaaaaaaaaaaaaaaaaaaaaaaaaaaaaaaaaaaaaaaaaaaaa";

// Bytes count, not letters.
#[test]
fn short_strings_hold_255_bytes(rt: HostRuntime) -> Result<(), Fail> {
    let alloc = rt.alloc();
    let longest = ShortString::new(alloc, LETTERS.get(..255).ok_or("255 letters")?)?;
    assert_eq!(rt; longest.as_str().len(), 255);
    let longer = ShortString::new(alloc, LETTERS);
    assert!(rt; matches!(&longer, Err(ShortStringError::TooLong { length: 256 })));
    assert_eq!(rt; ShortString::new(alloc, "Grüße")?.as_str().len(), 7);
    Ok(())
}

// A table has its keys in the order of their bytes, and of equal keys the last value.
#[test]
fn tables_rise_and_replace(rt: HostRuntime) -> Result<(), Fail> {
    let alloc = rt.alloc();
    let mut table = FieldTable::new(alloc);
    for (key, number) in [("b", 1), ("a", 2), ("ab", 3), ("", 4), ("b", 5), ("B", 6)] {
        let key = ShortString::new(alloc, key)?;
        table.insert(alloc, key, AMQPValue::LongInt(number))?;
    }
    assert_eq!(rt; table.len(), 5);
    for (place, key, number) in [
        (0, "", 4),
        (1, "B", 6),
        (2, "a", 2),
        (3, "ab", 3),
        (4, "b", 5),
    ] {
        let (at, value) = table.at(place).ok_or("a row too few")?;
        assert_eq!(rt; at.as_str(), key);
        assert!(rt; *value == AMQPValue::LongInt(number), "at {key}");
        let found = table.get(key).ok_or("a key is lost")?;
        assert!(rt; *found == AMQPValue::LongInt(number), "found {key}");
    }
    for absent in ["A", "c", "aa"] {
        assert!(rt; table.get(absent).is_none());
    }
    Ok(())
}

#[test]
fn letters_say_the_kind(rt: HostRuntime) -> Result<(), Fail> {
    let table = table_of(rt.alloc(), b"{x61=S39,x62=y39,x63=T8,x64=b8,x65=u8}")?;
    assert!(rt; matches!(table.get("a"), Some(AMQPValue::LongString(_))));
    assert!(rt; matches!(table.get("b"), Some(AMQPValue::ByteArray(_))));
    assert!(rt; matches!(table.get("c"), Some(AMQPValue::Timestamp(8))));
    assert!(rt; matches!(table.get("d"), Some(AMQPValue::ShortShortInt(8))));
    assert!(rt; matches!(table.get("e"), Some(AMQPValue::ShortUInt(8))));
    Ok(())
}

#[test]
fn errors_say_what_they_are(rt: HostRuntime) -> Result<(), Fail> {
    let alloc = rt.alloc();
    let longer = ShortStringError::TooLong { length: 256 };
    assert_eq!(rt; format!(in alloc; "{NoMemory}")?.as_str(), "out of memory");
    assert_eq!(rt;
        format!(in alloc; "{longer}")?.as_str(),
        "a short string has at most 255 bytes, and this text has 256"
    );
    Ok(())
}
