//! Tables by their values. A row is octets as the text of a session has them, and behind `==` the table that they are, which is also written so,
//! behind `->` what is read of them: a table, or `malformed`. And a table of many entries, read in whatever order they come: the same, with the
//! last value of a name that comes twice.
use lapin_fields::{Octets, ReadFault, put_counted, put_table, take_table};
use lapin_text::read_bytes;
use lapin_tokens::{Token, put_tokens, table_of};
use lapin_types::{FieldTable, NoMemory};
use std::alloc::Global;
use std::test::Fail;

const TABLES: &str = "
written by RabbitMQ: a table of each kind of value that RabbitMQ writes
x == {}
x0a782d7072696f72697479490000000a == {x782d7072696f72697479=I10}
x016e6c00000000000000010173530000000178 == {x6e=l1,x73=S78}
x016149fffffffe016274010163530000000178016454000000000000000101656cffffffffffffffff016662fd016773fed4016878000000020102016956016a410000000e49000000014600000004017a7400016b6900000005016c750006016d4207 == {x61=I-2,x62=t1,x63=S78,x64=T1,x65=l-1,x66=b-3,x67=s-300,x68=y0102,x69=V,x6a=A[I1,F{x7a=t0}],x6b=i5,x6c=u6,x6d=B7}

values that have no kind here: a float, a double, a decimal; a table in a table whose key is no UTF-8
x0166663fc00000016464c002000000000000016544020000013a01787401 -> {x64=y64c002000000000000,x65=y44020000013a,x66=y663fc00000,x78=t1}
x0174460000000401ff7401 -> {x74=y4601ff7401}
x01ff7401 -> malformed

the order of keys and all but the last of two equal keys
x0162560161740501627400 -> {x61=t1,x62=t0}

eight levels and nine, and values of a type that is not known
x0174460000002d017446000000260174460000001f01744600000018017446000000110174460000000a01744600000003016156 == {x74=F{x74=F{x74=F{x74=F{x74=F{x74=F{x74=F{x61=V}}}}}}}}
x017446000000340174460000002d017446000000260174460000001f01744600000018017446000000110174460000000a01744600000003016156 -> {x74=F{x74=F{x74=F{x74=F{x74=F{x74=F{x74=F{x74=y46016156}}}}}}}}
x0174460000000301615a016256 -> {x62=V,x74=y4601615a}
x01615a -> malformed
";

// More than are put in by moving others, so that the order matters for how it is done.
const ENTRIES: usize = 300;

#[test]
fn tables_are_read_and_written_as_the_rows_say(rt: HostRuntime) -> Result<(), Fail> {
    for row in TABLES.split('\n') {
        if let Some((octets, told)) = row.split_once(" -> ") {
            let octets = octets_of(rt.alloc(), octets)?;
            assert!(rt; is_read(rt.alloc(), &octets, told)?, "at {row}");
        }
        if let Some((octets, table)) = row.split_once(" == ") {
            let octets = octets_of(rt.alloc(), octets)?;
            assert!(rt; is_read(rt.alloc(), &octets, table)?, "at {row}");
            assert!(rt; is_written(rt.alloc(), &octets, table)?, "at {row}");
        }
    }
    Ok(())
}

// The octets of a row.
fn octets_of(alloc: Global, text: &str) -> Result<Vec<u8>, Fail> {
    let bytes = read_bytes(alloc, text.as_bytes())?.ok_or("octets")?;
    Ok(Vec::from_slice(alloc, bytes.as_bytes())?)
}

// Octets behind their length, as a table stands in a frame.
fn counted(alloc: Global, octets: &[u8]) -> Result<Vec<u8>, Fail> {
    let mut out = Vec::new(alloc);
    put_counted(&mut out, octets).map_err(|_| Fail::from("it was not written"))?;
    Ok(out)
}

// Whether the octets of a table are read as that.
fn is_read(alloc: Global, octets: &[u8], told: &str) -> Result<bool, Fail> {
    let octets = counted(alloc, octets)?;
    let read = read(alloc, &octets)?;
    Ok(read.as_str() == told)
}

// What is read of a table behind its length, as a text.
fn read(alloc: Global, octets: &[u8]) -> Result<String, Fail> {
    match take_table(alloc, &mut Octets::new(octets)) {
        Ok(table) => text_of(alloc, &table),
        Err(ReadFault::Malformed) => Ok(String::from_str(alloc, "malformed")?),
        Err(ReadFault::NoMemory) => Err(Fail::from("memory")),
    }
}

fn text_of(alloc: Global, table: &FieldTable) -> Result<String, Fail> {
    let mut text = Vec::new(alloc);
    put_tokens(alloc, &mut text, &[Token::Table(table)])?;
    let text = std::str::from_utf8(text.as_slice()).map_err(|_| Fail::from("text"))?;
    Ok(String::from_str(alloc, text.trim())?)
}

// Whether the octets are what is written of the table with that text.
fn is_written(alloc: Global, octets: &[u8], text: &str) -> Result<bool, Fail> {
    let table = table_of(alloc, text.as_bytes()).map_err(|_| Fail::from("no table has this text"))?;
    let mut out = Vec::new(alloc);
    put_table(alloc, &mut out, &table).map_err(|_| Fail::from("it was not written"))?;
    let octets = counted(alloc, octets)?;
    Ok(out.as_slice() == octets.as_slice())
}

#[test]
fn a_table_is_the_same_in_whatever_order_its_keys_come(rt: HostRuntime) -> Result<(), Fail> {
    let mut rising = Vec::new(rt.alloc());
    let mut falling = Vec::new(rt.alloc());
    let mut strewn = Vec::new(rt.alloc());
    for turn in 0..ENTRIES {
        put_pair(&mut rising, turn, 0)?;
        put_pair(&mut falling, ENTRIES - 1 - turn, 0)?;
        put_pair(&mut strewn, turn * 7 % ENTRIES, 0)?;
    }
    assert!(rt; is_whole(rt.alloc(), rising)?, "rising");
    assert!(rt; is_whole(rt.alloc(), falling)?, "falling");
    assert!(rt; is_whole(rt.alloc(), strewn)?, "strewn");
    Ok(())
}

// Whether these entries, and the eighth once more with another value, are read as what they are.
fn is_whole(alloc: Global, mut pairs: Vec<u8>) -> Result<bool, Fail> {
    put_pair(&mut pairs, 7, 1)?;
    let told = told(alloc)?;
    is_read(alloc, &pairs, &told)
}

// The table as a text.
fn told(alloc: Global) -> Result<String, Fail> {
    let mut text = String::from_str(alloc, "{")?;
    for place in 0..ENTRIES {
        let [a, b, c] = digits(place);
        let comma = if place == 0 { "" } else { "," };
        let value: u8 = if place == 7 { 1 } else { 0 };
        let pair = format!(in alloc; "{comma}x3{a}3{b}3{c}=t{value}")?;
        text.push_str(&pair)?;
    }
    text.push_str("}")?;
    Ok(text)
}

// The last three digits of a place.
fn digits(place: usize) -> [u8; 3] {
    [
        (place / 100 % 10) as u8,
        (place / 10 % 10) as u8,
        (place % 10) as u8,
    ]
}

// Adds an entry: its key is the three digits of its place.
fn put_pair(out: &mut Vec<u8>, place: usize, value: u8) -> Result<(), NoMemory> {
    let [a, b, c] = digits(place);
    out.extend_from_slice(&[3, 48 | a, 48 | b, 48 | c, b't', value])?;
    Ok(())
}
