//! Lists of properties and methods that are handed over as octets.
use lapin_frames::{ReadFault, carrying, method_in, put_method_octets, put_properties};
use lapin_types::{BasicProperties, ShortString};
use std::alloc::Global;
use std::test::Fail;

// A delivery mode and a correlation id that is no UTF-8.
const LIST: [u8; 6] = [0x14, 0, 2, 2, 0xFF, 0xFE];

// The method queue.purge of a queue `q`, and the same with an octet behind it.
const PURGE: [u8; 9] = [0, 50, 0, 30, 0, 0, 1, b'q', 0];

const LONGER: [u8; 10] = [0, 50, 0, 30, 0, 0, 1, b'q', 0, 0];

#[test]
fn a_list_of_properties_is_written_as_it_was_given(rt: HostRuntime) -> Result<(), Fail> {
    let list = carrying(rt.alloc(), &LIST)?;
    assert!(rt; written(rt.alloc(), &list)?.as_slice() == LIST.as_slice());
    let none = carrying(rt.alloc(), &[0, 0])?;
    assert!(rt; none == BasicProperties::default());
    assert!(rt; written(rt.alloc(), &none)?.as_slice() == [0, 0].as_slice());
    let kind = ShortString::new(rt.alloc(), "k").map_err(|_| Fail::from("text"))?;
    let by_value = list.with_kind(kind);
    let octets = written(rt.alloc(), &by_value)?;
    drop(by_value);
    assert!(rt;
        octets
            .as_slice()
            .starts_with(&[0x20, 0x20, 0, 0, 0, 12, 0, b'x'])
    );
    Ok(())
}

fn written(alloc: Global, properties: &BasicProperties) -> Result<Vec<u8>, Fail> {
    let mut out = Vec::new(alloc);
    put_properties(alloc, &mut out, properties).map_err(|_| Fail::from("it was not written"))?;
    Ok(out)
}

#[test]
fn a_method_is_its_octets(rt: HostRuntime) -> Result<(), Fail> {
    assert!(rt; again(rt.alloc(), &PURGE)?.as_slice() == PURGE.as_slice());
    assert!(rt; is_none(rt.alloc(), &PURGE[..8]));
    assert!(rt; is_none(rt.alloc(), &LONGER));
    Ok(())
}

// What is written of the method that octets are.
fn again(alloc: Global, octets: &[u8]) -> Result<Vec<u8>, Fail> {
    let method = method_in(alloc, octets).map_err(|_| Fail::from("no method"))?;
    let mut out = Vec::new(alloc);
    let put = put_method_octets(alloc, &mut out, &method);
    drop(method);
    put.map_err(|_| Fail::from("it was not written"))?;
    Ok(out)
}

fn is_none(alloc: Global, octets: &[u8]) -> bool {
    match method_in(alloc, octets) {
        Ok(method) => {
            drop(method);
            false
        }
        Err(fault) => fault == ReadFault::Malformed,
    }
}
