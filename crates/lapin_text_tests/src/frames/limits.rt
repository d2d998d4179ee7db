//! What is refused: a frame above the limit, and tables that nest too deep.
use lapin_frames::{WriteFault, put_frame, put_frame_within};
use lapin_types::{
    AMQPValue, BasicProperties, ContentHeader, FieldTable, Frame, NoMemory, Payload, ShortString,
};
use std::alloc::Global;
use std::test::Fail;

#[test]
fn a_frame_above_the_limit_is_not_written(rt: HostRuntime) -> Result<(), Fail> {
    let frame = Frame::Body(1, Payload::new(rt.alloc(), &[7; 10])?);
    let mut out = Vec::new(rt.alloc());
    let mut room = Vec::new(rt.alloc());
    let above = put_frame_within(rt.alloc(), &mut out, &mut room, &frame, 17);
    assert!(rt; above == Err(WriteFault::AboveLimit));
    assert!(rt; out.is_empty());
    let within = put_frame_within(rt.alloc(), &mut out, &mut room, &frame, 18);
    drop(frame);
    assert!(rt; within == Ok(()));
    assert!(rt; out.len() == 18);
    Ok(())
}

#[test]
fn tables_nest_at_most_eight_levels(rt: HostRuntime) -> Result<(), Fail> {
    let eight = header_of(rt.alloc(), 8)?;
    let nine = header_of(rt.alloc(), 9)?;
    let mut out = Vec::new(rt.alloc());
    let refused = put_frame(rt.alloc(), &mut out, &nine);
    assert!(rt; refused == Err(WriteFault::TooDeep));
    assert!(rt; out.is_empty());
    let written = put_frame(rt.alloc(), &mut out, &eight);
    drop(eight);
    drop(nine);
    assert!(rt; written == Ok(()));
    Ok(())
}

fn header_of(alloc: Global, levels: usize) -> Result<Frame, NoMemory> {
    let mut table = FieldTable::new(alloc);
    for _ in 1..levels {
        let mut outer = FieldTable::new(alloc);
        let key = ShortString::new(alloc, "t").map_err(|_| NoMemory)?;
        outer.insert(alloc, key, AMQPValue::FieldTable(table))?;
        table = outer;
    }
    Ok(Frame::Header(
        1,
        ContentHeader {
            class_id: 60,
            body_size: 0,
            properties: BasicProperties::default().with_headers(table),
        },
    ))
}
