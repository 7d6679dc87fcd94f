// Each kind of field, written and read back.
use fields::{read_field, write_field};
use records::{Activity, CellField, Edge, Header, Point, Resource};
use std::test::Fail;

// The byte after the field is left alone.
#[test]
fn header(rt: HostRuntime) -> Result<(), Fail> {
    let mut out = [0xEE; 10];
    let item = Header {
        version: 1,
        label: 7,
    };
    assert_eq!(rt; write_field(&item, &mut out, 0)?, 9);
    assert_eq!(rt; out, [0x48, 0, 6, 0, 1, 0, 0, 0, 7, 0xEE]);
    assert_eq!(rt; read_field::<Header>(&out, 0)?, item);
    Ok(())
}

#[test]
fn resource(rt: HostRuntime) -> Result<(), Fail> {
    let mut out = [0; 21];
    let item = Resource {
        kind: 3,
        numbers: [5000, 20, 200, u32::MAX],
    };
    assert_eq!(rt; write_field(&item, &mut out, 0)?, 21);
    assert_eq!(rt;
        out,
        [
            0x52, 0, 18, 0, 3, 0, 0, 0x13, 0x88, 0, 0, 0, 20, 0, 0, 0, 200, 0xFF, 0xFF, 0xFF, 0xFF,
        ]
    );
    assert_eq!(rt; read_field::<Resource>(&out, 0)?, item);
    Ok(())
}

#[test]
fn activity(rt: HostRuntime) -> Result<(), Fail> {
    let mut out = [0; 15];
    let item = Activity {
        application: 1,
        resource: 2,
        sender: 255,
        turns: 64,
        demand: 1_000_000,
        jitter: 300,
    };
    assert_eq!(rt; write_field(&item, &mut out, 0)?, 15);
    assert_eq!(rt;
        out,
        [
            0x54, 0, 12, 1, 2, 255, 64, 0, 0x0F, 0x42, 0x40, 0, 0, 1, 0x2C
        ]
    );
    assert_eq!(rt; read_field::<Activity>(&out, 0)?, item);
    Ok(())
}

#[test]
fn short_ones(rt: HostRuntime) -> Result<(), Fail> {
    let mut out = [0; 40];
    let point = Point {
        latency: 100,
        cost: 1000,
    };
    let edge = Edge { from: 511, to: 512 };
    let cell = CellField {
        activity: 511,
        turn: 63,
        offset: 14_799,
    };
    let edge_at = write_field(&point, &mut out, 0)?;
    let cell_at = write_field(&edge, &mut out, edge_at)?;
    assert_eq!(rt; cell_at, 18);
    assert_eq!(rt; write_field(&cell, &mut out, cell_at)?, 28);
    assert_eq!(rt; read_field::<Point>(&out, 0)?, point);
    assert_eq!(rt; read_field::<Edge>(&out, 11)?, edge);
    assert_eq!(rt; read_field::<CellField>(&out, 18)?, cell);
    Ok(())
}
