use crate::lists::{is_written, numbers};
use crate::tables::{Pair, program, sized};
use pieces::rows::NO_SUCCESSOR;
use std::alloc::{AllocError, Global};
use std::test::Fail;

#[test]
fn lists_that_a_column_is(rt: HostRuntime) {
    let lists = [
        ("1,20,4294967295", true),
        ("01,+20,4294967295", true),
        ("1,20", false),
        ("1,20,4294967295,0", false),
        ("1,20,4294967296", false),
        ("1,x,4294967295", false),
        ("1,,4294967295", false),
        ("", false),
    ];
    for (list, wanted) in lists {
        let is_said = is_written(&[1u32, 20, 4294967295], list);
        assert!(rt; is_said == wanted, "at {list}");
    }
    assert!(rt; is_written(&[-1i64], "-1"));
    assert!(rt; is_written(&[65535u16, 0], "65535,0"));
    // an empty list has one item, which is no number
    assert!(rt; !is_written::<u64>(&[], ""));
}

#[test]
fn numbers_of_lists(rt: HostRuntime) -> Result<(), Fail> {
    let alloc = rt.alloc();
    let small = numbers::<u16>(alloc, "0,65535,65536,+7,x,")?;
    assert!(rt; small.as_slice() == [0u16, 65535, 0, 7, 0, 0].as_slice());
    let signed = numbers::<i64>(alloc, "-9223372036854775808,%2*1")?;
    assert!(rt; signed.as_slice() == [-9223372036854775808i64, 11].as_slice());
    // more than 64 bytes, and an empty list
    let zeros = numbers::<u32>(alloc, "%1023*,")?;
    assert!(rt; zeros.len() == 1024);
    let none = numbers::<u32>(alloc, "")?;
    assert!(rt; none.is_empty());
    Ok(())
}

// The first successors of four blocks, by the edge back.
fn circle(alloc: Global, back: u16) -> Result<Vec<u16>, AllocError> {
    let pair = sized(alloc, 4, 2, false, Some(back))?;
    Ok(pair.blocks.first)
}

#[test]
fn tables_by_their_size(rt: HostRuntime) -> Result<(), Fail> {
    let alloc = rt.alloc();
    let plain = sized(alloc, 4, 2, true, None)?;
    assert!(rt; plain.blocks.first.as_slice() == [NO_SUCCESSOR; 4].as_slice());
    assert!(rt; plain.blocks.inner.as_slice() == [0u16, 1, 0, 0].as_slice());
    assert!(rt; circle(alloc, 0)?.as_slice() == [1, 2, 0, NO_SUCCESSOR].as_slice());
    assert!(rt; circle(alloc, 1)?.as_slice() == [1, 2, 1, NO_SUCCESSOR].as_slice());
    assert!(rt;
        circle(alloc, NO_SUCCESSOR)?.as_slice() == [1, 2, NO_SUCCESSOR, NO_SUCCESSOR].as_slice()
    );
    let single = sized(alloc, 1, 1, false, Some(0))?;
    assert!(rt; single.blocks.first.as_slice() == [NO_SUCCESSOR].as_slice());
    // more blocks than a table may have
    let most = sized(alloc, 65535, 0, false, None)?;
    assert!(rt; most.blocks.cost.len() == 65535);
    Ok(())
}

// What a program of four blocks in three loops has by the header of the last one: its second successors, its loops and their headers.
fn star(alloc: Global, header: u16) -> Result<(Vec<u16>, Vec<u16>, Vec<u16>), AllocError> {
    let Pair { blocks, loops } = program(alloc, 4, 3, Some(header))?;
    Ok((blocks.second, blocks.inner, loops.header))
}

#[test]
fn programs_by_their_size(rt: HostRuntime) -> Result<(), Fail> {
    let alloc = rt.alloc();
    let row = program(alloc, 4, 3, None)?;
    assert!(rt; row.blocks.second.as_slice() == [1u16, 2, 3, NO_SUCCESSOR].as_slice());
    assert!(rt; row.loops.limit.as_slice() == [1u32, 65535, 65535].as_slice());
    let (second, inner, header) = star(alloc, 3)?;
    assert!(rt; second.as_slice() == [3, 3, 3, NO_SUCCESSOR].as_slice());
    assert!(rt; inner.as_slice() == [0u16, 1, 0, 2].as_slice());
    assert!(rt; header.as_slice() == [0u16, 1, 3].as_slice());
    let (second, inner, header) = star(alloc, 0)?;
    assert!(rt; second.as_slice() == [0, 0, 0, NO_SUCCESSOR].as_slice());
    assert!(rt; inner.as_slice() == [2u16, 1, 0, 0].as_slice());
    assert!(rt; header.as_slice() == [0u16, 1, 0].as_slice());
    let none = program(alloc, 0, 0, Some(0))?;
    assert!(rt; none.blocks.cost.is_empty());
    Ok(())
}
