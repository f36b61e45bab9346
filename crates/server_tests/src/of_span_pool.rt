//! A span that moves when one before it was given back.
use span_pool::*;
use std::test::Fail;

#[test]
fn a_span_keeps_its_bytes_when_one_before_it_is_given_back(rt: HostRuntime) -> Result<(), Fail> {
    let mut pool = SpanPool::make(rt.alloc());
    pool.reserve(9, 3)?;
    let first = pool.put(b"abc");
    let second = pool.put(b"de");
    let third = pool.put(b"fghi");
    pool.give_back(second);
    assert_eq!(rt; (pool.live(), pool.dead(), pool.len()), (7, 2, 9));
    pool.compact();
    assert_eq!(rt; (pool.live(), pool.dead(), pool.len()), (7, 0, 7));
    assert_eq!(rt; pool.span(&first), b"abc".as_slice());
    assert_eq!(rt; pool.span(&third), b"fghi".as_slice());
    Ok(())
}
