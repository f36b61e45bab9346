//! Random keys, put into drafts and merged, against a list that is searched from one end to the other.
use feed_index::{Draft, FeedIndex};
use gw_base::Bytes;
use std::alloc::{AllocError, Global};
use std::process::Abort;
use std::test::Fail;

// The next of some random numbers.
fn next(state: u64) -> u64 {
    state
        .wrapping_mul(6_364_136_223_846_793_005)
        .wrapping_add(1_442_695_040_888_963_407)
}

// Puts a value at a key of a plain list.
fn put_plain(plain: &mut Vec<(u32, u8)>, key: u32, value: u8) -> Result<(), AllocError> {
    for i in 0..plain.len() {
        if plain[i].0 == key {
            plain[i].1 = value;
            return Ok(());
        }
    }
    plain.push((key, value))?;
    Ok(())
}

// Drops the first so many of a plain list in the order of keys.
fn cut_plain(plain: &mut Vec<(u32, u8)>, n: usize) -> Result<(), AllocError> {
    plain.sort_by_key(|one| one.0)?;
    for _ in 0..n {
        if !plain.is_empty() {
            let _gone = plain.remove(0);
        }
    }
    Ok(())
}

fn expect_plain(rt: &impl Abort, draft: &Draft<'_, u32, u8>, plain: &[(u32, u8)]) {
    assert_eq!(rt; draft.len(), plain.len() as u64);
    for one in plain {
        assert_eq!(rt; draft.find(&one.0).copied(), Some(one.1));
    }
    assert!(rt; draft.find(&1_000).is_none());
}

// One delivery of random keys below 600 over an index whose first entries go.
fn deliver(
    rt: &impl Abort,
    alloc: Global,
    index: &mut FeedIndex<u32, u8>,
    plain: &mut Vec<(u32, u8)>,
    seed: u64,
) -> Result<(), AllocError> {
    let gone = index.len().min(7);
    cut_plain(plain, gone as usize)?;
    let mut draft = Draft::over(alloc, index, gone);
    let mut state = seed;
    for _ in 0..500 {
        state = next(state);
        let (key, value) = (((state >> 33) % 600) as u32, ((state >> 20) % 251) as u8);
        draft.put(key, value, Bytes::copied(alloc, &[value])?)?;
        put_plain(plain, key, value)?;
    }
    expect_plain(rt, &draft, plain);
    let batch = draft.into_batch();
    index.prepare_for(&batch)?;
    index.cut_front(gone);
    index.merge(batch);
    Ok(())
}

#[test]
fn random_keys_in_three_deliveries(rt: HostRuntime) -> Result<(), Fail> {
    let mut index = FeedIndex::make(rt.alloc());
    let mut plain = Vec::new(rt.alloc());
    for seed in [1, 2, 3] {
        deliver(&rt, rt.alloc(), &mut index, &mut plain, seed)?;
    }
    plain.sort_by_key(|one| one.0)?;
    assert_eq!(rt; index.len(), plain.len() as u64);
    for i in 0..plain.len() {
        let (key, value) = plain[i];
        assert_eq!(rt; index.find(&key).ok_or("key")?.1, [value].as_slice());
    }
    Ok(())
}
