//! Maps made of sorted pairs, and the size of a counter.
use paged_map::{PagedMap, is_rising};
use raven_base::Steps;
use std::alloc::Global;
use std::marker::Brand;
use std::mem::size_of;
use std::test::Fail;

fn made(alloc: Global, count: u32) -> Result<PagedMap<u32, u32>, Fail> {
    let mut pairs = Vec::new(alloc);
    for key in 0..count {
        pairs.push((key, key ^ 5))?;
    }
    if !is_rising(&pairs) {
        return Err(Fail::new("the keys do not rise"));
    }
    Ok(PagedMap::from_sorted(alloc, pairs)?)
}

// How many pairs are in their places before the first that is not.
fn in_place(map: &PagedMap<u32, u32>) -> u32 {
    let mut count = 0u32;
    for pair in map.iter() {
        if *pair != (count, count ^ 5) {
            return count;
        }
        count = count.wrapping_add(1);
    }
    count
}

// From no page above the first to three levels of them.
#[test]
fn a_map_of_sorted_pairs_has_them(rt: HostRuntime) -> Result<(), Fail> {
    for count in [0, 1, 64, 65, 2_049, 70_000] {
        let map = made(rt.alloc(), count)?;
        assert_eq!(rt; in_place(&map), count);
        assert_eq!(rt; map.len(), u64::from(count));
    }
    Ok(())
}

#[test]
fn a_counter_takes_no_bytes(rt: HostRuntime) {
    assert_eq!(rt; size_of::<Steps<Brand>>(), 0);
}
