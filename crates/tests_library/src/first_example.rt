//! The example on the page of the library, run.
use clock2q::Cache;
use std::num::NonZeroUsize;
use std::test::Fail;

#[test]
fn first_example(rt: HostRuntime) -> Result<(), Fail> {
    let capacity = NonZeroUsize::new(100).ok_or("not zero")?;
    let mut cache = Cache::new(rt.alloc(), capacity)?;
    cache.put(1u64, 10u64);
    assert_eq!(rt; cache.get(&1), Some(&10));
    Ok(())
}
