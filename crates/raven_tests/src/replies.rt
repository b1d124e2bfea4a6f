//! The reply that no script is given, since a store is never so full.
use raven_reply::{Reply, reply_text};
use std::alloc::Global;
use std::test::Fail;

fn is_printed(alloc: Global, reply: &Reply, wanted: &str) -> Result<bool, Fail> {
    Ok(reply_text(alloc, reply)?.as_slice() == wanted.as_bytes())
}

#[test]
fn a_full_store_is_a_reply(rt: HostRuntime) -> Result<(), Fail> {
    let reply = Reply::StoreFull {
        at: 5,
        rows: 4_000_000,
    };
    let wanted = "{\"At\":5,\"Error\":\"StoreFull\",\"Rows\":4000000}";
    assert!(rt; is_printed(rt.alloc(), &reply, wanted)?);
    Ok(())
}
