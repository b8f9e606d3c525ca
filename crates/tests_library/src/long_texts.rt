//! Texts that are no lines of `cases`: long ones, and one for the largest cache.

use clock2q_command::{Device, ServeError, serve};
use std::alloc::{AllocError, Global};
use std::test::Fail;
use testing::same;

/// Returns the result of `serve` for a text, and the text that it writes.
fn served(alloc: Global, text: &[u8]) -> (Result<(), ServeError>, Vec<u8>) {
    let mut reader = Device::new(text);
    let mut writer = Device::new(Vec::new(alloc));
    let outcome = serve(alloc, &mut reader, &mut writer);
    (outcome, writer.into_inner())
}

/// Returns the line, followed by the others 20,000 times.
fn repeated(alloc: Global, line: &str, others: &str) -> Result<String, AllocError> {
    let mut text = String::from_str(alloc, line)?;
    for _ in 0..20_000 {
        text.push_str(others)?;
    }
    Ok(text)
}

/// Returns the result for a text, and true if exactly these replies are written.
fn is_answered(alloc: Global, text: &str, replies: &str) -> (Result<(), ServeError>, bool) {
    let (outcome, written) = served(alloc, text.as_bytes());
    (outcome, written.as_slice() == replies.as_bytes())
}

/// More lines than one block of the input holds.
#[test]
fn many_lines(rt: HostRuntime) -> Result<(), Fail> {
    let mut text = repeated(rt.alloc(), "new 2\nput 1 10\n", "get 1\nget 2\n")?;
    let replies = repeated(rt.alloc(), "ok\nnone\n", "some 10\nnone\n")?;
    same(is_answered(rt.alloc(), &text, &replies), (Ok(()), true))?;
    text.push_str("get\n")?;
    let refusal = Err(ServeError::BadLine(40_003));
    same(is_answered(rt.alloc(), &text, ""), (refusal, true))
}

#[test]
fn largest_capacity(rt: HostRuntime) -> Result<(), Fail> {
    let replies = "ok\n16777215\ntrue\n";
    let got = is_answered(rt.alloc(), "new 16777215\ncapacity\nis_empty\n", replies);
    same(got, (Ok(()), true))
}

/// The line and the status of each refusal.
#[test]
fn reported(rt: HostRuntime) -> Result<(), Fail> {
    let rows = [
        (ServeError::BadLine(1), "line 1: bad command", 2),
        (ServeError::BadLine(10), "line 10: bad command", 2),
        (ServeError::Capacity, "capacity refused", 3),
        (ServeError::Policy, "policy refused", 5),
        (ServeError::Memory, "no memory", 3),
        (ServeError::Read, "read failed", 4),
        (ServeError::Write, "write failed", 4),
    ];
    for (refusal, line, status) in rows {
        let text = refusal.to_string(rt.alloc())?;
        same((text.as_str(), refusal.status()), (line, status))?;
    }
    Ok(())
}
