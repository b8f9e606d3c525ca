//! Texts of commands that are served while requests for memory are refused.

use clock2q_command::{Device, ServeError, serve};
use std::alloc::Global;
use std::test::Fail;
use testing::{Refusing, Tried, same_at, try_in_turn};

/// A line of each command, and their replies.
const EVERY_COMMAND: (&str, &str) = (
    "new 3\nslot 1 10\nput 1 10\nget 1\npeek 1\ncontains 1\nget_at 0 1\nset 1 11\nwith 2 20\ntry 3 30\n\
     try 4 fail\nlen\nis_empty\ncapacity\nretain 101\nremove 1\nclear\nprefill 5 6\nlen\n",
    "ok\n0 10\nsome 10\nsome 10\nsome 10\ntrue\nsome 10\nsome 10\n20\nok 30\n\
     failed\n3\nfalse\n3\nok\ntrue\nok\nok\n0\n",
);

/// Shares that the first line chooses.
const CHOSEN_SHARES: (&str, &str) = ("new 4 2 1\nput 1 10\nget 1\n", "ok\nnone\nsome 10\n");

/// Returns true if these are the replies to a text. Returns false if another text was written, or
/// if any was written before a refusal.
fn is_answered(
    alloc: &Refusing<Global>,
    out: Global,
    (text, replies): (&str, &str),
) -> Result<bool, ServeError> {
    let mut reader = Device::new(text.as_bytes());
    let mut writer = Device::new(Vec::new(out));
    let outcome = serve(alloc, &mut reader, &mut writer);
    let written = writer.into_inner();
    match outcome {
        Err(refusal) if written.is_empty() => Err(refusal),
        _ => Ok(outcome.is_ok() && written.as_slice() == replies.as_bytes()),
    }
}

/// Serves a text while its requests for memory are refused in turn.
fn is_refused_each(alloc: Global, case: (&str, &str)) -> Tried {
    let refusing = Refusing::new(alloc);
    try_in_turn(&refusing, true, ServeError::Memory, || {
        is_answered(&refusing, alloc, case)
    })
}

#[test]
fn refused_in_turn(rt: HostRuntime) -> Result<(), Fail> {
    for case in [EVERY_COMMAND, CHOSEN_SHARES] {
        let tried = is_refused_each(rt.alloc(), case);
        same_at(matches!(tried, Tried::Done(_)), true, tried)?;
    }
    Ok(())
}
