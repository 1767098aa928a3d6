// Inputs that the one of standard input cannot be: those that open no store at first, and ends of an input.
use crate::running::run;
use std::alloc::Global;
use std::process::Abort;
use std::test::Fail;

// What is written for an input.
fn answers(rt: &impl Abort, heap: Global, input: &[u8], expected: &[u8]) -> Result<(), Fail> {
    let mut input = input;
    let mut output = Vec::new(heap);
    run(heap, &mut input, &mut output)?;
    assert!(rt; output.as_slice() == expected);
    Ok(())
}

#[test]
fn none_is_open_at_first(rt: HostRuntime) -> Result<(), Fail> {
    answers(
        &rt,
        rt.alloc(),
        b"count\nfrobnicate\ninsert 1 1\n\nstore row 4097\nfind 1\nstands 1\nstore row 1\ninsert 1 1",
        b"(call 1 (none open))\n(call 2 (unknown))\n(call 3 (none open))\n(call 4 (unknown))\n(call 5 (unknown))\n(call 6 (none open))\n(call 7 (none open))\n(call 8 (opened 1))\n(call 9 (done))\n",
    )
}

#[test]
fn nothing_is_answered_to_nothing(rt: HostRuntime) -> Result<(), Fail> {
    answers(&rt, rt.alloc(), b"", b"")
}

#[test]
fn a_line_end_at_the_end_begins_no_line(rt: HostRuntime) -> Result<(), Fail> {
    answers(
        &rt,
        rt.alloc(),
        b"\nlimit\n",
        b"(call 1 (unknown))\n(call 2 (none open))\n",
    )
}
