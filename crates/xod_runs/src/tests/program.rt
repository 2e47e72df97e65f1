//! Inputs too large to stand in a file.
use super::ran;
use std::test::Fail;
use xod_base::INPUT_LIMIT;

#[test]
fn an_input_of_the_limit_is_read_and_a_longer_one_is_told(rt: HostRuntime) -> Result<(), Fail> {
    let alloc = rt.alloc();
    // A comment without end, and nothing else.
    let mut input = Vec::with_capacity(alloc, INPUT_LIMIT + 2)?;
    input.push(b'#')?;
    input.resize(INPUT_LIMIT, b'x')?;
    let run = ran(alloc, &["replay"], &input, (&[], &[]))?;
    assert_eq!(rt; run.status, 0);
    assert_eq!(rt;
        run.text.as_slice(),
        b"total commit 0 hits 0 misses 0 files 1\norder\n".as_slice()
    );
    // One byte more, and a bad line before it: the length is told first, and no byte behind the one too many is read.
    input.truncate(0);
    input.extend_from_slice(b"frob\n#")?;
    input.resize(INPUT_LIMIT + 2, b'x')?;
    let run = ran(alloc, &["replay"], &input, (&[], &[]))?;
    assert_eq!(rt; run.status, 3);
    assert_eq!(rt; run.text.as_slice(), b"xod: script too long\n".as_slice());
    assert_eq!(rt; run.left, 1);
    input.truncate(INPUT_LIMIT);
    let run = ran(alloc, &["replay"], &input, (&[], &[]))?;
    assert_eq!(rt; run.status, 3);
    assert_eq!(rt; run.text.as_slice(), b"xod: script line 1\n".as_slice());
    Ok(())
}
