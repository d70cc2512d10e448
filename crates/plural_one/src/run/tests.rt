//! Runs over memory. Texts and statuses are worked by hand, from the algebra and the rules of scripts.

ghost use Rattle.std.specs.Prelude.{◌≤◌};

use super::*;
use case_maker::script_of;
use plural_io::{MemSink, MemSource};
use std::alloc::AllocError;
use std::test::Fail;

// The status and the text of a run whose reads and writes move at most `per_call` bytes, and fail at the given calls.
fn run_over(
    alloc: Global,
    words: &[String],
    script: &[u8],
    per_call: usize,
    read_fails: u32,
    write_fails: u32,
) -> Result<(u8, Vec<u8>), AllocError>
    requires { 1 ≤ per_call }
{
    let mut source = MemSource::new(alloc, script, per_call, &[read_fails])?;
    let mut sink = MemSink::new(alloc, 4096, per_call, &[write_fails])?;
    let status = run_one(alloc, words, &mut source, &mut sink);
    Ok((status, sink.bytes().to_vec(alloc)?))
}

// The words of a line.
fn words_of(alloc: Global, line: &str) -> Result<Vec<String>, AllocError> {
    let mut words = Vec::new(alloc);
    for word in line.split_whitespace() {
        words.push(String::from_str(alloc, word)?)?;
    }
    Ok(words)
}

// The lines of a text with `$` for each line feed.
fn lines_of(alloc: Global, text: &str) -> Result<Vec<u8>, AllocError> {
    let mut lines = text.as_bytes().to_vec(alloc)?;
    for byte in lines.iter_mut() {
        if *byte == b'$' {
            *byte = b'\n';
        }
    }
    Ok(lines)
}

// Command words, the numbers of a read and of a write that fail (0: none), the status, the text written, and a script.
const RUNS: &str = "\
|0|0|0|x*d+1$|ring r = 7,(x,d),dp;$def W = nc_algebra(1,1); setring W;$d*x;$
|0|0|0||// nothing is printed$;;$
|0|0|0||
|0|0|0|x$|ring r = 7,(x,d),dp; x; quit; y;$
--pairs 9 --pairs 9|0|0|2|? Words, expected [--pairs N] [--make K]$|;
--workers 4|1|0|2|? Words, expected [--pairs N] [--make K]$|;
|0|0|3|? line 1: Coefficient 1 2$|ring r = 7,(x,d),dp; def W = nc_algebra(7,1);
--pairs=1|0|0|4|x$? line 3: BudgetSpent 1$|ring r = 7,(x,d),dp;$def W = nc_algebra(1,1); setring W; x;$std(x,d);
|1|0|5||;
|0|2|6|x*|ring r = 7,(x,d),dp;$def W = nc_algebra(1,1); setring W;$d*x;$
|0|0|1|? line 2 column 3: BadByte$|;$; %$
|0|0|1|? line 1 column 3: Unexpected$|x y;$
|0|0|1|? line 1 column 65: Deep$|(((((((((((((((((((((((((((((((((((((((((((((((((((((((((((((((((
|0|0|0|3$|ring r = 7,x,dp;$000000000000000003;
|0|0|1|? line 2 column 1: LongNumber$|ring r = 7,x,dp;$0000000000000000003;
|0|0|0|x$|ring r = 7,x,dp;$((((((((((((((((((((((((((((((((((((((((((((((((((((((((((((((((x))))))))))))))))))))))))))))))))))))))))))))))))))))))))))))))));
|0|0|1|? line 2: Limit$|ring r = 7,x,dp;$matrix D[17][1];
|0|0|0||ring r = 7,x,dp;$ring s = 7,(a,b,c,d,e,f,g,h,i,j,k,l,m,n,o,p),dp;
|0|0|1|? line 2: Limit$|ring r = 7,x,dp;$ring s = 7,(a,b,c,d,e,f,g,h,i,j,k,l,m,n,o,p,q),dp;
|0|0|0||ring r = 7,x,dp;$ring s = 7,x,wp(65535);
|0|0|1|? line 2: BadOrder$|ring r = 7,x,dp;$ring s = 7,x,wp(65536);
|0|0|1|? line 2 column 1: BadByte$|ring r = 7,x,dp;$\0
";

#[test]
fn answers_words_and_scripts(rt: HostRuntime) -> Result<(), Fail> {
    let alloc = rt.alloc();
    for row in RUNS.lines() {
        let fields: Vec<&str> = row.splitn(6, '|').collect(alloc)?;
        let [words, read, write, status, text, script] = fields.as_slice() else {
            return Err("a row has six fields".into());
        };
        let words = words_of(alloc, words)?;
        let script = lines_of(alloc, script)?;
        let (ended, written) = run_over(alloc, &words, &script, 2, read.parse()?, write.parse()?)?;
        let status: u8 = status.parse()?;
        assert_eq!(rt; ended, status, "{row}");
        let text = lines_of(alloc, text)?;
        assert_eq!(rt; written.as_slice(), text.as_slice(), "{row}");
    }
    Ok(())
}

// Whose basis prints as the seven bytes of `_[1]=1` and a line feed.
const WEYL: &[u8] = b"ring r = 7,(x,d),dp;\ndef W = nc_algebra(1,1); setring W;\nstd(x,d);\n";

const WEYL_TEXT: &[u8] = b"_[1]=1\n";

#[test]
fn prints_nothing_where_a_read_fails(rt: HostRuntime) -> Result<(), Fail> {
    let reads = WEYL.len() as u32 + 1;
    for fails in 1..reads + 1 {
        let (status, written) = run_over(rt.alloc(), &[], WEYL, 1, fails, 0)?;
        assert_eq!(rt; status, 5, "read {fails}");
        assert!(rt; written.is_empty(), "read {fails}");
    }
    Ok(())
}

#[test]
fn prints_up_to_the_write_that_fails(rt: HostRuntime) -> Result<(), Fail> {
    for taken in 0..WEYL_TEXT.len() {
        let (status, written) = run_over(rt.alloc(), &[], WEYL, 1, 0, taken as u32 + 1)?;
        assert_eq!(rt; status, 6, "{taken}");
        assert_eq!(rt; written.as_slice(), &WEYL_TEXT[..taken]);
    }
    Ok(())
}

#[test]
fn prints_as_much_as_the_sink_holds(rt: HostRuntime) -> Result<(), Fail> {
    for room in 0..WEYL_TEXT.len() + 1 {
        let mut source = MemSource::new(rt.alloc(), WEYL, 1, &[])?;
        let mut sink = MemSink::new(rt.alloc(), room, 1, &[])?;
        let status = run_one(rt.alloc(), &[], &mut source, &mut sink);
        assert_eq!(rt; status, if room == WEYL_TEXT.len() { 0 } else { 6 });
        assert_eq!(rt; sink.bytes(), &WEYL_TEXT[..room]);
    }
    Ok(())
}

#[test]
fn refuses_long_scripts(rt: HostRuntime) -> Result<(), Fail> {
    let alloc = rt.alloc();
    let most = vec![in alloc; b' '; 1048576]?;
    let (status, written) = run_over(alloc, &[], &most, 4096, 0, 0)?;
    assert_eq!(rt; status, 0);
    assert!(rt; written.is_empty());
    let one_more = vec![in alloc; b' '; 1048577]?;
    let (status, written) = run_over(alloc, &[], &one_more, 4096, 0, 0)?;
    assert_eq!(rt; status, 1);
    assert_eq!(rt; written.as_slice(), b"? TooLong\n".as_slice());
    Ok(())
}

// A script that declares an ideal of so many zeros.
fn zeros(alloc: Global, count: usize) -> Result<Vec<u8>, AllocError> {
    let mut script = b"ring r = 7,x,dp;\nideal I = 0".to_vec(alloc)?;
    for _more in 1..count {
        script.extend_from_slice(b",0")?;
    }
    script.push(b';')?;
    Ok(script)
}

#[test]
fn takes_4096_generators(rt: HostRuntime) -> Result<(), Fail> {
    let alloc = rt.alloc();
    let (status, written) = run_over(alloc, &[], &zeros(alloc, 4096)?, 4096, 0, 0)?;
    assert_eq!(rt; status, 0);
    assert!(rt; written.is_empty());
    let (status, written) = run_over(alloc, &[], &zeros(alloc, 4097)?, 4096, 0, 0)?;
    assert_eq!(rt; status, 1);
    assert_eq!(rt; written.as_slice(), b"? line 2: Limit\n".as_slice());
    Ok(())
}

#[test]
fn makes_scripts(rt: HostRuntime) -> Result<(), Fail> {
    let alloc = rt.alloc();
    let words = words_of(alloc, "--make 0")?;
    let (status, written) = run_over(alloc, &words, b"", 4096, 1, 0)?;
    assert_eq!(rt; status, 0);
    assert!(rt; written.starts_with(b"entries "));
    let script = script_of(alloc, 0)?;
    let (_, same) = run_over(alloc, &[], &script, 4096, 0, 0)?;
    assert_eq!(rt; written.as_slice(), same.as_slice());
    Ok(())
}
