//! Runs over memory, with workers. Texts and statuses are worked by hand, from the algebra and the rules of scripts.

ghost use Rattle.std.specs.Prelude.{◌≤◌};

use super::*;
use crew::{MeetGate, NoGate};
use plural_io::{MemSink, MemSource};
use std::test::Fail;

// Which read and which write fail (0: none).
#[derive(Clone, Copy)]
struct Faults {
    read: u32,
    write: u32,
}

const NONE: Faults = Faults { read: 0, write: 0 };

// The status and the text of a run over this script.
fn run_over<R: Threads + Wait + Sync, G: Gate + Sync>(
    rt: &R,
    alloc: Global,
    words: &str,
    script: &str,
    faults: Faults,
    gate: &G,
) -> Result<(u8, String), Fail> {
    let mut told = Vec::new(alloc);
    for word in words.split_whitespace() {
        told.push(String::from_str(alloc, word)?)?;
    }
    let mut source = MemSource::new(alloc, script.as_bytes(), 5, &[faults.read])?;
    let mut sink = MemSink::new(alloc, 4096, 2, &[faults.write])?;
    let status = run(rt, alloc, &told, &mut source, &mut sink, gate);
    Ok((status, String::from_utf8(sink.bytes().to_vec(alloc)?)?))
}

// Command words, the numbers of a read and of a write that fail (0: none), the status, the text written without its last
// line feed, and a script.
const RUNS: &str = "\
|0|0|0|x*d+1|ring r = 7,(x,d),dp; def W = nc_algebra(1,1); setring W; d*x;
--workers=3 --pairs 50|0|0|0|_[1]=1|ring r = 7,(x,d),dp; def W = nc_algebra(1,1); setring W; std(x,d);
--workers 64|0|0|0||// nothing is printed
--workers 0|1|0|2|? Words, expected [--workers N] [--pairs N] [--make K]|;
--workers 65|1|0|2|? Words, expected [--workers N] [--pairs N] [--make K]|;
--workers 4 --workers 4|1|0|2|? Words, expected [--workers N] [--pairs N] [--make K]|;
--pairs 0|1|0|2|? Words, expected [--workers N] [--pairs N] [--make K]|;
--workers 8|0|0|3|? line 1: Coefficient 1 2|ring r = 7,(x,d),dp; def W = nc_algebra(7,1);
--pairs=1 --workers=2|0|0|4|? line 1: BudgetSpent 1|ring r = 7,(x,d),dp; def W = nc_algebra(1,1); setring W; std(x,d);
|1|0|5||;
|0|2|6|_[|ring r = 7,(x,d),dp; def W = nc_algebra(1,1); setring W; std(x,d);
|0|0|1|? line 1 column 3: BadByte|; %
|0|0|1|? line 1 column 3: Unexpected|x y;
|0|0|1|? line 1 column 65: Deep|(((((((((((((((((((((((((((((((((((((((((((((((((((((((((((((((((
";

#[test]
fn answers_words_and_scripts(rt: HostRuntime) -> Result<(), Fail> {
    let alloc = rt.alloc();
    for row in RUNS.lines() {
        let fields: Vec<&str> = row.splitn(6, '|').collect(alloc)?;
        let [words, read, write, status, text, script] = fields.as_slice() else {
            return Err("a row has six fields".into());
        };
        let faults = Faults {
            read: read.parse()?,
            write: write.parse()?,
        };
        let (ended, written) = run_over(&rt, alloc, words, script, faults, &NoGate)?;
        let status: u8 = status.parse()?;
        assert_eq!(rt; ended, status, "{row}");
        assert_eq!(rt; written.trim_end(), *text, "{row}");
    }
    Ok(())
}

const REALISTIC: &str = "\
// Heisenberg algebra, five variables
ring r = 32003,(x,y,a,b,z),dp;
matrix D[5][5];
D[1,3] = z; D[2,4] = z;
def H = nc_algebra(1,D);
setring H;
option(redSB);
ideal I = x*a, y*b, z-1, a^2;
ideal J = std(I);
J;
cofactors(I);
NF(x*b*y + a*x, J);
summary(I);
quit;
";

const REALISTIC_TEXT: &str = "\
J[1]=z-1
J[2]=a
J[3]=y*b
_[1]=[0,0,1,0]
_[2]=[a,0,-a,-x]
_[3]=[0,1,0,0]
x+1
entries 14 new 5 zero 9 skipped 0 list 3
";

#[test]
fn workers_change_no_text(rt: HostRuntime) -> Result<(), Fail> {
    let alloc = rt.alloc();
    for words in ["--workers 1", "--workers 2", "--workers 8", "--workers 64"] {
        let (status, written) = run_over(&rt, alloc, words, REALISTIC, NONE, &NoGate)?;
        assert_eq!(rt; status, 0, "{words}");
        assert_eq!(rt; written.as_str(), REALISTIC_TEXT, "{words}");
    }
    Ok(())
}

#[test]
fn two_hands_meet(rt: HostRuntime) -> Result<(), Fail> {
    let alloc = rt.alloc();
    let gate = MeetGate::new(1000000000);
    let (status, written) = run_over(&rt, alloc, "--workers 2", REALISTIC, NONE, &gate)?;
    assert_eq!(rt; status, 0);
    assert_eq!(rt; written.as_str(), REALISTIC_TEXT);
    assert!(rt; gate.met());
    Ok(())
}
