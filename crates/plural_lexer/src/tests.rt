// Worked scripts: their tokens, or the place of the first fault. Tables are texts, where `~` is a line feed and `!` a
// carriage return.
ghost use Rattle.std.specs.Prelude.{◌≤◌, length, IfOk};

use super::*;
use std::alloc::Global;
use std::test::Fail;

fn bytes_of(alloc: Global, text: &str) -> Result<Vec<u8>, Fail>
    ensures { IfOk result (λ bytes. length bytes.items ≤ 1048576) }
{
    let mut bytes = Vec::new(alloc);
    for byte in text.as_bytes() {
        bytes.push(match *byte {
            b'~' => b'\n',
            b'!' => b'\r',
            other => other,
        })?;
    }
    if bytes.len() > 1048576 {
        return Err("a script of a table is short".into());
    }
    Ok(bytes)
}

// Each token as its kind, its bytes and its place.
const SCRIPTS: &str = "\
|[End 0..0 at 1:1]
ring r=7;|[Reserved 0..4 at 1:1][Name 5..6 at 1:6][Sign 6..7 at 1:7][Int 7..8 at 1:8][Sign 8..9 at 1:9][End 9..9 at 1:10]
x~|[Name 0..1 at 1:1][End 2..2 at 2:1]
rings NF2 NF a_1|[Name 0..5 at 1:1][Name 6..9 at 1:7][Reserved 10..12 at 1:11][Name 13..16 at 1:14][End 16..16 at 1:17]
2x|[Int 0..1 at 1:1][Name 1..2 at 1:2][End 2..2 at 1:3]
x//2;|[Name 0..1 at 1:1][End 5..5 at 1:6]
x!y~!z|[Name 0..1 at 1:1][Name 2..3 at 1:3][Name 5..6 at 2:2][End 6..6 at 2:3]
/*/x/**/*/y|[Sign 8..9 at 1:9][Sign 9..10 at 1:10][Name 10..11 at 1:11][End 11..11 at 1:12]
000000000000000018/2|[Int 0..18 at 1:1][Sign 18..19 at 1:19][Int 19..20 at 1:20][End 20..20 at 1:21]
ring setring def poly ideal module matrix option short quit nc_algebra std twostd NF reduce eliminate syz cofactors twochain summary|[Reserved 0..4 at 1:1][Reserved 5..12 at 1:6][Reserved 13..16 at 1:14][Reserved 17..21 at 1:18][Reserved 22..27 at 1:23][Reserved 28..34 at 1:29][Reserved 35..41 at 1:36][Reserved 42..48 at 1:43][Reserved 49..54 at 1:50][Reserved 55..59 at 1:56][Reserved 60..70 at 1:61][Reserved 71..74 at 1:72][Reserved 75..81 at 1:76][Reserved 82..84 at 1:83][Reserved 85..91 at 1:86][Reserved 92..101 at 1:93][Reserved 102..105 at 1:103][Reserved 106..115 at 1:107][Reserved 116..124 at 1:117][Reserved 125..132 at 1:126][End 132..132 at 1:133]
=,;()[]+-*/^|[Sign 0..1 at 1:1][Sign 1..2 at 1:2][Sign 2..3 at 1:3][Sign 3..4 at 1:4][Sign 4..5 at 1:5][Sign 5..6 at 1:6][Sign 6..7 at 1:7][Sign 7..8 at 1:8][Sign 8..9 at 1:9][Sign 9..10 at 1:10][Sign 10..11 at 1:11][Sign 11..12 at 1:12][End 12..12 at 1:13]";

#[test]
fn tokens_of_scripts(rt: HostRuntime) -> Result<(), Fail> {
    let alloc = rt.alloc();
    for row in SCRIPTS.lines() {
        let (script, want) = row.split_once('|').ok_or("a row has a bar")?;
        let mut shown = String::new(alloc);
        let bytes = bytes_of(alloc, script)?;
        for token in &tokens(alloc, &bytes)? {
            let Token {
                kind,
                start,
                end,
                line,
                column,
            } = *token;
            write!(shown, "[{kind:?} {start}..{end} at {line}:{column}]")?;
        }
        assert_eq!(rt; shown.as_str(), want);
    }
    Ok(())
}

const FAULTS: &str = "\
/*|OpenComment { line: 1, column: 1 }
/*/|OpenComment { line: 1, column: 1 }
a /* * /~|OpenComment { line: 1, column: 3 }
ring r = 7,(x(1..2)),dp;|BadByte { line: 1, column: 16 }
x+1234567890123456789?|LongNumber { line: 1, column: 3 }
?1234567890123456789|BadByte { line: 1, column: 1 }
_x|BadByte { line: 1, column: 1 }
x!y~!z!~!{|BadByte { line: 3, column: 2 }
// ? ~?|BadByte { line: 2, column: 1 }";

#[test]
fn places_of_faults(rt: HostRuntime) -> Result<(), Fail> {
    let alloc = rt.alloc();
    for row in FAULTS.lines() {
        let (script, want) = row.split_once('|').ok_or("a row has a bar")?;
        let bytes = bytes_of(alloc, script)?;
        let fault = tokens(alloc, &bytes).err().ok_or("a fault")?;
        let shown = format!(in alloc; "{fault:?}")?;
        assert_eq!(rt; shown.as_str(), want);
    }
    Ok(())
}

// Texts with the numbers of at most nine digits that they spell.
const NUMBERS: &str = "\
|None
0|Some(0)
007|Some(7)
999999999|Some(999999999)
0000000001|None
1a|None
-1|None";

#[test]
fn numbers_of_texts(rt: HostRuntime) -> Result<(), Fail> {
    for row in NUMBERS.lines() {
        let (text, want) = row.split_once('|').ok_or("a row has a bar")?;
        let found = number_of(text.as_bytes(), 9);
        let shown = format!(in rt.alloc(); "{found:?}")?;
        assert_eq!(rt; shown.as_str(), want);
    }
    Ok(())
}
