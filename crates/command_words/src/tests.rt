// Rows of words, and what each program reads in them. No word of a table has a blank; `""` stands for the empty word.
use super::*;
use std::alloc::Global;
use std::test::Fail;

fn answer(alloc: Global, row: &str, program: Program) -> Result<String, Fail> {
    let mut words = Vec::new(alloc);
    for word in row.split(' ') {
        words.push(String::from_str(alloc, if word == "\"\"" { "" } else { word })?)?;
    }
    let found = read_words(&words, program);
    match found {
        None => Ok(String::from_str(alloc, "refused")?),
        Some(
            Settings {
                workers,
                pairs,
                make,
            },
        ) => Ok(format!(in alloc; "{workers} {pairs} {make:?}")?),
    }
}

// Words, what a program with threads reads in them, and what a program with one worker does.
const WORDS: &str = "\
--pairs 7|4 7 None|4 7 None
--pairs=007|4 7 None|4 7 None
--pairs 1000000 --make=0|4 1000000 Some(0)|4 1000000 Some(0)
--make 999999999 --workers=64 --pairs 1|64 1 Some(999999999)|refused
--workers 1|1 100000 None|refused
--workers 0|refused|refused
--workers 65|refused|refused
--pairs 0|refused|refused
--pairs 1000001|refused|refused
--pairs 5 --pairs 6|refused|refused
--make 1 --make=1|refused|refused
--make 0000000001|refused|refused
--make -1|refused|refused
--pairs=|refused|refused
--pairs|refused|refused
--pairs --make 1|refused|refused
--pairs 5=6|refused|refused
--pairs 5 6|refused|refused
--|refused|refused
--pairs 5 --|refused|refused
-h|refused|refused
--help|refused|refused
--version|refused|refused
--pair 5|refused|refused
\"\"|refused|refused";

#[test]
fn words_of_both_programs(rt: HostRuntime) -> Result<(), Fail> {
    let alloc = rt.alloc();
    assert!(rt; read_words(&[], Program::Threads).is_some());
    for row in WORDS.lines() {
        let (words, wants) = row.split_once('|').ok_or("a row has a bar")?;
        let (threads, one) = wants.split_once('|').ok_or("a row has two bars")?;
        let found = answer(alloc, words, Program::Threads)?;
        assert_eq!(rt; found.as_str(), threads);
        let found = answer(alloc, words, Program::One)?;
        assert_eq!(rt; found.as_str(), one);
    }
    Ok(())
}
