//! Command lines and their requests. A table has the words of a command in each line, with one blank between two, and
//! after an arrow the request; lines that begin with two strokes are no rows.

use bb_args::{FileComparison, Wanted, WordsFault, read_words};
use bb_options::Options;
use std::alloc::{AllocError, Global};
use std::process::Abort;
use std::test::Fail;

fn words(alloc: Global, line: &str) -> Result<Vec<String>, AllocError> {
    let mut words = Vec::new(alloc);
    for word in line.split(' ') {
        words.push(String::from_str(alloc, word)?)?;
    }
    Ok(words)
}

// The first check and the last, `all`, patterns and seed; nodes, clauses, cache and `proof`; then `shared` and `fill`
// where they are set.
fn print_options(out: &mut String, options: &Options, fill: bool) -> Result<(), AllocError> {
    let (from, to) = (options.from.name(), options.to.name());
    write!(out, "{from} {to} {}", options.all)?;
    write!(out, " {} {}", options.patterns, options.seed)?;
    write!(out, " {} {}", options.nodes, options.clauses)?;
    write!(out, " {} {}", options.cache, options.proof)?;
    out.push_str(if options.shared { " shared" } else { "" })?;
    out.push_str(if fill { " fill" } else { "" })
}

// Files and tops, options, and the care output or the invariant where there is one.
fn print_comparison(out: &mut String, requested: &FileComparison<'_>) -> Result<(), AllocError> {
    write!(out, "{} {}", requested.spec, requested.imp)?;
    write!(out, " {}", requested.top_spec.unwrap_or("none"))?;
    write!(out, " {} ", requested.top_imp.unwrap_or("none"))?;
    print_options(out, &requested.options, requested.fill)?;
    if let Some(text) = requested.care {
        write!(out, " care {text}")?;
    }
    match requested.invariant {
        Some(text) => write!(out, " invariant {text}"),
        None => Ok(()),
    }
}

fn printed(alloc: Global, words: &[String]) -> Result<String, AllocError> {
    let mut out = String::new(alloc);
    match read_words(alloc, words) {
        Ok(Wanted::Comparison(requested)) => print_comparison(&mut out, &requested)?,
        Ok(Wanted::MadePair { n, fill, options }) => {
            write!(out, "make {n} ")?;
            print_options(&mut out, &options, fill)?;
        }
        Ok(Wanted::Refutation { cnf, adds }) => write!(out, "rup {cnf} {adds}")?,
        Err(WordsFault::Usage) => out.push_str("refused")?,
        Err(WordsFault::NoMemory) => out.push_str("no memory")?,
    }
    Ok(out)
}

fn rows(rt: &impl Abort, alloc: Global, table: &str) -> Result<(), Fail> {
    for row in table.lines() {
        if !row.starts_with("//") {
            let (line, expected) = row.split_once(" => ").unwrap_or((row, ""));
            let words = words(alloc, line)?;
            let found = printed(alloc, &words)?;
            assert_eq!(rt; found.as_str(), expected, "{line}");
        }
    }
    Ok(())
}

const REFUSED: &str = "\
// two files, and no more
bbeq => refused
bbeq a => refused
bbeq a b c => refused
bbeq  b => refused
bbeq a  => refused
bbeq -- a b c => refused
// twice
bbeq a b --all --all => refused
bbeq a b --proof --all --proof => refused
bbeq --shared a b --shared => refused
bbeq --fill a b --fill => refused
bbeq a b --seed 1 --seed=2 => refused
bbeq a b --care k --care k => refused
bbeq a b --invariant k --invariant k => refused
bbeq a b --top-spec m --top-spec m => refused
// unknown
bbeq a b -h => refused
bbeq a b --help => refused
bbeq a b -V => refused
bbeq a b --version => refused
bbeq a b --node 1 => refused
bbeq a b --spec a => refused
bbeq a b -s 1 => refused
bbeq a -b => refused
// no value, an empty one, or one on a flag
bbeq a b --nodes => refused
bbeq a b --nodes --all => refused
bbeq a b --seed -1 => refused
bbeq a b --top-spec= => refused
bbeq a b --top-impl  => refused
bbeq a b --nodes= => refused
bbeq a b --from= => refused
bbeq a b --all=1 => refused
bbeq a b --proof= => refused
bbeq a b --shared=bx => refused
bbeq a b --fill=x => refused
bbeq a b --care => refused
bbeq a b --care= => refused
bbeq a b --care  => refused
bbeq a b --invariant => refused
bbeq a b --invariant= => refused
bbeq a b --invariant  => refused
// a care output and an invariant
bbeq a b --care k --invariant m => refused
bbeq a b --invariant k --care k => refused
// no name of a bit
bbeq a b --care=k\u{7f} => refused
bbeq a b --care k\tm => refused
bbeq a b --care ä => refused
bbeq a b --invariant k\tm => refused
bbeq a b --invariant ä => refused
// no number within the bounds
bbeq a b --seed 0 => refused
bbeq a b --seed=18446744073709551616 => refused
bbeq a b --seed 000000000000000000001 => refused
bbeq a b --seed=+1 => refused
bbeq a b --seed=-1 => refused
bbeq a b --seed 0x1 => refused
bbeq a b --seed 1_0 => refused
bbeq a b --patterns 4097 => refused
bbeq a b --nodes 50000001 => refused
bbeq a b --nodes=4294967296 => refused
bbeq a b --clauses 8000001 => refused
bbeq a b --cache 0 => refused
bbeq a b --cache 1048577 => refused
// no check, or none in this order
bbeq a b --from Ternary => refused
bbeq a b --to inputs => refused
bbeq a b --from expand --to input => refused
bbeq a b --to none => refused
bbeq a b --from output --to local => refused
bbeq a b --to ternary --from symbolic => refused";

const READ: &str = "\
// what stands for options that are not given
bbeq a b => a b none none ternary expand false 32 1 1000000 2000000 65536 false
--all a b => a b none none ternary expand false 32 1 1000000 2000000 65536 false
 a a => a a none none ternary expand false 32 1 1000000 2000000 65536 false
// each of them alone, in both forms
bbeq a b --all => a b none none ternary expand true 32 1 1000000 2000000 65536 false
bbeq a b --proof => a b none none ternary expand false 32 1 1000000 2000000 65536 true
bbeq a b --shared => a b none none ternary expand false 32 1 1000000 2000000 65536 false shared
bbeq a b --fill => a b none none ternary expand false 32 1 1000000 2000000 65536 false fill
bbeq a b --top-spec m => a b m none ternary expand false 32 1 1000000 2000000 65536 false
bbeq a b --top-spec=m => a b m none ternary expand false 32 1 1000000 2000000 65536 false
bbeq a b --top-impl m => a b none m ternary expand false 32 1 1000000 2000000 65536 false
bbeq a b --top-impl=m => a b none m ternary expand false 32 1 1000000 2000000 65536 false
bbeq a b --care k => a b none none ternary expand false 32 1 1000000 2000000 65536 false care k
bbeq a b --invariant k => a b none none ternary expand false 32 1 1000000 2000000 65536 false invariant k
bbeq a b --fill --shared --invariant=k[0] => a b none none ternary expand false 32 1 1000000 2000000 65536 false \
    shared fill invariant k[0]
bbeq a b --shared --care=k[0] => a b none none ternary expand false 32 1 1000000 2000000 65536 false shared care k[0]
bbeq a b --from local => a b none none local expand false 32 1 1000000 2000000 65536 false
bbeq a b --from=output => a b none none output expand false 32 1 1000000 2000000 65536 false
bbeq a b --to ternary => a b none none ternary ternary false 32 1 1000000 2000000 65536 false
bbeq a b --to=symbolic => a b none none ternary symbolic false 32 1 1000000 2000000 65536 false
bbeq a b --patterns 0 => a b none none ternary expand false 0 1 1000000 2000000 65536 false
bbeq a b --patterns=4096 => a b none none ternary expand false 4096 1 1000000 2000000 65536 false
bbeq a b --seed 2 => a b none none ternary expand false 32 2 1000000 2000000 65536 false
bbeq a b --seed=18446744073709551615 => a b none none ternary expand false 32 18446744073709551615 1000000 2000000 \
    65536 false
bbeq a b --nodes 0 => a b none none ternary expand false 32 1 0 2000000 65536 false
bbeq a b --nodes=50000000 => a b none none ternary expand false 32 1 50000000 2000000 65536 false
bbeq a b --clauses 0 => a b none none ternary expand false 32 1 1000000 0 65536 false
bbeq a b --clauses=8000000 => a b none none ternary expand false 32 1 1000000 8000000 65536 false
bbeq a b --cache 1 => a b none none ternary expand false 32 1 1000000 2000000 1 false
bbeq a b --cache=1048576 => a b none none ternary expand false 32 1 1000000 2000000 1048576 false
bbeq a b --from input --to expand => a b none none input expand false 32 1 1000000 2000000 65536 false
bbeq a b --from expand => a b none none expand expand false 32 1 1000000 2000000 65536 false
// in any order
bbeq --from symbolic a --to local b => a b none none symbolic local false 32 1 1000000 2000000 65536 false
bbeq --to local --from local a b => a b none none local local false 32 1 1000000 2000000 65536 false
bbeq --cache=7 --proof b --clauses 6 --nodes=5 --seed 4 --top-impl n --patterns=3 a --top-spec m --all => b a m n \
    ternary expand true 3 4 5 6 7 true
// after two minus signs every word is a file
bbeq -- a b => a b none none ternary expand false 32 1 1000000 2000000 65536 false
bbeq a b -- => a b none none ternary expand false 32 1 1000000 2000000 65536 false
bbeq --all a -- --all => a --all none none ternary expand true 32 1 1000000 2000000 65536 false
bbeq -- -s.v -- => -s.v -- none none ternary expand false 32 1 1000000 2000000 65536 false
// a value that begins with a minus sign, or holds other signs
bbeq a b --top-spec=-m => a b -m none ternary expand false 32 1 1000000 2000000 65536 false
bbeq a b --top-impl=m=n => a b none m=n ternary expand false 32 1 1000000 2000000 65536 false
bbeq a b --care=!-~ => a b none none ternary expand false 32 1 1000000 2000000 65536 false care !-~
bbeq a b --seed 00000000000000000009 => a b none none ternary expand false 32 9 1000000 2000000 65536 false
// one minus sign alone is a word, and may be a value
bbeq a b --top-spec - => a b - none ternary expand false 32 1 1000000 2000000 65536 false
bbeq - a=b => - a=b none none ternary expand false 32 1 1000000 2000000 65536 false";

const REFUTING: &str = "\
// with both files, in any order
bbeq a b --rup => rup a b
bbeq --rup a b => rup a b
bbeq a --rup b => rup a b
bbeq --rup -- a b => rup a b
bbeq --rup -- --rup b => rup --rup b
// else a word after two minus signs is a file
bbeq -- a --rup => a --rup none none ternary expand false 32 1 1000000 2000000 65536 false
// without one of them
bbeq --rup => refused
bbeq a --rup => refused
bbeq a b c --rup => refused
bbeq  b --rup => refused
bbeq -- --rup => refused
// twice, and with a value
bbeq a b --rup --rup => refused
bbeq a b --rup=x => refused
bbeq a b --rup= => refused
// beside each other flag and option, also where the value is the one that stands for it
bbeq a b --rup --all => refused
bbeq a b --proof --rup => refused
bbeq a b --rup --shared => refused
bbeq a b --fill --rup => refused
bbeq a b --rup --top-spec m => refused
bbeq a b --rup --top-impl=m => refused
bbeq a b --rup --from ternary => refused
bbeq a b --rup --to expand => refused
bbeq a b --patterns 32 --rup => refused
bbeq a b --rup --seed 1 => refused
bbeq a b --rup --nodes 1000000 => refused
bbeq a b --rup --clauses=2000000 => refused
bbeq a b --rup --cache 65536 => refused
bbeq a b --rup --care k => refused
bbeq a b --rup --invariant k => refused
bbeq a b --rup --make 4 => refused
bbeq a b --rup --nodes x => refused";

const MAKING: &str = "\
// a width from 1 to 256, as the next word or after an equals sign
bbeq --make 1 => make 1 ternary expand false 32 1 1000000 2000000 65536 false
bbeq --make=256 => make 256 ternary expand false 32 1 1000000 2000000 65536 false
bbeq --make 004 => make 4 ternary expand false 32 1 1000000 2000000 65536 false
bbeq --make 00000000000000000009 => make 9 ternary expand false 32 1 1000000 2000000 65536 false
// with each option of the checks
bbeq --from expand --make 4 --proof => make 4 expand expand false 32 1 1000000 2000000 65536 true
bbeq --all --make 4 --to output --patterns 0 --seed 2 => make 4 ternary output true 0 2 1000000 2000000 65536 false
bbeq --nodes 5 --clauses 6 --cache 7 --make 4 => make 4 ternary expand false 32 1 5 6 7 false
// a made pair has one box
bbeq --make 4 --fill => make 4 ternary expand false 32 1 1000000 2000000 65536 false fill
bbeq --make 4 --shared => refused
bbeq --make 4 --care k => refused
bbeq --make 4 --invariant k => refused
// no number, or none within the bounds
bbeq --make => refused
bbeq --make= => refused
bbeq --make  => refused
bbeq --make 0 => refused
bbeq --make 257 => refused
bbeq --make -1 => refused
bbeq --make=-1 => refused
bbeq --make +1 => refused
bbeq --make 4294967297 => refused
bbeq --make 000000000000000000001 => refused
bbeq --make four => refused
// twice
bbeq --make 4 --make 4 => refused
// beside a file, an empty one too, a top, or a refutation
bbeq --make 4 a => refused
bbeq a b --make 4 => refused
bbeq --make 4 -- a => refused
bbeq --make 4  => refused
bbeq --make 4 --top-spec add => refused
bbeq --make 4 --top-impl=add => refused
bbeq --make 4 --rup => refused
// with another option out of its bounds
bbeq --make 4 --from output --to local => refused
bbeq --make 4 --seed 0 => refused";

#[test]
fn words_request_what_they_say(rt: HostRuntime) -> Result<(), Fail> {
    let found = printed(rt.alloc(), &[])?;
    assert_eq!(rt; found.as_str(), "refused");
    rows(&rt, rt.alloc(), REFUSED)?;
    rows(&rt, rt.alloc(), READ)?;
    rows(&rt, rt.alloc(), REFUTING)?;
    rows(&rt, rt.alloc(), MAKING)
}
