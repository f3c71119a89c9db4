// Whole files, and each fault with its message and its place.
use rule_file::parse::read;
use rule_file::token::{Kind, tokens};
use rule_printing::print::print;
use std::alloc::Global;
use std::test::Fail;
use trees::position::position_of;

// What is said of a text: where it is wrong and how, or its printed form.
fn said(alloc: Global, text: &str) -> Result<String, Fail> {
    match read(alloc, text) {
        Ok(file) => Ok(print(alloc, text, &file)?),
        Err(fault) => {
            let message = fault.message(text);
            match fault.span(text) {
                Some(span) => {
                    let place = position_of(text.as_bytes(), span.start);
                    let line = place.line;
                    let column = place.column;
                    Ok(format!(in alloc; "{line}:{column}: {message}")?)
                }
                None => Ok(format!(in alloc; "{message}")?),
            }
        }
    }
}

#[test]
fn faults_are_told(rt: HostRuntime) -> Result<(), Fail> {
    let cases = [
        (
            "",
            "1:1: expected `bits:` with the names of a module's bits, found the end of the file",
        ),
        (
            "\nallowed:\n",
            "2:1: expected `bits:` with the names of a module's bits, found the word `allowed`",
        ),
        ("bits tray", "1:6: expected `:`, found `tray`"),
        (
            "bits: # none\n",
            "1:13: expected a name, found the end of the line",
        ),
        (
            "bits: tray module",
            "1:12: expected a name or the end of the line, found the word `module`",
        ),
        (
            "bits: tray in",
            "1:12: expected a name, found `in`, which means something in formulas",
        ),
        ("bits: row", "1:7: expected a name, found the word `row`"),
        (
            "bits: tray last",
            "1:12: expected a name, found `last`, which means something in formulas",
        ),
        (
            "bits: a b c d e f",
            "1:17: expected at most five bits, found `f`",
        ),
        (
            "bits: a b a",
            "1:11: expected another name, found `a` a second time",
        ),
        (
            "bits: a\nbits: b",
            "2:1: expected one line `bits:`, found a second one",
        ),
        (
            "ring:\nbits: a",
            "1:1: expected `bits:` with the names of a module's bits, found the word `ring`",
        ),
        (
            "bits: a ring",
            "1:9: expected a name or the end of the line, found the word `ring`",
        ),
        (
            "bits: a\nring\n",
            "2:5: expected `:`, found the end of the line",
        ),
        (
            "bits: a\nring: a",
            "2:7: expected the end of the line, found `a`",
        ),
        (
            "bits: a\nring:\n\nring:",
            "4:1: expected `ring:` right behind the line `bits:`, and once; found it further on",
        ),
        (
            "bits: a\nallowed:\n  ring:",
            "3:3: expected `ring:` right behind the line `bits:`, and once; found it further on",
        ),
        (
            "bits: a\nnever ring: a|a|a",
            "2:7: expected a name, found the word `ring`",
        ),
        (
            "bits: a\ntable: garbage",
            "2:8: expected the end of the line, found `garbage`",
        ),
        ("bits: a\nallowed * | a | *", "2:9: expected `:`, found `*`"),
        (
            "bits: a\n* | a | *",
            "2:1: expected `allowed:`, `table:`, `start:`, `never`, `claim`, `kept`, `helpers:` or `row:`, found `*`",
        ),
        (
            "bits: a\nnever gap:junk",
            "2:15: expected `|` or a further word of the pattern, found the end of the file",
        ),
        (
            "bits: a\nnever gap: a | a\n",
            "2:17: expected `|` or a further word of the pattern, found the end of the line",
        ),
        (
            "bits: a\nnever gap: a | a | a | a\n",
            "2:22: expected a further word of the pattern or the end of the line, found `|`",
        ),
        (
            "bits: a\nnever gap: a | a | a -> waits\n",
            "2:22: expected a further word of the pattern or the end of the line, found `->`",
        ),
        (
            "bits: a\nnever: a | a | a",
            "2:6: expected a name, found `:`",
        ),
        (
            "bits: a\nallowed:\n  a | | a",
            "3:7: expected a bit's name, `!` and a bit's name, `module`, `none` or `*`, found `|`",
        ),
        (
            "bits: a\nallowed:\n  a | ! | a",
            "3:9: expected a bit's name, found `|`",
        ),
        (
            "bits: a\ntable:\n  a | a | a waits",
            "3:13: expected `->` or a further word of the pattern, found the word `waits`",
        ),
        (
            "bits: a\ntable:\n  a | a | a -> a\n",
            "3:17: expected `moves`, `waits` or a bit that changes, found the end of the line",
        ),
        (
            "bits: a\ntable:\n  a | a | a -> waits moves\n",
            "3:22: expected a bit that changes or the end of the line, found the word `moves`",
        ),
        (
            "bits: a\ntable:\n  a | a | a -> a=!a waits\n",
            "3:18: expected a bit's name, `left.` or `right.`, found `!`",
        ),
        (
            "bits: a\ntable:\n  a | a | a -> a=left a waits\n",
            "3:23: expected `.`, found `a`",
        ),
        (
            "bits: a\nrow:\n",
            "2:5: expected a module: `.`, or the names of its bits with `+` between them, found the end of the line",
        ),
        (
            "bits: a\nrow: . a+\n",
            "2:10: expected a bit's name, found the end of the line",
        ),
        (
            "bits: a\nrow: . 7\n",
            "2:8: expected `+`, a further module or the end of the line, found `7`",
        ),
        (
            "bits: a\nclaim x\n",
            "2:8: expected `:`, found the end of the line",
        ),
        (
            "bits: a\nclaim x: # all\n",
            "2:15: expected a formula, found the end of the line",
        ),
        ("bits: kept", "1:7: expected a name, found the word `kept`"),
        (
            "bits: a\nclaim start: y",
            "2:7: expected a name, found the word `start`",
        ),
        ("bits: a\nstart x: y", "2:7: expected `:`, found `x`"),
        (
            "bits: a\nstart:\n  a | a | a",
            "2:7: expected a formula, found the end of the line",
        ),
        ("bits: a\nkept: y", "2:5: expected a name, found `:`"),
        (
            "bits: a\nkept x: # all\n",
            "2:14: expected a formula, found the end of the line",
        ),
        (
            "bits: a\nkept x: y\nclaim x: y",
            "3:7: expected another name, found `x` a second time",
        ),
        (
            "bits: helpers",
            "1:7: expected a name, found the word `helpers`",
        ),
        (
            "bits: a\nclaim helpers: y",
            "2:7: expected a name, found the word `helpers`",
        ),
        (
            "bits: a\nhelpers\n",
            "2:8: expected `:`, found the end of the line",
        ),
        (
            "bits: a\nhelpers: x: y",
            "2:10: expected the end of the line, found `x`",
        ),
        ("bits: a\nhelpers:\n  x y", "3:5: expected `:`, found `y`"),
        (
            "bits: a\nhelpers:\n  x: # all\n",
            "3:11: expected a formula, found the end of the line",
        ),
        (
            "bits: a\nhelpers:\n  a | a | a",
            "3:5: expected `:`, found `|`",
        ),
        (
            "bits: a\nhelpers:\n  * | a | *",
            "3:3: expected a name, found `*`",
        ),
        (
            "bits: a\nhelpers:\n  left: y",
            "3:3: expected a name, found the word `left`",
        ),
        (
            "bits: a\nhelpers:\n  x: y\n  x: z",
            "4:3: expected another name, found `x` a second time",
        ),
        (
            "bits: a\nhelpers:\n  x: y\nkept x: y",
            "4:6: expected another name, found `x` a second time",
        ),
        (
            "bits: a\nnever x: a|a|a\nhelpers:\n  x: y",
            "4:3: expected another name, found `x` a second time",
        ),
        (
            "bits: a\nalowed: (a",
            "2:1: expected `allowed:`, `table:`, `start:`, `never`, `claim`, `kept`, `helpers:` or `row:`, found `alowed`",
        ),
        (
            "bits: a\nallowed:\n  a | a | a\nlimit: (a",
            "4:6: expected `|` or a further word of the pattern, found `:`",
        ),
        (
            "bits: a\ntable:\n  a: (a",
            "3:4: expected `|` or a further word of the pattern, found `:`",
        ),
        (
            "bit: (a",
            "1:1: expected `bits:` with the names of a module's bits, found `bit`",
        ),
        (
            "bits: a\nclaim x: y\nnever x: a|a|a",
            "3:7: expected another name, found `x` a second time",
        ),
        (
            "bits: a\ngrün",
            "2:1: expected `allowed:`, `table:`, `start:`, `never`, `claim`, `kept`, `helpers:` or `row:`, found `grün`",
        ),
    ];
    for (text, want) in cases {
        let got = said(rt.alloc(), text)?;
        assert_eq!(rt; got.as_str(), want, "at {text}");
    }
    Ok(())
}

#[test]
fn files_are_printed(rt: HostRuntime) -> Result<(), Fail> {
    let text =
        "# A line.\n\nbits:tray  drive # two\r\nallowed:\n*|tray !drive|module   none\nallowed: all1 p: (p in tray # )\n  => p in drive)  # so\ntable:\n* | * | * -> tray=left.tray !drive moves drive=tray\nrow: tray + drive . drive\nnever two: tray|tray|*\nclaim one :{ } sub tray";
    let want =
        "bits: tray drive\n\nallowed:\n  * | tray !drive | module none\nallowed: all1 p: (p in tray # )\n  => p in drive)\n\ntable:\n  * | * | * -> tray=left.tray !drive moves drive=tray\nrow: tray+drive . drive\nnever two: tray | tray | *\nclaim one: { } sub tray\n";
    let printed = said(rt.alloc(), text)?;
    assert_eq!(rt; printed.as_str(), want);
    let again = said(rt.alloc(), printed.as_str())?;
    assert_eq!(rt; again.as_str(), want);
    Ok(())
}

#[test]
fn starts_and_kept_claims_are_printed(rt: HostRuntime) -> Result<(), Fail> {
    let text =
        "bits: a\nstart :~(a # (\n = row) # so\nallowed:\n*|a|*\nstart: a sub row\n* | * | *\nkept one :a = {\n}";
    let want =
        "bits: a\nstart: ~(a # (\n = row)\n\nallowed:\n  * | a | *\nstart: a sub row\n  * | * | *\nkept one: a = {\n}\n";
    let printed = said(rt.alloc(), text)?;
    assert_eq!(rt; printed.as_str(), want);
    let again = said(rt.alloc(), printed.as_str())?;
    assert_eq!(rt; again.as_str(), want);
    Ok(())
}

#[test]
fn helpers_are_printed(rt: HostRuntime) -> Result<(), Fail> {
    let text =
        "bits: a\nhelpers : # two\none :~(a # (\n = row) # so\ntwo:a sub row\nallowed:\n*|a|*\nhelpers:\nkept three:a = a";
    let want =
        "bits: a\n\nhelpers:\n  one: ~(a # (\n = row)\n  two: a sub row\n\nallowed:\n  * | a | *\n\nhelpers:\nkept three: a = a\n";
    let printed = said(rt.alloc(), text)?;
    assert_eq!(rt; printed.as_str(), want);
    let again = said(rt.alloc(), printed.as_str())?;
    assert_eq!(rt; again.as_str(), want);
    Ok(())
}

#[test]
fn rings_are_printed(rt: HostRuntime) -> Result<(), Fail> {
    let text = "bits: a # one\n\n ring : # a loop\n\nallowed:\n*|a|*";
    let want = "bits: a\nring:\n\nallowed:\n  * | a | *\n";
    let printed = said(rt.alloc(), text)?;
    assert_eq!(rt; printed.as_str(), want);
    let again = said(rt.alloc(), printed.as_str())?;
    assert_eq!(rt; again.as_str(), want);
    Ok(())
}

// The words of a text, without the ends of lines: the kind and the bytes of each.
fn same_words(alloc: Global, first: &str, second: &str) -> Result<bool, Fail> {
    let ours = tokens(alloc, first.as_bytes())?;
    let theirs = tokens(alloc, second.as_bytes())?;
    let mut left = ours.iter().filter(|t| t.kind != Kind::LineEnd);
    let mut right = theirs.iter().filter(|t| t.kind != Kind::LineEnd);
    for _ in 0..ours.len() + 1 {
        match (left.next(), right.next()) {
            (Some(a), Some(b)) => {
                if a.kind != b.kind || a.span.of(first.as_bytes()) != b.span.of(second.as_bytes()) {
                    return Ok(false);
                }
            }
            (None, None) => return Ok(true),
            _ => return Ok(false),
        }
    }
    Ok(false)
}

/// Nothing if a text is read, what is printed has the same words, and it is printed the same when it is read again; else what is wrong.
pub fn wrong(alloc: Global, text: &str) -> Result<Option<&'static str>, Fail> {
    if read(alloc, text).is_err() {
        return Ok(Some("it is not read"));
    }
    let printed = said(alloc, text)?;
    if !same_words(alloc, text, printed.as_str())? {
        return Ok(Some("other words are printed"));
    }
    let again = said(alloc, printed.as_str())?;
    if again.as_str() != printed.as_str() {
        return Ok(Some("it is printed in two ways"));
    }
    Ok(None)
}

// The files of examples/rules.
#[test]
fn examples_are_read_again(rt: HostRuntime) -> Result<(), Fail> {
    let examples = [
        "# Three modules in a bakery: the oven gives trays, they cool on the middle one and are packed on the last.\nbits: tray oven pack\n\nallowed:\n  none | oven !pack | module !oven !pack\n  oven | !oven !pack | pack\n  module !oven !pack | pack !oven | none\n\ntable:\n  * | tray | none -> !tray moves\n  * | tray | !tray -> !tray moves\n  none | !tray | * -> tray moves\n  tray | !tray | * -> tray moves\n  * | * | * -> waits\n\nrow: oven+tray . pack\n\nnever tray_between_gaps: module !tray | tray | module !tray\n",
        "# A line into which other lines merge: a merging module takes a tray from its side where none comes on the line.\nbits: tray merge\n\nallowed:\n  * | !merge | *\n  !merge | merge | !merge\n\ntable:\n  * | tray | none -> !tray moves\n  * | tray | !tray -> !tray moves\n  tray | !tray | * -> tray moves\n  * | !tray merge | * -> tray moves\n  none | !tray | * -> tray moves\n  * | * | * -> waits\n\nrow: tray . merge . tray tray\n\nnever merge_takes_with_two_trays: tray | !tray merge | tray\n",
        "# The rule of 2022. A row is built of sections of seven modules, with couplings of three between them; `drive` and `brake` say which module\n# is which. Above the row runs another line: a module takes a tray from it, sends its tray up to it, or waits.\nbits: tray drive brake\n\nallowed:\n  !drive !brake | drive !brake | drive !brake\n  drive !brake | drive !brake | drive brake\n  drive !brake | drive brake | drive brake\n  drive brake | drive brake | !drive brake\n  drive brake | !drive brake | !drive brake\n  !drive brake | !drive brake | drive !brake\n  !drive brake | drive !brake | !drive !brake\n  drive !brake | !drive !brake | drive brake\n  module !drive !brake | drive brake | module !drive !brake\n  drive brake | !drive !brake | drive !brake\n\ntable:\n  tray | !tray | tray -> waits\n  * | !tray | * -> tray moves\n  tray | tray | tray -> !tray moves\n  module !tray | tray | module !tray -> !tray moves\n  none | tray | tray -> !tray moves\n  tray | tray | none -> !tray moves\n  * | * | * -> waits\n\nnever tray_between_gaps: module !tray | tray | module !tray\n",
        "# The rule of 2022 with the fault mended: of two trays that wait for one another the one before the gap goes up first.\nbits: tray drive brake\n\nallowed:\n  !drive !brake | drive !brake | drive !brake\n  drive !brake | drive !brake | drive brake\n  drive !brake | drive brake | drive brake\n  drive brake | drive brake | !drive brake\n  drive brake | !drive brake | !drive brake\n  !drive brake | !drive brake | drive !brake\n  !drive brake | drive !brake | !drive !brake\n  drive !brake | !drive !brake | drive brake\n  module !drive !brake | drive brake | module !drive !brake\n  drive brake | !drive !brake | drive !brake\n\ntable:\n  tray | !tray | tray -> waits\n  * | !tray | * -> tray moves\n  tray | tray | tray -> !tray moves\n  module !tray | tray | module !tray -> !tray moves\n  none | tray | tray -> !tray moves\n  tray | tray | none -> !tray moves\n  tray | tray | module !tray -> !tray moves\n  * | * | * -> waits\n",
        "# A slow section and a fast one: a slow module keeps each tray for a step before it passes it on.\nbits: tray slow done\n\nallowed:\n  * | !slow !done | *\n  * | slow tray | *\n  * | slow !tray !done | *\n\ntable:\n  * | tray slow !done | * -> done moves\n  * | tray | none -> !tray !done moves\n  * | tray | !tray -> !tray !done moves\n  tray !slow | !tray | * -> tray moves\n  tray slow done | !tray | * -> tray moves\n  none | !tray | * -> tray moves\n  * | * | * -> waits\n\nrow: tray . tray+slow slow slow .\n",
        "# A carousel.\nbits: bag drive\nring:\n\nallowed:\n  * | !bag !drive | *\n  * | !bag drive | !bag\n  !bag | bag !drive | *\nallowed: |ring| mod 4 = 0\nallowed: |bag| mod 3 = 0\n\ntable:\n  * | bag | drive -> !bag moves\n  bag | drive | * -> bag !drive moves\n  * | drive | * -> moves\n  * | !bag | !bag -> drive moves\n  * | * | * -> waits\n\nnever bags_touch: * | bag | bag\nclaim no_bag_lost: all1 p: p in bag => p in bag' | p + 1 in bag'\n\nrow: bag drive . bag . bag drive .\n",
    ];
    for text in examples {
        assert_eq!(rt; wrong(rt.alloc(), text)?, None, "at {text}");
    }
    Ok(())
}
