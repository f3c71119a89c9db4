// What is printed, beside texts that were written by hand.
use crate::beside::Beside;
use crate::columns::Columns;
use crate::ends::Ends;
use crate::hex::Hex;
use crate::marks::Marks;
use std::test::Fail;

#[test]
fn bytes_are_pairs_of_digits(rt: HostRuntime) -> Result<(), Fail> {
    let text = format!(in rt.alloc(); "{}|{}", Hex(&[0, 15, 160, 255]), Hex(&[]))?;
    assert_eq!(rt; text.as_str(), "000fa0ff|");
    Ok(())
}

#[test]
fn columns_have_one_space_between(rt: HostRuntime) -> Result<(), Fail> {
    let text = format!(in rt.alloc();
        "{}|{}|{}",
        Columns(&[3, 0, 4294967295]),
        Columns(&[7]),
        Columns(&[])
    )?;
    assert_eq!(rt; text.as_str(), "3 0 4294967295|7|");
    Ok(())
}

#[test]
fn rows_stand_under_a_ruler(rt: HostRuntime) -> Result<(), Fail> {
    let short = Marks {
        names: &["left", "b"],
        word: &[1, 2, 3],
        ends: Ends::Hidden,
    };
    let text = format!(in rt.alloc(); "{short}")?;
    assert_eq!(rt; text.as_str(), "         012\n    left #.#\n    b    .##\n");
    let long = Marks {
        names: &["x"],
        word: &[1, 0, 0, 0, 0, 0, 0, 0, 0, 0, 1, 0],
        ends: Ends::Hidden,
    };
    let text = format!(in rt.alloc(); "{long}")?;
    assert_eq!(rt;
        text.as_str(),
        "      0         10\n      012345678901\n    x #.........#.\n"
    );
    let none = Marks {
        names: &["x"],
        word: &[],
        ends: Ends::Hidden,
    };
    let text = format!(in rt.alloc(); "{none}")?;
    assert_eq!(rt; text.as_str(), "");
    Ok(())
}

#[test]
fn ends_stand_beside_the_marks(rt: HostRuntime) -> Result<(), Fail> {
    let short = Marks {
        names: &["a", "bb"],
        word: &[1, 2, 0],
        ends: Ends::Walls,
    };
    let text = format!(in rt.alloc(); "{short}")?;
    assert_eq!(rt; text.as_str(), "        012\n    a  |#..|\n    bb |.#.|\n");
    let one = Marks {
        names: &["x"],
        word: &[1],
        ends: Ends::Walls,
    };
    let text = format!(in rt.alloc(); "{one}")?;
    assert_eq!(rt; text.as_str(), "       0\n    x |#|\n");
    let none = Marks {
        names: &["x"],
        word: &[],
        ends: Ends::Walls,
    };
    let text = format!(in rt.alloc(); "{none}")?;
    assert_eq!(rt; text.as_str(), "");
    Ok(())
}

#[test]
fn a_seam_stands_where_a_ring_is_cut(rt: HostRuntime) -> Result<(), Fail> {
    let short = Marks {
        names: &["a", "bb"],
        word: &[1, 2, 0],
        ends: Ends::Seam,
    };
    let text = format!(in rt.alloc(); "{short}")?;
    assert_eq!(rt; text.as_str(), "        012\n    a  :#..:\n    bb :.#.:\n");
    let mut word = [0; 61];
    word[0] = 1;
    word[60] = 1;
    let long = Marks {
        names: &["x"],
        word: &word,
        ends: Ends::Seam,
    };
    let text = format!(in rt.alloc(); "{long}")?;
    let wanted = format!(in rt.alloc(); "{RULER}    x :{MARKS}\n       60\n       0\n    x  #:\n")?;
    assert_eq!(rt; text.as_str(), wanted.as_str());
    Ok(())
}

// The rulers of 60 places from place 0 and from place 60 on, behind the margin of one sign's name, and 60 marks of which the first is set.
const RULER: &str =
    "       0         10        20        30        40        50\n       012345678901234567890123456789012345678901234567890123456789\n";

const SECOND_RULER: &str =
    "       60        70        80        90        100       110\n       012345678901234567890123456789012345678901234567890123456789\n";

const MARKS: &str = "#...........................................................";

#[test]
fn ends_of_a_long_row_stand_on_its_first_and_last_line(rt: HostRuntime) -> Result<(), Fail> {
    let mut word = [0; 121];
    word[0] = 1;
    word[60] = 1;
    word[120] = 1;
    let sixty = Marks {
        names: &["x"],
        word: &word[..60],
        ends: Ends::Walls,
    };
    let text = format!(in rt.alloc(); "{sixty}")?;
    let wanted = format!(in rt.alloc(); "{RULER}    x |{MARKS}|\n")?;
    assert_eq!(rt; text.as_str(), wanted.as_str());
    let more = Marks {
        names: &["x"],
        word: &word[..61],
        ends: Ends::Walls,
    };
    let text = format!(in rt.alloc(); "{more}")?;
    let wanted = format!(in rt.alloc(); "{RULER}    x |{MARKS}\n       60\n       0\n    x  #|\n")?;
    assert_eq!(rt; text.as_str(), wanted.as_str());
    let three_lines = Marks {
        names: &["x"],
        word: &word,
        ends: Ends::Walls,
    };
    let text = format!(in rt.alloc(); "{three_lines}")?;
    let wanted = format!(in rt.alloc();
        "{RULER}    x |{MARKS}\n{SECOND_RULER}    x  {MARKS}\n       120\n       0\n    x  #|\n"
    )?;
    assert_eq!(rt; text.as_str(), wanted.as_str());
    Ok(())
}

#[test]
fn a_caret_stands_under_the_column(rt: HostRuntime) -> Result<(), Fail> {
    let beside = Beside {
        file: "rule.txt",
        line: 2,
        column: 3,
        text: Some("a\tb"),
        message: "expected a name",
    };
    let text = format!(in rt.alloc(); "{beside}")?;
    assert_eq!(rt;
        text.as_str(),
        "rule.txt:2:3: expected a name\n    a\tb\n     \t^\n"
    );
    let alone = Beside {
        file: "rule.txt",
        line: 1,
        column: 1,
        text: None,
        message: 5u32,
    };
    let text = format!(in rt.alloc(); "{alone}")?;
    assert_eq!(rt; text.as_str(), "rule.txt:1:1: 5\n");
    Ok(())
}
