// Files made at random, printed and read again.
use crate::file::wrong;
use std::alloc::Global;
use std::test::Fail;

// The heading below which a line stands.
#[derive(Clone, Copy)]
enum Below {
    Allowed,
    Table,
    Helpers,
}

// Numbers that look random, the same in each run.
#[derive(Drop)]
struct Dice {
    alloc: Global,
    state: u64,
}

impl Dice {
    fn pick<'a>(&mut self, choices: &[&'a str]) -> &'a str {
        self.state = self
            .state
            .wrapping_mul(6364136223846793005)
            .wrapping_add(1442695040888963407);
        let at = (self.state >> 33) as usize;
        match choices.get(at % choices.len().max(1)) {
            Some(choice) => *choice,
            None => "",
        }
    }

    // One of them, up to three times, with blanks between.
    fn put_some(&mut self, out: &mut String, choices: &[&'static str]) -> Result<(), Fail> {
        for _ in 0..3 {
            out.push_str(self.pick(choices))?;
            out.push_str(self.pick(&[" ", "  ", " \t"]))?;
            if self.pick(&["more", ""]).is_empty() {
                return Ok(());
            }
        }
        Ok(())
    }

    fn put_pattern(&mut self, out: &mut String) -> Result<(), Fail> {
        let terms = ["a", "!b", "! c", "module", "none", "*", "_d9"];
        self.put_some(out, &terms)?;
        out.push_str(self.pick(&["|", "| "]))?;
        self.put_some(out, &terms)?;
        out.push_str(self.pick(&["|", "| "]))?;
        self.put_some(out, &terms)
    }

    fn put_effects(&mut self, out: &mut String) -> Result<(), Fail> {
        let changes = ["a", "!b", "a=left.b", "c = right . _d9", "b= a", ""];
        out.push_str(self.pick(&["->", "-> "]))?;
        self.put_some(out, &changes)?;
        out.push_str(self.pick(&["moves ", "waits "]))?;
        self.put_some(out, &changes)
    }

    fn put_formula(&mut self, out: &mut String) -> Result<(), Fail> {
        out.push_str(self.pick(&[
            " a sub b",
            "(all1 p: # (\n p in a)",
            "{1,\n\n 2} = c",
            "~empty(a)",
        ]))?;
        Ok(())
    }

    // A line as those below its heading are.
    fn put_below(&mut self, out: &mut String, below: Below, number: u32) -> Result<(), Fail> {
        match below {
            Below::Allowed => self.put_pattern(out),
            Below::Table => {
                self.put_pattern(out)?;
                self.put_effects(out)
            }
            Below::Helpers => {
                out.push_str(format!(in self.alloc; "n{number}")?.as_str())?;
                out.push_str(self.pick(&[":", " : "]))?;
                self.put_formula(out)
            }
        }
    }

    // A line below a heading, or a statement that stands anywhere.
    fn put_line(&mut self, out: &mut String, below: Below, number: u32) -> Result<(), Fail> {
        match self.pick(&[
            "line", "line", "never", "claim", "kept", "limit", "start", "row", "",
        ]) {
            "line" => {
                self.put_below(out, below, number)?;
            }
            "never" => {
                out.push_str(format!(in self.alloc; "never n{number} :")?.as_str())?;
                self.put_pattern(out)?;
            }
            "claim" => {
                out.push_str(format!(in self.alloc; "claim n{number}:")?.as_str())?;
                self.put_formula(out)?;
            }
            "kept" => {
                out.push_str(format!(in self.alloc; "kept n{number} :")?.as_str())?;
                self.put_formula(out)?;
            }
            "limit" => {
                out.push_str(self.pick(&["allowed: ex1 p: p in a", "allowed:~(a\n= b)"]))?
            }
            "start" => {
                out.push_str(self.pick(&["start:", "start :"]))?;
                self.put_formula(out)?;
            }
            "row" => {
                out.push_str("row:")?;
                self.put_some(out, &["a", ".", "a+b", "c + _d9+a"])?;
            }
            _ => {}
        }
        out.push_str(self.pick(&["\n", "\n\n", "# a row: (\n", "\r\n"]))?;
        Ok(())
    }

    fn put_file(&mut self, out: &mut String) -> Result<(), Fail> {
        out.push_str(self.pick(&["", "\n# rules\n"]))?;
        out.push_str("bits: a b\tc _d9\n")?;
        out.push_str(self.pick(&["", "ring:\n", "\n ring :# a loop\n"]))?;
        out.push_str(self.pick(&["allowed:\n", "allowed :# patterns\n"]))?;
        for number in 0..6u32 {
            self.put_line(out, Below::Allowed, number)?;
        }
        out.push_str(self.pick(&["table:\n", " table : \n"]))?;
        for number in 6..12u32 {
            self.put_line(out, Below::Table, number)?;
        }
        out.push_str(self.pick(&["helpers:\n", "\thelpers :# some\n"]))?;
        for number in 12..18u32 {
            self.put_line(out, Below::Helpers, number)?;
        }
        Ok(())
    }
}

#[test]
fn printed_files_are_read_again(rt: HostRuntime) -> Result<(), Fail> {
    let alloc = rt.alloc();
    let mut dice = Dice {
        alloc,
        state: 20221126,
    };
    for _ in 0..300 {
        let mut text = String::new(alloc);
        dice.put_file(&mut text)?;
        assert_eq!(rt; wrong(alloc, text.as_str())?, None, "at {text}");
    }
    Ok(())
}
