// Reads cases, with a line `----` behind each, and prints the picture of each. A case has a line for the title, one for the subject,
// one with the names of the bits, and then rows: for each bit a line with `x` where a module's bit is set, and `.` where it is not. Without such lines
// there is one row, which has no module. What is not of this form is refused.
#![tactic(auto)]

ghost use Rattle.std.specs.Prelude.{◌≡◌, ◌<◌, ◌≤◌, length, IfOk, vec_len};

use anyhow::bail;
use diagram::history::History;
use diagram::svg::{Diagram, svg};
use std::alloc::{AllocError, Global};
use std::io::{BufRead, BufReader};

// The column of a place.
fn column(lines: &[String], place: usize) -> u32 {
    let mut column = 0u32;
    for line in lines.iter().rev() {
        let set = line.as_bytes().get(place) == Some(&b'x');
        column = column.wrapping_mul(2).wrapping_add(u32::from(set));
    }
    column
}

fn read_row(alloc: Global, lines: &[String], modules: usize) -> Result<Vec<u32>, AllocError>
    ensures { IfOk result (λ row. vec_len row ≡ modules) }
{
    let mut row = Vec::new(alloc);
    for place in 0..modules {
        row.push(column(lines, place))?;
    }
    Ok(row)
}

// Refuses marks that are no rows: each row has a line for each bit, all lines are of one length, and no other sign stands in them.
fn check_marks(lines: &[String], bits: usize, modules: usize) -> anyhow::Result<()>
    requires { 1 ≤ bits }
{
    if lines.len() % bits != 0 {
        bail!("a row has a line for each bit");
    }
    for line in lines {
        if line.len() != modules {
            bail!("the lines of marks of a case have one length");
        }
        if !line
            .as_bytes()
            .iter()
            .all(|mark| *mark == b'x' || *mark == b'.')
        {
            bail!("a mark is `x` or `.`");
        }
    }
    Ok(())
}

fn read_rows(alloc: Global, lines: &[String], bits: usize) -> anyhow::Result<History>
    requires { 1 ≤ bits }
{
    let [line, ..] = lines else {
        return Ok(History::new(alloc, Vec::new(alloc))?);
    };
    let modules = line.len();
    check_marks(lines, bits, modules)?;
    let (first, later) = lines.split_at(bits.min(lines.len()));
    let mut history = History::new(alloc, read_row(alloc, first, modules)?)?;
    for next in later.chunks(bits) {
        let modules = history.modules;
        history.push(read_row(alloc, next, modules)?)?;
    }
    Ok(history)
}

fn tell(rt: &HostRuntime, case: &[String]) -> anyhow::Result<()> {
    let [title, subject, names, marks @ ..] = case else {
        bail!("a case has at least three lines");
    };
    let mut bits = Vec::new(rt.alloc());
    for name in names.split_whitespace() {
        bits.push(name)?;
    }
    if bits.is_empty() || bits.len() > 11 {
        bail!("a module has 1 to 11 bits");
    }
    let history = read_rows(rt.alloc(), marks, bits.len())?;
    let diagram = Diagram {
        title: title.as_str(),
        subject: subject.as_str(),
        bits: bits.as_slice(),
        history: &history,
    };
    let text = svg(rt.alloc(), &diagram)?;
    print!(rt; "{text}")?;
    Ok(())
}

fn run(rt: &HostRuntime) -> anyhow::Result<()> {
    let mut case = Vec::new(rt.alloc());
    for line in BufReader::new(rt.alloc(), rt.stdin())?.lines(rt.alloc()) {
        let line = line?;
        if line.as_str() == "----" {
            tell(rt, &case)?;
            case.clear();
        } else {
            case.push(line)?;
        }
    }
    if !case.is_empty() {
        bail!("a case ends with a line `----`");
    }
    Ok(())
}

fn main(rt: HostRuntime) -> anyhow::Result<()> {
    run(&rt)
}
