// What the lowest layers answer to each line of standard input. What stands behind `#` is printed as it is.
#![tactic(auto)]

mod formulas;
mod outside;
mod records;
mod texts;
mod trees;
mod values;

use cell_refs::SheetNames;
use memory::Memory;
use std::io;

// Appends what a layer answers.
fn answer(
    rt: &HostRuntime,
    line: &str,
    sheets: &mut SheetNames,
    to: &mut String,
) -> Result<(), Memory> {
    let alloc = rt.alloc();
    let (layer, others) = line.split_once(' ').unwrap_or((line, ""));
    let (call, shown) = others.split_once(' ').unwrap_or((others, ""));
    match layer {
        "numeral" => values::show_numeral(alloc, others, to),
        "number" => values::answer(call, shown, to),
        "sheets" => values::name_answer(alloc, call, shown, sheets, to),
        "cells" => values::place_answer(alloc, others, sheets, to),
        "records" => records::answer(alloc, call, shown, to),
        "formula" => formulas::answer(alloc, call, shown, sheets, to),
        "stream" => outside::stream_answer(alloc, call, shown, to),
        "folder" => outside::folder_answer(alloc, call, shown, to),
        "real" => outside::real_answer(rt, call, shown, to),
        _ => Ok(to.push_str(others)?),
    }
}

fn main(rt: HostRuntime) -> io::Result<()> {
    let mut sheets = SheetNames::new(rt.alloc());
    for line in rt.lines(rt.alloc()) {
        let line = line?;
        let mut text = String::new(rt.alloc());
        if answer(&rt, line.as_str(), &mut sheets, &mut text).is_err() {
            text.clear();
        }
        println!(rt; "{}", text.as_str())?;
    }
    Ok(())
}
