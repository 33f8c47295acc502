// Mezgalt's program: plays a script of commands, one a line, and tells what each did. The
// script comes from the file that the first argument names, or from the standard input.
#![tactic(auto)]

mod any_lines;
mod lines_used;
mod list_marks;
mod messages_shown;
mod scripts;
mod slots_used;
mod stops;
mod tables_used;
mod words;

use std::{env, fs, io};

// The text of the script: of the file that is named, or of the standard input.
fn script(rt: &HostRuntime) -> io::Result<String> {
    match env::args(rt)?.nth(1) {
        Some(name) => fs::read_to_string(rt, name.as_str()),
        None => io::read_to_string(rt.alloc(), rt.stdin()),
    }
}

fn main(rt: HostRuntime) -> anyhow::Result<()> {
    let text = script(&rt)?;
    let lines: Vec<&str> = text.lines().collect(rt.alloc())?;
    scripts::play(&rt, lines.as_slice())?;
    Ok(())
}
