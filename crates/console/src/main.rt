//! Every call from a line of text: reads a script from standard input, one command on a line, and prints one line
//! for each. An empty line, and one that begins with `#`, prints nothing; a line that is not understood prints `error`.
#![tactic(auto)]

mod commands;

use commands::answer_all;
use std::io;
use std::io::{Read, Write};

fn main(rt: HostRuntime) -> io::Result<()> {
    let mut script = Vec::new(rt.alloc());
    rt.stdin().read_to_end(&mut script)?;
    let answers = answer_all(rt.alloc(), &script)?;
    rt.stdout().write_all(answers.as_bytes())
}
