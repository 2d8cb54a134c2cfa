// Runs the published examples of SHA-256 and LMS, and the edges of keys and signatures, through the program's language.
#![tactic(auto)]

use console::session;
use std::fs;

fn run_file(rt: &HostRuntime, name: &str) -> anyhow::Result<()> {
    let text = fs::read(rt, name)?;
    session::run(rt, text.as_slice())
}

fn run(rt: &HostRuntime) -> anyhow::Result<()> {
    run_file(rt, "standards.txt")?;
    run_file(rt, "signatures.txt")
}

fn main(rt: HostRuntime) -> anyhow::Result<()> {
    run(&rt)
}
