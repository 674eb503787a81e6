// Plays a playlist from standard input, or each of the files named, and prints what every call answered.
#![tactic(auto)]

use printer::print;
use std::io::{Read, Write};
use std::{env, fs};

fn main(rt: HostRuntime) -> anyhow::Result<()> {
    run(&rt)
}

fn run(rt: &HostRuntime) -> anyhow::Result<()> {
    let names: Vec<String> = env::args(rt)?.skip(1).collect(rt.alloc())?;
    if names.is_empty() {
        return play_input(rt);
    }
    if names[0].as_str() == "--help" {
        return help(rt);
    }
    let several = names.len() > 1;
    for name in &names {
        play_file(rt, name.as_str(), several)?;
    }
    Ok(())
}

fn play_input(rt: &HostRuntime) -> anyhow::Result<()> {
    let mut text = Vec::new(rt.alloc());
    rt.stdin().read_to_end(&mut text)?;
    write_print(rt, &text)
}

// With a heading line where there are several.
fn play_file(rt: &HostRuntime, name: &str, heading: bool) -> anyhow::Result<()> {
    let text = match fs::read(rt, name) {
        Ok(text) => text,
        Err(error) => {
            eprintln!(rt; "{name}")?;
            return Err(error.into());
        }
    };
    if heading {
        println!(rt; "{name}")?;
    }
    write_print(rt, &text)
}

fn write_print(rt: &HostRuntime, text: &[u8]) -> anyhow::Result<()> {
    let out = print(rt.alloc(), text)?;
    rt.stdout().write_all(&out)?;
    Ok(())
}

fn help(rt: &HostRuntime) -> anyhow::Result<()> {
    println!(rt; "uplink < FILE      play a playlist, and print what every call answered")?;
    println!(rt; "uplink FILE...     play each file, with a heading line if there are several")?;
    println!(rt; "docs/PROTOCOL.md describes the playlist, the rules and the numbers.")?;
    Ok(())
}
