// Reads a script of calls from standard input, makes them one after another on lent slices, and prints a line for each.
// docs/REPLAY.md has the format. Every function is proved safe; no contract says what is printed.
#![tactic(auto)]

mod assembling;
mod build;
mod machine;
mod memory;
mod reading;
mod script;
mod step;
mod stop;

use machine::Machine;
use memory::{UNWRITTEN_BYTE, UNWRITTEN_WORD};
use reads::{filled, read_full};
use records::Assembler;
use script::{MAX_BYTES, MAX_LISTING, MAX_RESULT, MAX_SCRIPT, MAX_TABLE, MAX_WORDS, Script};
use std::io;
use std::io::{Print, Stdout};

// A script's steps, on slices as long as its header says.
fn run_steps(out: Stdout, script: Script) -> io::Result<()> {
    let mut bytes: [u8; MAX_BYTES] = filled(UNWRITTEN_BYTE);
    let mut words: [u32; MAX_WORDS] = filled(UNWRITTEN_WORD);
    let mut table: [u32; MAX_TABLE] = filled(UNWRITTEN_WORD);
    let mut result: [u8; MAX_RESULT] = filled(UNWRITTEN_BYTE);
    let mut text: [u8; MAX_LISTING] = filled(UNWRITTEN_BYTE);
    let mut machine = Machine {
        out,
        store: Assembler::new(),
        pool: script.pool,
        bytes: &mut bytes[..script.bytes],
        words: &mut words[..script.words],
        table: &mut table[..script.table],
        result: &mut result[..script.result],
        text: &mut text[..script.listing],
    };
    for step in script.steps {
        machine.take(*step)?;
    }
    Ok(())
}

// A whole script.
fn run(out: Stdout, script: &[u8]) -> io::Result<()> {
    match Script::read(script) {
        Some(script) => run_steps(out, script),
        None => println!(out; "bad script"),
    }
}

fn main(rt: HostRuntime) -> io::Result<()> {
    // One byte more than the longest script has, so that a longer one is seen.
    let mut input: [u8; MAX_SCRIPT + 1] = filled(0);
    let n = read_full(&mut rt.stdin(), &mut input)?;
    run(rt.stdout(), &input[..n])
}
