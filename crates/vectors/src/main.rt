//! Reads a table of words and of the texts that an independent disassembler gives them, and compares each with the word's own
//! reading. `-` stands for a word that does not decode. What is read is encoded again, too.
#![tactic(auto)]

use anyhow::Context;
use coding::recode;
use notation::Assembly;
use std::alloc::{AllocError, Global};
use std::io;
use text::number;
use words::instruction::Instruction;

/// The largest word.
const MOST: u32 = 0xFFFF;

fn main(rt: HostRuntime) -> anyhow::Result<()> {
    run(&rt)
}

/// Prints each line's reading, and how many there are and differ.
fn run(rt: &HostRuntime) -> anyhow::Result<()> {
    let table = io::read_to_string(rt.alloc(), rt.stdin())?;
    let read = table.as_str().lines().count();
    let mut differing = 0u64;
    let mut again = 0u64;
    for line in table.as_str().lines() {
        let (word, expected) = entry(line)?;
        if !print_reading(rt, word, expected)? {
            differing = differing.saturating_add(1);
        }
        if recode(word) == Some(word) {
            again = again.saturating_add(1);
        }
    }
    println!(rt; "{read} words read, {differing} differ, {again} encode back to themselves")?;
    Ok(())
}

/// The word and the text of a line.
fn entry(line: &str) -> anyhow::Result<(u16, &str)> {
    let (word, text) = line.split_once(' ').context("a line has no space")?;
    let word = number(word.as_bytes(), MOST)
        .ok()
        .context("a line begins with no word")?;
    Ok((word as u16, text))
}

/// Prints the reading of a word, and answers whether it is the expected text.
fn print_reading(rt: &HostRuntime, word: u16, expected: &str) -> anyhow::Result<bool> {
    let text = reading(rt.alloc(), word)?;
    let same = text.as_str() == expected;
    if same {
        println!(rt; "0x{word:04X} {text} | ok")?;
    } else {
        println!(rt; "0x{word:04X} {text} | differs: expected {expected}")?;
    }
    Ok(same)
}

/// The text of a word.
fn reading(heap: Global, word: u16) -> Result<String, AllocError> {
    match Instruction::decode(word) {
        Some(instruction) => format!(in heap; "{}", Assembly(instruction)),
        None => String::from_str(heap, "-"),
    }
}
