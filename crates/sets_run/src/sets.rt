//! Where sets come from: names, the words on a line, and generated lines.
use anyhow::{Context, Result, ensure};
use names::enter;
use rules::Was;
use std::alloc::Global;

/// Each letter is a name; they are numbered in this order, which isn't that of their bytes.
const LETTERS: &[u8; 52] = b"xyzaLPMbcdefghijklmnopqrstuvwABCDEFGHIJKNOQRSTUVWXYZ";

/// The name table that all sets are over.
#[derive(Drop)]
pub struct Table {
    pub pool: Vec<u8>,
    pub ends: Vec<u32>,
}

impl Table {
    pub fn new(alloc: Global) -> Result<Table> {
        let mut pool = vec![in alloc; 0; 8192]?;
        let mut ends = vec![in alloc; 0; 257]?;
        for letter in LETTERS {
            let entered = enter(&mut pool, &mut ends, &[*letter]);
            ensure!(matches!(entered, Ok((_, Was::New))), "a letter is not new");
        }
        Ok(Table { pool, ends })
    }
}

/// The numbers of a line.
pub fn numbers(alloc: Global, text: &str) -> Result<Vec<u32>> {
    let mut all = Vec::new(alloc);
    for word in text.split_whitespace() {
        all.push(word.parse().context("no number")?)?;
    }
    Ok(all)
}

/// One of five powers; the last makes some sets leave the range.
fn power(n: u32) -> u32 {
    match n % 5 {
        0 => 1,
        1 => 2,
        2 => 4294967295,
        3 => 4294967293,
        _ => 2147483647,
    }
}

/// An equal-scalar of x, y and L, with powers chosen by n.
fn line(n: u32) -> [u32; 20] {
    [
        327702,
        0,
        0,
        0,
        262147,
        3,
        0,
        0, // equal-scalar, a dimension of three factors
        65547,
        0,
        power(n),
        1, // x
        65547,
        1,
        power(n / 5),
        1, // y
        65549,
        4,
        power(n / 25),
        1, // L
    ]
}

/// Two of them: n has the powers of both.
pub fn two_lines(n: u32) -> [u32; 40] {
    let mut set = [0; 40];
    set[..20].copy_from_slice(&line(n));
    set[20..].copy_from_slice(&line(n / 125));
    set
}
