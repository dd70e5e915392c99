// Runs the listed cases of all calls, and compares the answer and what each buffer holds afterwards with what is stored.
#![tactic(auto)]

mod case;

use anyhow::Result;
use calls::called;
use calls_defined::Lists;
use calls_defined::numbers::Call;
use calls_defined::told::Told;
use case::{Case, Gives};
use std::alloc::Global;
use std::io;

/// What the words of the result buffer are before a call.
const RESULT_BEFORE: u32 = 0xaaaaaaaa;

/// What the words of the work buffer are before a call.
const WORK_BEFORE: u32 = 0x55555555;

/// What the work buffer's words are after a call: zero where the call has one, except after a 10.
fn work_after(call: Call, refusal: u32) -> u32 {
    if refusal != 10 && takes_work(call) {
        0
    } else {
        WORK_BEFORE
    }
}

/// Does the call write to the work buffer, so that it clears it at its end?
fn takes_work(call: Call) -> bool {
    match call {
        Call::ReplaceInType | Call::ReplaceInSet | Call::Solve | Call::Confirm => true,
        Call::Quantify | Call::Generalise | Call::Instantiate => true,
        Call::Judge | Call::SolveAll | Call::CheckLine => true,
        Call::CheckTable | Call::NameOf | Call::Enter | Call::Compare => false,
        Call::AddExponents | Call::MultiplyExponents | Call::NegateExponent => false,
        Call::DivideExponents | Call::MultiplyProducts | Call::DivideProducts => false,
        Call::InvertProduct | Call::RaiseProduct | Call::IsSet | Call::IsType => false,
        Call::IsScheme | Call::IsBindings | Call::Contains | Call::Closed => false,
        Call::Variables | Call::Add | Call::Lent | Call::Ceiling => false,
    }
}

/// Is it the stored answer?
fn told_holds(told: &Told, gives: &Gives) -> bool {
    told.refusal == gives.refusal
        && told.value == gives.value
        && told.more == gives.more
        && told.rounds == gives.rounds
        && told.words == gives.words.len()
}

/// Does a buffer begin with these words, and is it as before behind them?
fn begins(buffer: &[u32], words: &[u32]) -> bool {
    buffer.starts_with(words) && buffer.iter().skip(words.len()).all(|w| *w == RESULT_BEFORE)
}

/// Does the call answer, and leave the buffers, as stored?
fn holds(alloc: Global, case: Case) -> Result<bool> {
    let Case {
        mut table,
        call,
        asked,
        lent,
        words,
        gives,
    } = case;
    let mut result = vec![in alloc; RESULT_BEFORE; lent.result]?;
    let mut work = vec![in alloc; WORK_BEFORE; lent.work]?;
    let lists = Lists {
        a: &words.first,
        b: &words.second,
        c: &words.third,
        d: &words.fourth,
    };
    let told = called(
        call,
        asked,
        lists,
        &mut table.pool,
        &mut table.ends,
        &mut result,
        &mut work,
    );
    let after = work_after(call, gives.refusal);
    Ok(
        told_holds(&told, &gives)
            && begins(&result, &gives.words)
            && work.iter().all(|w| *w == after),
    )
}

fn main(rt: HostRuntime) -> Result<()> {
    let alloc = rt.alloc();
    let list = io::read_to_string(alloc, rt.reader())?;
    let mut lines = list.lines();
    let mut count = 0u32;
    let mut right = 0u32;
    while let Some(about) = lines.next() {
        if !about.starts_with('#') {
            continue;
        }
        count = count.saturating_add(1);
        if holds(alloc, Case::read(alloc, &mut lines)?)? {
            right = right.saturating_add(1);
        } else {
            println!(rt; "{about}")?;
        }
    }
    println!(rt; "calls: {count} cases, {right} as stored")?;
    Ok(())
}
