// Times the operations of both stores at the tablets' size. What it computes goes to standard output and is always the
// same; the times go to standard error. `bench/stores` runs it beside a plain Rust version.
#![tactic(auto)]

use rows::held::Rows;
use slips::slips::Slips;
use std::env;
use std::time::Instant;
use store::traits::Store;
use values::value::Value;

// Records of 2 to 9 cells, until the store refuses; answers how many. Here and in `write_all` a loop counts, since with
// `filter(..).count()` rows fill five times and write nearly twice as slowly; the bar is a tenth (bench/README.md).
fn fill<S: Store>(store: &mut S) -> u32 {
    store.clear();
    let mut made = 0u32;
    for n in 0..1000u16 {
        if store.create(n % 32, 2 + usize::from(n % 8)).is_some() {
            made = made.wrapping_add(1);
        }
    }
    made
}

// Writes every cell of the first 360 records.
fn write_all<S: Store>(store: &mut S) -> u32 {
    let mut done = 0u32;
    for n in 0..360u16 {
        for cell in 0..2 + usize::from(n % 8) {
            if store.write(n + 1, cell, Value::Record(n)).is_some() {
                done = done.wrapping_add(1);
            }
        }
    }
    done
}

// Reads them again.
fn read_all<S: Store>(store: &S) -> u32 {
    let mut sum = 0u32;
    for n in 0..360u16 {
        for cell in 0..2 + usize::from(n % 8) {
            if let Some(Value::Record(r)) = store.read(n + 1, cell) {
                sum = sum.wrapping_add(u32::from(r));
            }
        }
    }
    sum
}

// Runs each operation `rounds` times and prints the nanoseconds that all rounds took. The loops are written out: through
// one function that takes a closure, the fills and reads of slips are more than a tenth slower, which is the bar.
fn time<S: Store>(rt: &HostRuntime, name: &str, store: &mut S, rounds: u32) -> anyhow::Result<()> {
    let start = Instant::now(rt)?;
    let mut total = 0u32;
    for _ in 0..rounds {
        total = total.wrapping_add(fill(store));
    }
    let filled = start.elapsed(rt)?.as_nanos();
    let start = Instant::now(rt)?;
    for _ in 0..rounds {
        total = total.wrapping_add(write_all(store));
    }
    let written = start.elapsed(rt)?.as_nanos();
    let start = Instant::now(rt)?;
    for _ in 0..rounds {
        total = total.wrapping_add(read_all(store));
    }
    let read = start.elapsed(rt)?.as_nanos();
    println!(rt; "{name} {total}")?;
    eprintln!(rt; "{name} fill {filled} write {written} read {read}")?;
    Ok(())
}

// The number of rounds is the first argument, 1 without one.
fn rounds(rt: &HostRuntime) -> anyhow::Result<u32> {
    let mut args = env::args(rt)?;
    let _ = args.next();
    match args.next() {
        Some(word) => Ok(word.as_str().parse::<u32>()?),
        None => Ok(1),
    }
}

fn main(rt: HostRuntime) -> anyhow::Result<()> {
    let heap = rt.alloc();
    let n = rounds(&rt)?;
    let mut rows = Rows::<1000, 2000>::new(heap)?;
    let mut slips = Slips::<1000, 2000>::new(heap)?;
    time(&rt, "rows", &mut rows, n)?;
    time(&rt, "slips", &mut slips, n)
}
