//! Compares the search with a second decision, by brute force, on random cases, and prints what it did.

#![tactic(auto)]

mod announced;
mod brute;
mod case;
mod draw;
mod message;
mod notes;
mod random;
mod rows;
mod tables;
mod tally;

use random::Random;
use std::io;
use tables::examine_table;
use tally::Tally;

// What the generator starts from, one number after the other.
const SEEDS: [u64; 4] = [245, 7221, 7222, 65537];

// How many tables are done for a seed.
const TABLES: usize = 7500;

// Does all tables of a seed.
fn examine_seed(seed: u64, tally: &mut Tally) {
    let mut random = Random::new(seed);
    for _ in 0..TABLES {
        examine_table(&mut random, tally);
    }
}

// Prints what was done.
fn report(rt: &HostRuntime, t: &Tally) -> io::Result<()> {
    println!(rt; "tables {}, set messages {}", t.tables, t.messages)?;
    println!(rt; "cases {}, with more than 16 rows {}", t.cases, t.crowded)?;
    println!(rt; "carried {}", t.carried)?;
    println!(rt;
        "carried by a descriptor other than the first {}",
        t.passed_over
    )?;
    println!(rt; "carried where a row had to move for another {}", t.moved)?;
    println!(rt; "blocked {}, note rows checked {}", t.blocked, t.note_rows)?;
    println!(rt; "scratch of 511 octets refused {}", t.refused)?;
    println!(rt; "differences {}", t.differences)
}

fn main(rt: HostRuntime) -> io::Result<()> {
    let mut tally = Tally::default();
    print!(rt; "seeds")?;
    for seed in SEEDS {
        print!(rt; " {seed}")?;
        examine_seed(seed, &mut tally);
    }
    println!(rt; "")?;
    report(&rt, &tally)
}
