// The test program: the cases at the limits of the papers, each with the reply that it must have, are read from standard input. The library
// and a checker that was written apart from it both reply to each case, and all three are compared.
#![tactic(auto)]

mod library;
mod running;
mod script;

use cases::tally::Tally;
use pieces::part;
use std::io;
use std::io::Read;

// What stands behind so many bytes is not read.
const MOST_BYTES: usize = 262144;

// Reads into lent places until they are full, and says how many bytes they have. An input that cannot be read any further ends there.
fn read_cases<R: Input>(rt: &R, places: &mut [u8]) -> usize {
    let mut reader = rt.reader();
    let mut count = 0usize;
    for _ in 0..places.len() {
        let Some(rest) = places.get_mut(count..) else {
            break;
        };
        let read = reader.read(rest).unwrap_or_default();
        if read == 0 {
            break;
        }
        count = count.saturating_add(read);
    }
    count
}

// Of these words too, those that cannot be written are left out.
fn print_tally<R: Print>(rt: &R, tally: Tally) {
    let _ = rt.print(tally.cases);
    let _ = rt.print(" cases, ");
    let _ = rt.print(tally.wrong);
    let _ = rt.print(" wrong\n");
}

fn main(rt: HostRuntime) -> io::Result<()> {
    let mut places = vec![in rt.alloc(); 0; MOST_BYTES]?;
    let count = read_cases(&rt, &mut places);
    let tally = script::run(&rt, part(&places, 0, count))?;
    print_tally(&rt, tally);
    Ok(())
}
