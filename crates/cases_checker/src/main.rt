// Runs the whole check, questions 1 to 11, on the images of a pack and prints what it answers.
#![tactic(auto)]

use checker::Refusal;
use std::fs::File;
use std::io;

// The longest image.
const IMAGE_BYTES: usize = 29714;

// The most records that are read of a pack.
const RECORDS: u32 = 10_000;

fn main(rt: HostRuntime) -> io::Result<()> {
    let name = "images.pack";
    let mut file = match File::open(&rt, name) {
        Ok(file) => file,
        Err(error) => return eprintln!(rt; "{name}: {error}"),
    };
    let mut buffer = [0; IMAGE_BYTES];
    for _ in 0..RECORDS {
        let Ok(n) = packs::next_record(&mut file, &mut buffer) else {
            return Ok(());
        };
        match checker::check(&buffer[..n]) {
            Ok(()) => packs::print_answer(&rt, 0, 0)?,
            Err(Refusal { question, row }) => {
                packs::print_answer(&rt, question as u32, row as u32)?
            }
        }
    }
    Ok(())
}
