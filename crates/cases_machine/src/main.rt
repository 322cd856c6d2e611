// Runs the machine on the records of a pack and prints what each run gives back: the nine numbers, every output place
// and every cell. tools/pack has the format.
#![tactic(auto)]

ghost use Rattle.std.specs.Prelude.{◌≡◌, ◌+◌, ◌*◌, ◌≤◌, length, IfOk};
ghost use Rattle.semantics.specs.Running.{store_after, output_after};
ghost use Rattle.cases_machine.specs.Records.{Inputs};

use std::fs::File;
use std::io;

// What a record begins with: five numbers.
const HEAD_BYTES: usize = 20;

// An input, which is a number.
const INPUT_BYTES: usize = 4;

// The longest image.
const IMAGE_BYTES: usize = 29714;

// The longest record.
const RECORD_BYTES: usize = HEAD_BYTES + INPUTS * INPUT_BYTES + IMAGE_BYTES;

// The most records that are read of a pack.
const RECORDS: u32 = 10_000;

// The most cells of a case.
const CELLS: usize = 4096;

// The most output places of a case.
const PLACES: usize = 64;

// The most inputs of a case.
const INPUTS: usize = 64;

// Takes the inputs of a record, as many as there are places for.
fn take_inputs(bytes: &[u8], input: &mut [i32])
    requires { HEAD_BYTES + length input.old * INPUT_BYTES ≤ length bytes.now }
    ensures { Inputs bytes.now (length input.old) input.new
        × (length input.new ≡ length input.old) }
{
    for (i, place) in input.iter_mut().enumerate() {
        *place = packs::signed_at(bytes, HEAD_BYTES + i * INPUT_BYTES);
    }
}

// Runs an image and prints what the run gives back. The run is over when a print fails.
fn run_case(
    rt: &impl Print,
    image: &[u8],
    input: &[i32],
    store: &mut [i64],
    output: &mut [i32],
    steps: u32,
) -> io::Result<()>
    ensures value { IfOk result (λ x. x ≡ tt) }
    ensures store { store.new ≡ store_after image.now input.now
        store.old output.old steps }
    ensures output { output.new ≡ output_after image.now input.now
        store.old output.old steps }
{
    let x = machine::run(image, input, store, output, steps);
    printing::print_result(rt, x)?;
    rt.print(" |")?;
    printing::print_each(rt, b" ", output)?;
    rt.print(" |")?;
    printing::print_each(rt, b" ", store)?;
    rt.print("\n")
}

// Runs a record, unless it is too short or its case is too large.
fn run_record(rt: &impl Print, bytes: &[u8]) -> io::Result<()>
    ensures { IfOk result (λ x. x ≡ tt) }
{
    if bytes.len() < HEAD_BYTES {
        return Ok(());
    }
    let cells = image::word_at(bytes, 0) as usize;
    let fill = i64::from(packs::signed_at(bytes, 4));
    let places = image::word_at(bytes, 8) as usize;
    let steps = image::word_at(bytes, 12);
    let inputs = image::word_at(bytes, 16) as usize;
    if CELLS < cells || PLACES < places || INPUTS < inputs {
        return Ok(());
    }
    let Some(image) = bytes.get(HEAD_BYTES + inputs * INPUT_BYTES..) else {
        return Ok(());
    };
    let mut input = [0; INPUTS];
    take_inputs(bytes, &mut input[..inputs]);
    let mut store = [fill; CELLS];
    let mut output = [7; PLACES];
    run_case(
        rt,
        image,
        &input[..inputs],
        &mut store[..cells],
        &mut output[..places],
        steps,
    )
}

fn main(rt: HostRuntime) -> io::Result<()> {
    let name = "runs.pack";
    let mut file = match File::open(&rt, name) {
        Ok(file) => file,
        Err(error) => return eprintln!(rt; "{name}: {error}"),
    };
    let mut buffer = [0; RECORD_BYTES];
    for _ in 0..RECORDS {
        let Ok(n) = packs::next_record(&mut file, &mut buffer) else {
            return Ok(());
        };
        run_record(&rt, &buffer[..n])?;
    }
    Ok(())
}
