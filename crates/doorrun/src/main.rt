// Runs the image on standard input and prints the nine numbers of the run on a line, then one output per line.
#![tactic(auto)]

ghost use Rattle.std.specs.Prelude.{◌≡◌, ◌≤◌, [], length, pos, replicate, take};
ghost use Rattle.std.specs.Io.KnownBytes.{Consumes};
ghost use Rattle.semantics.specs.Running.{result_of, output_after};

use semantics::RunResult;
use std::io;
use std::io::Read;

// How much of the input is read: as many bytes as the longest image has.
const IMAGE_BYTES: usize = 29714;

// The cells of a run.
const CELLS: usize = 8192;

// The output places of a run.
const OUTPUTS: usize = 4096;

// The steps of a run.
const STEPS: u32 = 100_000;

// Runs an image with no inputs. The contract has the paper's numbers, so that a wrong constant is refused.
fn run_image(image: &[u8], output: &mut [i32]) -> RunResult
    ensures value { result ≡ result_of image.now [] (replicate 8192 (pos 0)) output.old 100000 }
    ensures output { output.new ≡ output_after image.now [] (replicate 8192 (pos 0))
        output.old 100000 }
{
    let mut store = [0; CELLS];
    machine::run(image, &[], &mut store, output, STEPS)
}

// Reads until the image is full, the input ends or a read fails, and answers how many bytes were read.
fn read_image<R: Read>(input: &mut R, image: &mut [u8]) -> usize
    ensures within { result ≤ length image.new }
    ensures bytes { Consumes (R.remaining input.old) (R.remaining input.new)
        (take result image.new) }
{
    let mut done = 0;
    // A read may give less than there is room for, and std's reads that go on want a heap or an exact length.
    while done < image.len() {
        match input.read(&mut image[done..]) {
            Ok(0) | Err(_) => break,
            Ok(n) => done += n,
        }
    }
    done
}

fn main(rt: HostRuntime) -> io::Result<()> {
    let mut image = [0; IMAGE_BYTES];
    let n = read_image(&mut rt.stdin(), &mut image);
    let mut output = [0; OUTPUTS];
    let x = run_image(&image[..n], &mut output);
    printing::print_result(&rt, x)?;
    // No more are written than there are places.
    if let Some(written) = output.get(..x.at.written as usize) {
        printing::print_each(&rt, b"\n", written)?;
    }
    rt.print("\n")
}
