// Reads one knowledge on standard input and prints its sizes: the replicas, the clock vectors, the elements of all
// vectors, the ranges, and the length in bytes; or `refused` and the number of the first fault.
//
// The longest knowledge within the limits has 14,933 bytes. The program reads at most one byte more, and the contract of
// `check_front` says that this decides the answer for all of the input.
#![tactic(auto)]

ghost use Rattle.std.specs.Prelude.{◌≡◌, ◌≤◌, IfOk, length, take};
ghost use Rattle.layout.specs.Checked.{checked_of};
ghost use Rattle.inspect.specs.Front.{DecidesAll};

use codec::Refusal;
use layout::Counts;
use std::io;
use std::io::Read;

const ROOM: usize = 14934;

// Reads until the buffer is full or the input ends, and returns how many bytes it put at the start of the buffer.
fn read_full(input: &mut impl Read, buffer: &mut [u8]) -> io::Result<usize>
    ensures { IfOk result (λ n. n ≤ length buffer.new) }
{
    let mut done = 0;
    // a while: a read says how many bytes it gave
    while done < buffer.len() {
        let n = input.read(&mut buffer[done..])?;
        if n == 0 {
            break;
        }
        done += n;
    }
    Ok(done)
}

// The check's answer for an input whose first bytes, at most 14,934 of them, are the first n of the buffer.
fn check_front(buffer: &[u8], n: usize) -> Result<Counts, Refusal>
    requires { (length buffer.now ≡ 14934) × (n ≤ 14934) }
    ensures { DecidesAll 14934 (take n buffer.now) (checked_of result) }
{
    check_knowledge::check(&buffer[..n])
}

fn report(rt: &impl Print, answer: Result<Counts, Refusal>, length: usize) -> io::Result<()> {
    match answer {
        Ok(n) => println!(rt; "{} {} {} {} {length}", n.r, n.v, n.e, n.g),
        Err(e) => println!(rt; "refused {}", u32::from(e)),
    }
}

fn main(rt: HostRuntime) -> io::Result<()> {
    let mut buffer = [0u8; ROOM];
    let n = read_full(&mut rt.stdin(), &mut buffer)?;
    let answer = check_front(&buffer, n);
    report(&rt, answer, n)
}
