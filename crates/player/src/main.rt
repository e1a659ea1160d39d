// Reads a sheet and a block of rate and duration from standard input, and prints the samples.
#![tactic(auto)]

ghost use Rattle.std.specs.Prelude.{◌≡◌, true, ◌<◌, ◌≤◌, length};

use play::Play;
use std::io;

// Reads until the buffer is full, the input ends or a read fails; how many bytes it holds then. A `while`: a read gives any number of bytes.
fn read_full(input: &mut impl io::Read, buf: &mut [u8]) -> usize
    ensures { result ≤ length buf.new }
{
    let mut held = 0;
    while held < buf.len() {
        let n = input.read(&mut buf[held..]).unwrap_or(0);
        if n == 0 {
            break;
        }
        held += n;
    }
    held
}

// Whether the output took the bytes.
fn print(to: &impl Print, bytes: &[u8]) -> bool {
    to.write_all(bytes).is_ok()
}

// Prints the next block of samples; whether to go on.
#[tactic(auto, using(play::proofs::Blocks::moved, play::proofs::Blocks::moves_on))]
fn print_block(to: &impl Print, play: &mut Play, out: &mut [u8; 20480]) -> bool
    ensures { result ≡ true → play.old.next < play.old.count → (play.new.count ≡ play.old.count) × (play.old.next < play.new.next) }
{
    match play::next_block(play, out) {
        Ok(n) => print(to, &out[..n]),
        Err(_) => false,
    }
}

// Prints block after block, until all is played or the output takes no more. A `while`: what is left to play says when it ends.
fn print_blocks(to: &impl Print, mut play: Play, out: &mut [u8; 20480]) {
    while play.next < play.count {
        if !print_block(to, &mut play, out) {
            return;
        }
    }
}

// Prints all that the input gives.
fn print_play(to: &impl Print, s: &[u8], out: &mut [u8; 20480]) {
    let opened = play::open(s, out);
    if !print(to, &out[..opened.bytes]) {
        return;
    }
    if let Ok(play) = opened.play {
        print_blocks(to, play, out);
    }
}

fn main(rt: HostRuntime) {
    // no more is read, and the first 16,543 bytes decide every answer
    let mut input = [0; 16640];
    let n = read_full(&mut rt.stdin(), &mut input);
    let mut out = [0; 20480];
    print_play(&rt.stdout(), &input[..n], &mut out);
}
