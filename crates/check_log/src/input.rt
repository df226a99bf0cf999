// Standard input, a block at a time. What a read gave decides whether more is to be read, the block is whole, the input is at its end, or it is
// cut; a read that fails is never taken for the end.
ghost use Rattle.std.specs.Prelude.{◌<◌, ◌≡◌, ◌≤◌, List, ℕ, Option, IfSome, length};
ghost use Rattle.std.specs.declared.ops.ControlFlow.TheVariants.{Break};
ghost use Rattle.check_log.specs.Reads.{nothing_left, after_read, after_reads};

use std::io::{self, Stdin};
use std::ops::ControlFlow;

// How a block was filled.
#[derive(Clone, Copy, Debug, PartialEq, Eq)]
pub enum Filled {
    Whole,
    // Nothing was left to read.
    End,
    // The input ends within the block, or a read failed.
    Cut,
}

// Nothing is left to read, where `done` bytes of a block are there.
// It rules out: an input that ends within a block taken for one at its end.
#[tactic(auto, unfolding(crate::specs::Reads::nothing_left))]
fn nothing_left(done: usize) -> Filled
    ensures { result ≡ nothing_left done }
{
    if done == 0 {
        return Filled::End;
    }
    Filled::Cut
}

// After a read that gave `got`, None where it failed, where `done` of the block's bytes were there before it: so many bytes of the block are there and
// more are to be read, or no more is.
// It rules out: a read that failed taken for the end of the input.
#[tactic(auto, unfolding(crate::specs::Reads::after_read))]
pub fn after_read(size: usize, done: usize, got: Option<usize>) -> ControlFlow<Filled, usize>
    requires { done < size }
    ensures { result ≡ after_read size done got }
{
    match got {
        None => ControlFlow::Break(Filled::Cut),
        Some(0) => ControlFlow::Break(nothing_left(done)),
        Some(n) => {
            let room = size - done;
            if n < room {
                return ControlFlow::Continue(done + n);
            }
            ControlFlow::Break(Filled::Whole)
        }
    }
}

// One read into the rest of a block: None where it failed, else how many bytes it gave, 0 where nothing is left to read.
// It rules out: a read that failed taken for one that gave more bytes than there is room for.
fn read_rest(input: &mut Stdin, rest: &mut [u8]) -> Option<usize>
    ensures { IfSome result (λ n. n ≤ length rest.old) }
{
    io::Read::read(input, rest).ok()
}

// Fills the block, by as many reads as it takes. What a read puts into the block is outside every contract.
pub fn fill(input: &mut Stdin, block: &mut [u8]) -> Filled
    requires { 0 < length block.old }
    ensures { (gots : List (Option ℕ)) × (after_reads (length block.old) gots ≡ Break result) }
{
    let mut done: usize = 0;
    loop {
        let got = read_rest(input, &mut block[done..]);
        match after_read(block.len(), done, got) {
            ControlFlow::Continue(bytes) => done = bytes,
            ControlFlow::Break(filled) => return filled,
        }
    }
}
