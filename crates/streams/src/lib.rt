// What the programs share: how each reads standard input, prints its answer and says what went wrong.
#![tactic(auto)]

ghost use Rattle.std.specs.Prelude.{◌≡◌, ◌≤◌, IfErr, IfOk, length};

use std::env::{Env, FillError};
use std::io;
use std::io::{Read, Write};
use std::rt::Stdin;

// A read that failed, and how many bytes had come before it.
#[derive(Clone, Copy, Debug)]
pub struct Unread {
    pub length: usize,
}

// What a program says on standard error: how it is used, that its input could not be read, and that its answer could not be written.
#[derive(Clone, Copy)]
pub struct Words<'a> {
    pub usage: &'a [u8],
    pub unread: &'a [u8],
    pub unwritten: &'a [u8],
}

// Reads standard input to its end, until the room is full, or until a read fails. A failed read is not the end of the input, and what came
// before it is no sheet: a program that took it for one would blame its clerk.
pub fn read_all(mut stdin: Stdin, room: &mut [u8]) -> Result<usize, Unread>
    ensures whole { IfOk result (λ n. n ≤ length room.new) }
    ensures unread { IfErr result (λ e. e.length ≤ length room.new) }
{
    let mut length = 0;
    // A loop, since the library's `read_exact` does not tell how much came, and reads on where a signal interrupts, and `read_to_end` takes a heap.
    while length < room.len() {
        match stdin.read(&mut room[length..]) {
            Ok(0) => break,
            Ok(n) => length += n,
            Err(_) => return Err(Unread { length }),
        }
    }
    Ok(length)
}

// A whole program: it reads standard input into the room, and `answer` writes what it makes of the first n bytes there. With a word behind its
// name it reads nothing. Its exit status says none of these: it is 0 whenever the program itself comes to its end. It takes the
// host and no bound, since a bound brings the host's other powers with it: a program's check would rest on nine assumed functions, not five.
pub fn run<F>(rt: HostRuntime, words: &Words, room: &mut [u8], answer: F)
where
    F: FnOnce(&[u8], usize) -> io::Result<()>,
    requires callable { (read : _) (n : _) → length read.now ≡ length room.old → n ≤ length read.now → F.pre answer read n }
    ensures room_len { length room.new ≡ length room.old }
{
    let mut stderr = rt.stderr();
    // a word of any length is one: nothing of it is asked for but whether it is there
    if !matches!(rt.arg(1, &mut []), Err(FillError::NotPresent)) {
        let _ = stderr.write_all(words.usage);
        return;
    }
    let Ok(n) = read_all(rt.stdin(), room) else {
        let _ = stderr.write_all(words.unread);
        return;
    };
    if answer(room, n).is_err() {
        let _ = stderr.write_all(words.unwritten);
    }
}
